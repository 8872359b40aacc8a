//! The commands of the stepping monitor.

/// What a line of the monitor asks for, in the order of the monitor's table.
///
/// An address is a linear one where an instruction lies, and a physical one for bytes.
#[derive(Clone, Copy, Debug, PartialEq, Eq)]
pub enum Command {
    /// So many steps, and where they lead.
    Steps(u64),
    /// So many steps, and where each of them leads.
    Trace(u32),
    /// Steps until so many are made since the machine was built.
    Go(u64),
    /// Steps to a breakpoint.
    Continue,
    /// A breakpoint is added.
    AddStop(u32),
    /// A breakpoint is removed.
    DropStop(u32),
    /// The registers.
    Registers,
    /// The text screen.
    Screen,
    /// Bytes of physical memory: the address of the first, and how many.
    Bytes(u32, u32),
    /// A listing: the address of its first line, and how many lines.
    List(u32, u32),
    /// The end of the session.
    Quit,
}
