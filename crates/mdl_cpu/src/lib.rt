//! Addresses and protection as they are written down: the offset of a memory operand, which accesses
//! a segment allows, the stack, loads of segment registers, the breakpoints, and the delivery of
//! interrupts and exceptions. The plain types here are those of the rules of protection.
//!
//! The one contract used above is the definitions themselves: `offset_of`, `legal` and `deliver`. Read
//! `specs/Addresses.antt` first, then `Segments`, `Access`, `Stack`, `Loads`, `Steady`, `Breakpoints`,
//! `Causes`, `Gates`, `DoubleFault`, `Delivery`.
#![tactic(auto)]

mod laws;

pub use laws::{
    a_delivery_is_some_choice, a_refused_delivery_leaves_memory, no_delivery_needs_a_fifth,
    operands_address_by_registers,
};
use mdl_state::Fault;

/// A descriptor: its two doublewords as they were read, the linear address of the first, and the
/// base, the limit in bytes and the rights that they say.
#[derive(Clone, Copy, Debug, PartialEq, Eq)]
pub struct Desc {
    pub low: u32,
    pub high: u32,
    pub at: u32,
    pub base: u32,
    pub limit: u32,
    pub rights: u16,
}

/// A stack segment whose descriptor was read and tested, and is not yet marked as accessed.
#[derive(Clone, Copy, Debug, PartialEq, Eq)]
pub struct StackSegment {
    pub selector: u16,
    pub desc: Desc,
}

/// What a far transfer comes to.
#[derive(Clone, Copy, Debug, PartialEq, Eq)]
pub enum Outcome {
    /// It is made.
    Done,
    /// A switch to the task whose TSS has this selector follows.
    Switch(u16),
}

/// An exception or an interrupt that is to be delivered.
#[derive(Clone, Copy, Debug, PartialEq, Eq)]
pub struct Cause {
    pub vector: u8,
    /// The error code, which the faults with vectors 8 and 10 to 14 have.
    pub code: Option<u16>,
    /// It is INT n, INT 3 or INTO.
    pub soft: bool,
    /// It is a fault, whose saved EFLAGS has RF set.
    pub fault: bool,
    /// It comes from outside the program: the bit EXT of error codes on the way.
    pub ext: bool,
    /// The EIP that is saved.
    pub back: u32,
}

/// What tells which two exceptions make a double fault.
#[derive(Clone, Copy, Debug, PartialEq, Eq)]
pub enum Class {
    Benign,
    Contributory,
    PageFault,
    DoubleFault,
}

/// Why a task switch is made.
#[derive(Clone, Copy, Debug, PartialEq, Eq)]
pub enum Reason {
    Jump,
    Call,
    Interrupt,
    Return,
}

/// What a task switch is asked for.
#[derive(Clone, Copy, Debug, PartialEq, Eq)]
pub struct Request {
    /// The selector of the TSS.
    pub selector: u16,
    pub reason: Reason,
    /// The instruction named the TSS itself, and no task gate.
    pub direct: bool,
    /// The EIP that is saved.
    pub back: u32,
    /// The error code of a delivery.
    pub code: Option<u16>,
    /// The bit EXT of error codes on the way.
    pub ext: bool,
    /// A fault is delivered, whose saved EFLAGS has RF set.
    pub fault: bool,
}

/// What the old task hands to the new one: the descriptor of the new TSS, and the image in it.
#[derive(Clone, Copy, Debug, PartialEq, Eq)]
pub struct Task {
    pub desc: Desc,
    /// CR3, EIP, EFLAGS, EAX, ECX, EDX, EBX, ESP, EBP, ESI, EDI, ES, CS, SS, DS, FS, GS, LDTR and the
    /// word with T.
    pub image: [u32; 19],
}

/// What a task switch comes to.
#[derive(Clone, Copy, Debug, PartialEq, Eq)]
pub enum Switched {
    /// It is made, to a task whose T bit is this.
    Done(bool),
    /// A fault in the old task.
    OldFault(Fault),
    /// A fault in the new task.
    NewFault(Fault),
}
