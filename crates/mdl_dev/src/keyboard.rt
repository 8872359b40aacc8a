//! The keyboard controller's ports, bits, commands and bytes, by the names of the PC/AT.

/// The port of the data: a read takes the byte at the front, a write goes to what awaits a byte,
/// else to the keyboard.
pub const DATA_PORT: u16 = 0x60;
/// The port that reads the status and takes commands.
pub const COMMAND_PORT: u16 = 0x64;

/// Status: a byte is there.
pub const OUTPUT_FULL: u8 = 0x01;
/// Status, and the same bit of the command byte: the system has passed its test.
pub const SYSTEM_FLAG: u8 = 0x04;
/// Status: the last write was a command.
pub const COMMAND_LAST: u8 = 0x08;
/// Status: the keyboard is not locked.
pub const UNLOCKED: u8 = 0x10;

/// Command byte: a byte that comes to the front raises the line.
pub const INTERRUPT: u8 = 0x01;
/// Command byte: the keyboard is off.
pub const KEYBOARD_OFF: u8 = 0x10;

/// Output port: a write with a 0 here resets the processor.
pub const NO_RESET: u8 = 0x01;
/// Output port: the line A20.
pub const A20_GATE: u8 = 0x02;

// The commands.
pub const READ_COMMAND_BYTE: u8 = 0x20;

pub const WRITE_COMMAND_BYTE: u8 = 0x60;

pub const SELF_TEST: u8 = 0xAA;

pub const INTERFACE_TEST: u8 = 0xAB;

pub const DISABLE_KEYBOARD: u8 = 0xAD;

pub const ENABLE_KEYBOARD: u8 = 0xAE;

pub const READ_INPUT_PORT: u8 = 0xC0;

pub const READ_OUTPUT_PORT: u8 = 0xD0;

pub const WRITE_OUTPUT_PORT: u8 = 0xD1;

pub const PULSE_RESET: u8 = 0xFE;

/// The reply to `SELF_TEST`.
pub const SELF_TEST_PASSED: u8 = 0x55;
/// The reply to `INTERFACE_TEST`.
pub const INTERFACE_PASSED: u8 = 0x00;
/// The reply to `READ_INPUT_PORT`.
pub const INPUT_PORT: u8 = 0x80;

/// What the keyboard answers to each byte that is sent to it.
pub const ACKNOWLEDGE: u8 = 0xFA;
/// Sent to the keyboard: it is to test itself.
pub const RESET_KEYBOARD: u8 = 0xFF;
/// What the keyboard answers when it has tested itself.
pub const KEYBOARD_PASSED: u8 = 0xAA;

/// The command byte at boot.
pub const BOOT_COMMAND_BYTE: u8 = 0x45;
/// The output port at boot.
pub const BOOT_OUTPUT_PORT: u8 = 0x03;

/// How many bytes of the keyboard may wait.
pub const QUEUE: usize = 16;

/// What the next byte written to the data port is.
#[derive(Clone, Copy, Debug, PartialEq, Eq)]
pub enum Awaited {
    /// A byte for the keyboard.
    Nothing,
    CommandByte,
    OutputPort,
}

/// What a write, or a key, comes to.
#[derive(Clone, Copy, Debug, PartialEq, Eq)]
pub enum Action {
    /// The controller replies with this byte, before all that waits.
    Reply(u8),
    /// The next byte of data is this.
    Await(Awaited),
    SetCommandByte(u8),
    SetOutputPort(u8),
    /// The keyboard sends a byte, which waits in the queue.
    Send(u8),
    /// The keyboard sends two bytes.
    SendBoth(u8, u8),
    ResetProcessor,
    Ignore,
}

/// What a write tells the board.
#[derive(Clone, Copy, Debug, PartialEq, Eq)]
pub struct Told {
    /// The chip raised its line.
    pub line: bool,
    /// The chip asks for a reset of the processor, which follows the step and leaves the chips.
    pub reset: bool,
}
