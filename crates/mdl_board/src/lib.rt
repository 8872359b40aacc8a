//! The board as it is written down: plain types here, and in `specs/` the chips together, which
//! device a port belongs to, and what each access, each event and a reset does.
//!
//! The one contract used above is the definitions themselves: `input_value`, `after_input`,
//! `after_output`, `key_pressed`, `pulsed`, `board_reset`. Read `specs/Board.antt` first, then
//! `BytePorts`, `WideAccesses`.
#![tactic(auto)]

mod laws;

pub use laws::a_byte_is_that_of_its_port;

/// The line of the interrupt controllers that the timer is on.
pub const TIMER_LINE: u8 = 0;
/// That of the keyboard controller.
pub const KEYBOARD_LINE: u8 = 1;
/// That of the disk, which is line 6 of the second chip.
pub const DISK_LINE: u8 = 14;

/// The timer's first port.
pub const COUNTER_0: u16 = 0x40;
/// The timer's last port.
pub const TIMER_CONTROL: u16 = 0x43;

/// The port of the timer's third counter and of the speaker, port B of the PC/AT's system control.
pub const SYSTEM_CONTROL: u16 = 0x61;
/// Bit of that port: the gate of counter 2.
pub const GATE_2: u8 = 0;
/// Bit of that port: the speaker is on.
pub const SPEAKER: u8 = 1;
/// Bit of that port, when read: OUT of counter 1.
pub const OUT_1: u8 = 4;
/// Bit of that port, when read: OUT of counter 2.
pub const OUT_2: u8 = 5;

/// What a port reads that belongs to no device.
pub const ALL_ONES: u8 = 0xFF;

/// What a byte port belongs to.
#[derive(Clone, Copy, Debug, PartialEq, Eq)]
pub enum Device {
    InterruptControllers,
    Timer,
    SystemControl,
    Keyboard,
    Screen,
    Disk,
    Nothing,
}
