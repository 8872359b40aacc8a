//! The control words and commands of the timer.

ghost use Rattle.std.specs.Prelude.{◌≡◌};
ghost use Rattle.mdl_dev.specs.Counter.{mode_of, access_of, is_bcd, modulus_of, starts_high};
ghost use Rattle.mdl_dev.specs.Pit.{command_of, port_of, select_of};

use mdl_dev::pit::{AccessForm, Command, Mode, Port, Select};

/// The ports of the timer.
const COUNTER_0: u16 = 0x40;

const COUNTER_1: u16 = 0x41;

const COUNTER_2: u16 = 0x42;

const CONTROL: u16 = 0x43;

/// The port of the timer that has this number, if there is one.
pub(crate) fn port_of(port: u16) -> Option<Port>
    ensures { result ≡ port_of port }
{
    match port {
        COUNTER_0 => Some(Port::Count(Select::Counter0)),
        COUNTER_1 => Some(Port::Count(Select::Counter1)),
        COUNTER_2 => Some(Port::Count(Select::Counter2)),
        CONTROL => Some(Port::Control),
        _ => None,
    }
}

/// The counter of this number.
pub(crate) fn select_of(number: u8) -> Select
    ensures { result ≡ select_of number }
{
    match number {
        0 => Select::Counter0,
        1 => Select::Counter1,
        _ => Select::Counter2,
    }
}

/// What a byte written to the control port asks for.
pub(crate) fn command_of(byte: u8) -> Command
    ensures { result ≡ command_of byte }
{
    if byte / 64 == 3 {
        Command::ReadBack(byte)
    } else if byte / 16 % 4 == 0 {
        Command::CounterLatch(select_of(byte / 64))
    } else {
        Command::ControlWord(select_of(byte / 64), byte % 64)
    }
}

/// Bits 3 to 1 of a control word. Bit 3 says nothing where bit 2 is 1.
pub(crate) fn mode_of(control: u8) -> Mode
    ensures { result ≡ mode_of control }
{
    match control / 2 % 8 {
        0 => Mode::TerminalCount,
        1 => Mode::OneShot,
        2 | 6 => Mode::RateGenerator,
        3 | 7 => Mode::SquareWave,
        4 => Mode::SoftwareStrobe,
        _ => Mode::HardwareStrobe,
    }
}

/// Bits 5 and 4 of a control word.
pub(crate) fn access_of(control: u8) -> AccessForm
    ensures { result ≡ access_of control }
{
    match control / 16 % 4 {
        1 => AccessForm::LowByte,
        2 => AccessForm::HighByte,
        _ => AccessForm::LowThenHigh,
    }
}

/// Bit 0 of a control word.
pub(crate) fn is_bcd(control: u8) -> bool
    ensures { result ≡ is_bcd control }
{
    control % 2 == 1
}

/// How many counts there are: 65,536, or 10,000 in BCD.
pub(crate) fn modulus_of(bcd: bool) -> u32
    ensures { result ≡ modulus_of bcd }
{
    if bcd { 10_000 } else { 65_536 }
}

/// OUT after a control word.
pub(crate) fn starts_high(mode: Mode) -> bool
    ensures { result ≡ starts_high mode }
{
    mode != Mode::TerminalCount
}
