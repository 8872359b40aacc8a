//! The timer's registers and command words. 8254 data sheet.

/// The mode of a counter.
#[derive(Clone, Copy, Debug, PartialEq, Eq)]
pub enum Mode {
    /// Mode 0: OUT rises when the count has run down.
    TerminalCount,
    /// Mode 1: the gate starts a low pulse as long as the count.
    OneShot,
    /// Mode 2: a low pulse of one clock in each period.
    RateGenerator,
    /// Mode 3: OUT is high for one half of each period and low for the other.
    SquareWave,
    /// Mode 4: a low pulse of one clock when the count has run down.
    SoftwareStrobe,
    /// Mode 5: the same, started by the gate.
    HardwareStrobe,
}

/// Which bytes of a count are written and read.
#[derive(Clone, Copy, Debug, PartialEq, Eq)]
pub enum AccessForm {
    LowByte,
    HighByte,
    LowThenHigh,
}

/// A counter, by its number in a command and in its port.
#[derive(Clone, Copy, Debug, PartialEq, Eq)]
pub enum Select {
    Counter0,
    Counter1,
    Counter2,
}

/// What a byte written to the control port asks for.
#[derive(Clone, Copy, Debug, PartialEq, Eq)]
pub enum Command {
    /// The counter's count is latched.
    CounterLatch(Select),
    /// The counter is set up by the low six bits of a control word: access form, mode and BCD.
    ControlWord(Select, u8),
    /// Counts and states are latched as the bits of this byte say.
    ReadBack(u8),
}

/// A port of the timer.
#[derive(Clone, Copy, Debug, PartialEq, Eq)]
pub enum Port {
    Count(Select),
    Control,
}

/// Where a counter is between the control word and the running count.
#[derive(Clone, Copy, Debug, PartialEq, Eq)]
pub enum Stage {
    /// It has no count, or mode 0 waits for the second byte of one.
    Stopped,
    /// The next pulse loads the count.
    Loading,
    /// The count is loaded.
    Counting,
    /// A rise of the gate lets the next pulse load the count.
    Waiting,
}

/// The registers of one counter.
///
/// `control` has the low six bits of the last control word. A count is from 1 to 65,536, or in BCD
/// to 10,000; `written` is 0 without one. `low`, `latched_count` and `latched_status` keep the last
/// byte, count or status that they had, and mean something only beside their flag.
#[derive(Clone, Copy, Debug, PartialEq, Eq)]
pub struct Counter {
    pub control: u8,
    pub out: bool,
    /// The last count that was written, if there is one, is not loaded.
    pub null: bool,
    pub stage: Stage,
    /// The low byte of a count was written, and its high byte is next.
    pub low_written: bool,
    pub low: u8,
    /// The next byte read is the high one.
    pub high_next: bool,
    pub count_latched: bool,
    pub latched_count: u16,
    pub status_latched: bool,
    pub latched_status: u8,
    pub written: u32,
    /// The count of the running period.
    pub loaded: u32,
    pub value: u32,
}

/// The three counters, and the gate of the last. The gates of the others are always high.
#[derive(Clone, Copy, Debug, PartialEq, Eq)]
pub struct Timer {
    pub counter0: Counter,
    pub counter1: Counter,
    pub counter2: Counter,
    pub gate2: bool,
}
