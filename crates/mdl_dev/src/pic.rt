//! The interrupt controllers: the two chips, the stages of an initialization, the operations of
//! OCW2, and the registers of one chip.

/// The first chip's port with A0 0: ICW1, OCW2 and OCW3, and reads of IRR or ISR.
pub const FIRST_COMMAND: u16 = 0x20;
/// The first chip's port with A0 1: ICW2 to ICW4, and the mask.
pub const FIRST_DATA: u16 = 0x21;
/// The second chip's port with A0 0.
pub const SECOND_COMMAND: u16 = 0xA0;
/// The second chip's port with A0 1.
pub const SECOND_DATA: u16 = 0xA1;

/// The line of the first chip that the second one's output is on.
pub const CASCADE: u8 = 2;

/// Bit 4 of a word to a command port is 1 in ICW1 alone.
pub const IS_ICW1: u8 = 4;
/// Bit 3 of such a word is 1 in OCW3 and 0 in OCW2.
pub const IS_OCW3: u8 = 3;
/// ICW1: ICW4 comes.
pub const IC4: u8 = 0;
/// ICW1: the chip is alone, and no ICW3 comes.
pub const SNGL: u8 = 1;
/// ICW4: automatic end of interrupt.
pub const AEOI: u8 = 1;
/// ICW4: special fully nested mode.
pub const SFNM: u8 = 4;
/// OCW3: reads give ISR and not IRR, where RR is 1.
pub const RIS: u8 = 0;
/// OCW3: RIS counts.
pub const RR: u8 = 1;
/// OCW3: the next read answers a poll.
pub const POLL: u8 = 2;
/// OCW3: special mask mode, where ESMM is 1.
pub const SMM: u8 = 5;
/// OCW3: SMM counts.
pub const ESMM: u8 = 6;

/// One of the two chips. The second has lines 8 to 15, and its output is a line of the first.
#[derive(Clone, Copy, Debug, PartialEq, Eq)]
pub enum Chip {
    First,
    Second,
}

/// How far a chip is with its initialization.
#[derive(Clone, Copy, Debug, PartialEq, Eq)]
pub enum Stage {
    /// No ICW1 was written.
    Before,
    /// ICW2 comes next.
    Icw2,
    /// ICW3 comes next.
    Icw3,
    /// ICW4 comes next.
    Icw4,
    /// Nothing is missing.
    Ready,
}

/// The register that is read where A0 is 0.
#[derive(Clone, Copy, Debug, PartialEq, Eq)]
pub enum Shown {
    Irr,
    Isr,
}

/// The operations of OCW2, in the order of its bits 7 to 5.
#[derive(Clone, Copy, Debug, PartialEq, Eq)]
pub enum Ocw2 {
    ClearRotateInAutomaticEoi,
    NonSpecificEoi,
    NoOperation,
    SpecificEoi,
    SetRotateInAutomaticEoi,
    RotateOnNonSpecificEoi,
    SetPriority,
    RotateOnSpecificEoi,
}

/// The registers and modes of one chip.
#[derive(Clone, Copy, Debug, PartialEq, Eq)]
pub struct Controller {
    /// Interrupt requests, a bit for each line.
    pub irr: u8,
    /// Lines in service.
    pub isr: u8,
    /// Masked lines.
    pub imr: u8,
    /// The vector of line 0.
    pub base: u8,
    /// The line of the lowest priority.
    pub lowest: u8,
    pub stage: Stage,
    /// SNGL of ICW1.
    pub single: bool,
    /// IC4 of ICW1.
    pub needs_icw4: bool,
    pub automatic_eoi: bool,
    /// An automatic end of interrupt gives its line the lowest priority.
    pub rotates: bool,
    pub special_mask: bool,
    pub special_nested: bool,
    pub shown: Shown,
    /// The next read answers a poll.
    pub polled: bool,
}
