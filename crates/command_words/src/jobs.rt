//! What the words ask for.

ghost use Rattle.std.specs.Prelude.{◌≡◌};
ghost use Rattle.command_words.specs.declared.jobs.Refused.TheVariants.{Memory};

use std::alloc::AllocError;

/// What a machine is made of.
#[derive(Clone, Copy, Debug, PartialEq, Eq)]
pub struct Machine<'a> {
    /// The path of the ROM.
    pub rom: &'a str,
    /// The path of the disk.
    pub disk: Option<&'a str>,
    /// The path of the script.
    pub script: Option<&'a str>,
    /// RAM in mebibytes.
    pub ram: u8,
}

/// What `run` is asked for.
#[derive(Clone, Copy, Debug, PartialEq, Eq)]
pub struct RunJob<'a> {
    /// The machine that runs.
    pub machine: Machine<'a>,
    /// How many steps it makes.
    pub steps: u64,
    /// Where RAM is written.
    pub mem: Option<&'a str>,
    /// Where the disk is written.
    pub save: Option<&'a str>,
}

/// What `dis` is asked for.
#[derive(Clone, Copy, Debug, PartialEq, Eq)]
pub struct DisJob<'a> {
    /// The path of the ROM.
    pub rom: &'a str,
    /// The offset of the first line.
    pub from: u32,
    /// How many lines there are at most.
    pub count: u32,
    /// Whether the default is 32 bits.
    pub big: bool,
}

/// What the words ask for, by their first one.
#[derive(Clone, Copy, Debug, PartialEq, Eq)]
pub enum Job<'a> {
    /// A run to its report.
    Run(RunJob<'a>),
    /// A listing of a ROM.
    Dis(DisJob<'a>),
    /// The demo guest of a number.
    Demo(u32),
    /// A machine under commands.
    Monitor(Machine<'a>),
}

/// Why words give no job.
#[derive(Clone, Copy, Debug, PartialEq, Eq)]
pub enum Refused {
    /// The words ask for nothing that there is.
    Usage,
    /// Memory was wanting.
    Memory,
}

impl From<AllocError> for Refused {
    ghost from_gives = { λ _ e. e ≡ Memory };

    fn from(_error: AllocError) -> Refused {
        Refused::Memory
    }
}
