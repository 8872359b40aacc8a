//! How a command ends.

ghost use Rattle.std.specs.Prelude.{◌≡◌};
ghost use Rattle.std.specs.Process.{exit_status};
ghost use Rattle.m386.specs.Refusals.{number_of};

use std::process::ExitCode;

/// How a command ended.
#[derive(Clone, Copy, Debug, PartialEq, Eq)]
pub enum Status {
    /// All was done.
    Done,
    /// Memory was wanting, and no output has grown.
    Memory,
    /// The words ask for no command that is there.
    Usage,
    /// A call of the host failed.
    HostFault,
    /// An image, or the script, has no length of one.
    Image,
    /// The script has a bad line.
    Script,
}

impl Status {
    /// The number with which the program ends.
    pub fn number(self) -> u8
        ensures { result ≡ number_of self }
    {
        match self {
            Status::Done => 0,
            Status::Memory => 1,
            Status::Usage => 2,
            Status::HostFault => 3,
            Status::Image => 4,
            Status::Script => 5,
        }
    }

    /// The program's end with that number.
    pub(crate) fn code(self) -> ExitCode
        ensures { exit_status result ≡ number_of self }
    {
        ExitCode::from(self.number())
    }
}
