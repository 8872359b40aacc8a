//! The machine of a report.

ghost use Rattle.std.specs.Prelude.{◌≡◌};
ghost use Rattle.mdl_dev.specs.Screen.{Screen, register_of};
ghost use Rattle.mdl_state.specs.State.{State};
ghost use Rattle.mdl_state.specs.Memory.{byte_at};

use mdl_state::{Activity, Regs};

/// A machine that can be looked at.
pub trait Shown {
    /// The processor with its memory.
    ghost state: { Self → State };

    /// The screen registers.
    ghost screen: { Self → Screen };

    fn regs(&self) -> Regs
        ensures { result ≡ (state self.now).core.regs };

    fn activity(&self) -> Activity
        ensures { result ≡ (state self.now).core.activity };

    /// How many steps were made.
    fn steps(&self) -> u64
        ensures { result ≡ (state self.now).core.steps };

    /// How many walks of the page tables were made.
    fn walks(&self) -> u64
        ensures { result ≡ (state self.now).mem.walks };

    /// The byte at a physical address.
    fn byte_at(&self, at: u32) -> u8
        ensures { result ≡ byte_at (state self.now).mem.physical at };

    /// The screen register of a number.
    fn screen_register(&self, number: u8) -> u8
        ensures { result ≡ register_of (screen self.now) number };
}
