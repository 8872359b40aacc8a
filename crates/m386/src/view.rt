//! The machine as its report shows it.

ghost use Rattle.std.specs.Prelude.{◌≡◌};

use mdl_state::{Activity, Regs};
use pc_machine::Pc;
use reports::Shown;

/// A machine to look at.
#[derive(Drop)]
pub(crate) struct View<'a> {
    pub(crate) pc: &'a Pc,
}

impl<'a> Shown for View<'a> {
    ghost state = { λ v. v.pc.now.state };

    ghost screen = { λ v. v.pc.now.board.screen };

    fn regs(&self) -> Regs {
        self.pc.regs()
    }

    fn activity(&self) -> Activity {
        self.pc.activity()
    }

    fn steps(&self) -> u64 {
        self.pc.steps()
    }

    fn walks(&self) -> u64 {
        self.pc.walks()
    }

    fn byte_at(&self, at: u32) -> u8 {
        self.pc.phys_byte(at)
    }

    fn screen_register(&self, number: u8) -> u8 {
        self.pc.crt(number)
    }
}
