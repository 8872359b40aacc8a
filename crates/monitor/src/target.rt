//! The machine of a session, which steps with the events of its script.

ghost use Rattle.std.specs.Prelude.{◌≡◌, ◌≤◌, ◌<◌, ◌+◌, ◌-◌, ◌^◌, List};
ghost use Rattle.mdl_board.specs.Board.{BoardState};
ghost use Rattle.mdl_dev.specs.Screen.{register_of};
ghost use Rattle.mdl_state.specs.declared.Event.{Event};
ghost use Rattle.mdl_state.specs.Machine.{Machine};
ghost use Rattle.mdl_state.specs.Memory.{byte_at};
ghost use Rattle.mdl_step.specs.Computer.{linear_byte};
ghost use Rattle.monitor.specs.Moves.{Makes};

use mdl_state::{Activity, Regs};
use reports::Shown;

/// A machine that can be stepped and looked at. The events of the count at which it stands were
/// applied.
pub trait Target {
    /// The machine.
    ghost machine: { Self → Machine BoardState };

    /// The events of its script.
    ghost script: { Self → List Event };

    /// Makes one step.
    fn step(&mut self)
        requires { (machine self.old).state.core.steps < 10 ^ 15 }
        ensures made { Makes (script self.old) 1 (machine self.old) (machine self.new) }
        ensures count { (machine self.new).state.core.steps ≡ (machine self.old).state.core.steps + 1 }
        ensures script { script self.new ≡ script self.old };

    /// Makes steps up to this count of them.
    fn advance(&mut self, to: u64)
        requires from { (machine self.old).state.core.steps ≤ to }
        requires most { to ≤ 10 ^ 15 }
        ensures made { Makes (script self.old) (to - (machine self.old).state.core.steps) (machine self.old) (machine self.new) }
        ensures count { (machine self.new).state.core.steps ≡ to }
        ensures script { script self.new ≡ script self.old };

    fn regs(&self) -> Regs
        ensures { result ≡ (machine self.now).state.core.regs };

    fn activity(&self) -> Activity
        ensures { result ≡ (machine self.now).state.core.activity };

    /// How many steps were made.
    fn steps(&self) -> u64
        ensures { result ≡ (machine self.now).state.core.steps };

    /// How many walks of the page tables were made.
    fn walks(&self) -> u64
        ensures { result ≡ (machine self.now).state.mem.walks };

    /// The byte at a physical address, by the memory map.
    fn phys_byte(&self, at: u32) -> u8
        ensures { result ≡ byte_at (machine self.now).state.mem.physical at };

    /// The byte at a linear address, or none where its page is not there. Nothing is marked.
    fn lin_byte(&self, at: u32) -> Option<u8>
        ensures { result ≡ linear_byte (machine self.now).state.mem at };

    /// The screen register of a number.
    fn crt(&self, number: u8) -> u8
        ensures { result ≡ register_of (machine self.now).board.screen number };
}

/// A target as its report shows it.
#[derive(Drop)]
pub(crate) struct View<'a, T> {
    pub(crate) target: &'a T,
}

impl<'a, T: Target> Shown for View<'a, T> {
    ghost state = { λ v. (T.machine v.target.now).state };

    ghost screen = { λ v. (T.machine v.target.now).board.screen };

    fn regs(&self) -> Regs {
        self.target.regs()
    }

    fn activity(&self) -> Activity {
        self.target.activity()
    }

    fn steps(&self) -> u64 {
        self.target.steps()
    }

    fn walks(&self) -> u64 {
        self.target.walks()
    }

    fn byte_at(&self, at: u32) -> u8 {
        self.target.phys_byte(at)
    }

    fn screen_register(&self, number: u8) -> u8 {
        self.target.crt(number)
    }
}
