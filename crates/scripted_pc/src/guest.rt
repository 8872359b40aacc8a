//! A machine with the events of its script.

ghost use Rattle.std.specs.Prelude.{◌≡◌};
ghost use Rattle.mdl_text.specs.Script.{RisesFrom};
ghost use Rattle.pc_machine.specs.Runs.{RanFor};

use mdl_state::{Activity, Event, Regs};
use monitor::Target;
use pc_machine::Pc;
use std::marker::Model;

/// A machine with its script. The events up to its count of steps were applied.
#[derive(Drop)]
pub struct Guest {
    pc: Pc,
    events: Vec<Event>,
    /// How many of them were applied.
    applied: usize,
}

impl Model for Guest {
    ghost use Rattle.std.specs.Coded.{codes};
    ghost use Rattle.mdl_state.specs.Codes.{mem_code};
    ghost use Rattle.scripted_pc.specs.Played.{Played, IsPlayed};

    ghost Value = { Played };

    ghost coded = { Prim.hlevel (codes, mem_code) };

    ghost view = { λ g. record { machine = g.pc; events = g.events.items; applied = g.applied } };

    ghost invariant = { λ g. IsPlayed (record { machine = g.pc; events = g.events.items; applied = g.applied }) };
}

impl Guest {
    /// The machine at power on with its script. The events of the count 0 are applied.
    pub fn new(pc: Pc, events: Vec<Event>) -> Guest
        requires power_on { pc.state.core.steps ≡ 0 }
        requires rises { RisesFrom 0 events.items }
        ensures ran { RanFor events.items 0 pc result.machine }
        ensures count { result.machine.state.core.steps ≡ 0 }
        ensures events { result.events ≡ events.items }
    {
        let mut pc = pc;
        let applied = pc.run(events.as_slice(), 0);
        Guest {
            pc,
            events,
            applied,
        }
    }
}

impl Target for Guest {
    ghost machine = { λ g. g.machine };

    ghost script = { λ g. g.events };

    fn step(&mut self) {
        let to = self.pc.steps() + 1;
        self.advance(to);
    }

    fn advance(&mut self, to: u64) {
        let steps = to - self.pc.steps();
        let applied = self.pc.run(&self.events.as_slice()[self.applied..], steps);
        self.applied += applied;
    }

    fn regs(&self) -> Regs {
        self.pc.regs()
    }

    fn activity(&self) -> Activity {
        self.pc.activity()
    }

    fn steps(&self) -> u64 {
        self.pc.steps()
    }

    fn walks(&self) -> u64 {
        self.pc.walks()
    }

    fn phys_byte(&self, at: u32) -> u8 {
        self.pc.phys_byte(at)
    }

    fn lin_byte(&self, at: u32) -> Option<u8> {
        self.pc.lin_byte(at)
    }

    fn crt(&self, number: u8) -> u8 {
        self.pc.crt(number)
    }
}
