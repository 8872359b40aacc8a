//! The machine, a step and an event of it.

ghost use Rattle.std.specs.Prelude.{◌≡◌, ◌<◌, ◌≤◌, ◌+◌, ◌^◌, true, false};
ghost use Rattle.std.specs.Bool.{OnTrue, OnFalse};
ghost use Rattle.mdl_step.specs.RunLaws.{SomeStep};
ghost use Rattle.mdl_step.specs.Boundary.{Idle};
ghost use Rattle.mdl_step.specs.Step.{row_of};
ghost use Rattle.mdl_step.specs.Computer.{board_rules, run_policy, happens};
ghost use Rattle.cpu_core.specs.Passing.{later};
ghost use Rattle.pc_machine.specs.Settled.{IsSettled};

use board::Board;
use cpu_core::Cpu;
use mdl_state::{Event, EventKind};
use std::marker::Model;
use tlb::Tlb;

/// The processor over its memory and the board.
#[derive(Drop)]
pub struct Pc {
    pub(crate) cpu: Cpu<Tlb, Board>,
}

impl Model for Pc {
    ghost use Rattle.std.specs.Coded.{codes};
    ghost use Rattle.mdl_state.specs.Codes.{mem_code};
    ghost use Rattle.mdl_state.specs.Machine.{Machine};
    ghost use Rattle.mdl_board.specs.Board.{BoardState};
    ghost use Rattle.pc_machine.specs.Settled.{IsSettled};

    ghost Value = { Machine BoardState };

    ghost coded = { Prim.hlevel (codes, mem_code) };

    ghost view = { λ p. p.cpu };

    ghost invariant = { λ p. IsSettled p.cpu };
}

impl Pc {
    /// What always holds between two steps.
    pub fn settled(&self)
        ensures { IsSettled self.now }
    {
        let _ = &self.cpu;
    }

    /// Makes one step.
    #[inline(always)]
    pub fn step(&mut self)
        requires { self.old.state.core.steps < 10 ^ 15 }
        ensures made { SomeStep board_rules run_policy self.old self.new }
        ensures count { self.new.state.core.steps ≡ self.old.state.core.steps + 1 }
    {
        self.cpu.step();
    }

    /// Passes over so many steps at once, where nothing happens in them. Answers whether it did, and
    /// else changes nothing.
    #[inline(always)]
    pub(crate) fn pass(&mut self, steps: u64) -> bool
        requires { self.old.state.core.steps + steps ≤ 10 ^ 15 }
        ensures idle { OnTrue result (row_of board_rules self.old ≡ Idle) }
        ensures settled { IsSettled self.old }
        ensures passed { OnTrue result (self.new ≡ later steps self.old) }
        ensures unchanged { OnFalse result (self.new ≡ self.old) }
    {
        self.cpu.pass(steps)
    }

    /// What happens from outside, now, whatever the event's count is.
    pub fn event(&mut self, event: Event)
        ensures { self.new ≡ happens event.kind self.old }
    {
        match event.kind {
            EventKind::Key(byte) => self.cpu.ports_mut().key(byte),
            EventKind::Pulse(count) => self.cpu.ports_mut().pulses(count),
            EventKind::Nmi => self.cpu.nmi(),
            EventKind::Reset => {
                self.cpu.ports_mut().reset();
                self.cpu.reset();
            }
        }
    }
}
