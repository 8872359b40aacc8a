//! Steps, and passing over those in which nothing happens. Manual, chapters 9 and 10.

ghost use Rattle.std.specs.Prelude.{◌≡◌, ◌<◌, ◌+◌, ◌-◌, ◌^◌, [], true, false};
ghost use Rattle.std.specs.Bool.{OnTrue, OnFalse};
ghost use Rattle.mdl_state.specs.declared.Activity.TheVariants.{Running};
ghost use Rattle.mdl_state.specs.Boot.{clear_latches};
ghost use Rattle.mdl_state.specs.Bytes.{bit};
ghost use Rattle.mdl_state.specs.Choices.{Meets};
ghost use Rattle.mdl_state.specs.Serving.{Policy};
ghost use Rattle.mdl_cpu.specs.Breakpoints.{data_breakpoints};
ghost use Rattle.mdl_cpu.specs.SystemFlags.{TF};
ghost use Rattle.mem_iface.specs.Rules.{rules_of};
ghost use Rattle.mdl_step.specs.Boundary as rows;
ghost use Rattle.mdl_step.specs.RunLaws.{SomeStep};
ghost use Rattle.mdl_step.specs.Step.{row_of};
ghost use Rattle.cpu_core.specs.Passing.{later};
ghost use Rattle.cpu_core.specs.Rows.{told};
ghost use Rattle.cpu_core.specs.Turns.{Makes};

use crate::boundary::{Row, boundary, hits_here, is_execution, is_idle, lets_in};
use crate::cpu::Cpu;
use crate::execute::is_traced;
use debug_regs::is_any_enabled;
use mdl_state::Activity;
use mem_iface::{Linear, Ports};

impl<L: Linear, P: Ports> Cpu<L, P> {
    /// Whether the next step executes an instruction with TF 0 and no breakpoint enabled, by one look at
    /// what could come before it.
    #[inline(always)]
    fn is_usual(&self) -> bool
        ensures data { OnTrue result (data_breakpoints self.now.state.core.regs ≡ []) }
        ensures untraced { OnTrue result (bit self.now.state.core.regs.eflags TF ≡ false) }
        ensures runs { OnTrue result (self.now.state.core.activity ≡ Running) }
        ensures clear { OnTrue result (self.now.state.core.latches ≡ clear_latches) }
        ensures executes { OnTrue result (row_of (rules_of P.Ports) self.now ≡ rows.Execute) }
    {
        if !self.between.is_calm() {
            return false;
        }
        if is_any_enabled(&self.regs) {
            return false;
        }
        if is_traced(&self.regs) {
            return false;
        }
        if lets_in(&self.regs) {
            return !self.ports.wants_interrupt();
        }
        true
    }

    /// The row of the next step.
    #[inline(never)]
    fn row(&self) -> Row
        ensures { told result ≡ row_of (rules_of P.Ports) self.now }
    {
        let wants = self.ports.wants_interrupt();
        let hits = hits_here(&self.regs);
        boundary(
            self.between.activity,
            wants,
            hits,
            &self.regs,
            &self.between.latches,
        )
    }

    /// Makes the next step in every case.
    #[inline(never)]
    fn divert(&mut self)
        requires steps { self.old.state.core.steps < 2 ^ 64 - 1 }
        requires a20 { P.gate self.old.board ≡ self.old.state.mem.physical.a20 }
        ensures { Makes (rules_of P.Ports) L.pick self.old self.new }
    {
        let next = self.row();
        if is_idle(next) {
            self.finish(false);
            return;
        }
        if is_execution(next) {
            let wrote = self.execute_watched();
            self.finish(wrote);
            return;
        }
        self.take(next);
        self.finish(false);
    }

    /// Makes a step of the written machine, for some choice whose items meet each policy that those of
    /// the memory meet.
    ///
    /// The line A20 of the memory is that of the ports, before it and behind it.
    #[inline(always)]
    pub fn step(&mut self)
        requires steps { self.old.state.core.steps < 2 ^ 64 - 1 }
        requires a20 { P.gate self.old.board ≡ self.old.state.mem.physical.a20 }
        ensures made { (policy : Policy) → Meets L.pick policy → SomeStep (rules_of P.Ports) policy self.old self.new }
        ensures count { self.new.state.core.steps ≡ self.old.state.core.steps + 1 }
        ensures a20 { P.gate self.new.board ≡ self.new.state.mem.physical.a20 }
    {
        if self.is_usual() {
            let wrote = self.execute();
            self.finish(wrote);
            return;
        }
        self.divert();
    }

    /// Passes over so many steps at once, where nothing happens in the next one, and so in none of them
    /// as long as nothing comes from outside. Answers whether it did.
    #[inline(never)]
    fn idle(&mut self, steps: u64) -> bool
        requires steps { self.old.state.core.steps + steps < 2 ^ 64 }
        ensures idle { OnTrue result (row_of (rules_of P.Ports) self.old ≡ rows.Idle) }
        ensures passed { OnTrue result (self.new ≡ later steps self.old) }
        ensures unchanged { OnFalse result (self.new ≡ self.old) }
    {
        let next = self.row();
        if is_idle(next) {
            self.steps += steps;
            return true;
        }
        false
    }

    /// The same, with the test for a processor that runs in line.
    #[inline(always)]
    pub fn pass(&mut self, steps: u64) -> bool
        requires steps { self.old.state.core.steps + steps < 2 ^ 64 }
        ensures idle { OnTrue result (row_of (rules_of P.Ports) self.old ≡ rows.Idle) }
        ensures passed { OnTrue result (self.new ≡ later steps self.old) }
        ensures unchanged { OnFalse result (self.new ≡ self.old) }
    {
        if let Activity::Running = self.between.activity {
            return false;
        }
        self.idle(steps)
    }
}
