//! The processor.

ghost use Rattle.std.specs.Prelude.{◌≡◌, ◌<◌, ◌+◌, ◌-◌, ◌^◌, ℕ, [], true, false};
ghost use Rattle.std.specs.Bool.{OnTrue, OnFalse};
ghost use Rattle.mdl_state.specs.declared.Regs.{Regs as Registers};
ghost use Rattle.mdl_state.specs.Accesses.{with_a20};
ghost use Rattle.mdl_state.specs.Bytes.{bit};
ghost use Rattle.mdl_state.specs.declared.Activity.TheVariants.{Running};
ghost use Rattle.mdl_state.specs.Boot.{clear_latches, reset_core};
ghost use Rattle.mdl_state.specs.Machine.{Machine};
ghost use Rattle.mdl_state.specs.Serving.{Passed, by_pick};
ghost use Rattle.mdl_insn.specs.declared.instruction.Insn.{Insn as Instruction};
ghost use Rattle.mdl_cpu.specs.Breakpoints.{data_breakpoints};
ghost use Rattle.mdl_cpu.specs.Causes.{event_cause};
ghost use Rattle.mdl_cpu.specs.SystemFlags.{TF};
ghost use Rattle.mdl_effect.specs.Operands.{PortUse};
ghost use Rattle.mem_iface.specs.Rules.{rules_of};
ghost use Rattle.mdl_step.specs.Boundary as rows;
ghost use Rattle.mdl_step.specs.Delivering.{delivered};
ghost use Rattle.mdl_step.specs.Events.{with_nmi, reset_with};
ghost use Rattle.mdl_step.specs.Step.{EndsBy, activity_after, at_break, at_nmi, at_trap, break_cause, faulted, hold_after, landed, masks, passed_by, resumed};
ghost use Rattle.cpu_core.specs.Plain.{IsPlain, IsReady};
ghost use Rattle.cpu_core.specs.Rows.{told};
ghost use Rattle.cpu_core.specs.Turns.{Executed, Takes};

use crate::between::Between;
use crate::boundary::{Row, activity_after};
use crate::causes::{
    DEBUG, NON_MASKABLE, activity_at, break_cause, event_cause, pending_after, pending_at,
    soft_cause,
};
use crate::code::Code;
use crate::decoding::{decode, decode_far};
use crate::execute::{execute, is_traced, land, latch};
use crate::reset::{clear_latches, reset_regs};
use crate::usual::execute_usual;
use arrayvec::ArrayVec;
use debug_regs::{Watched, data_breakpoints};
use fault_delivery::{Cause, fault_cause, note_address};
use insn_decode::blank;
use lazy_flags::Flags;
use mdl_insn::{Insn, Op};
use mdl_state::{Activity, Fault, Latches, Next, Regs};
use mem_iface::{Linear, Ports};
use std::marker::Model;

/// The processor over a memory and over ports, seen as the machine with the ports as its board.
///
/// The status flags are kept apart from EFLAGS, and `insn` is the place of the instruction that is
/// decoded. Between two steps the registers are sound, and memory pages as they say; nothing is held, no
/// items are left, and no breakpoint is looked for.
#[derive(Drop)]
pub struct Cpu<L: Linear, P: Ports> {
    pub(crate) regs: Regs,
    pub(crate) flags: Flags,
    pub(crate) between: Between,
    pub(crate) steps: u64,
    pub(crate) code: Watched<Code<L>>,
    pub(crate) ports: P,
    pub(crate) insn: Insn,
}

impl<L: Linear, P: Ports> Model for Cpu<L, P> {
    ghost use Rattle.std.specs.Coded.{codes};
    ghost use Rattle.mdl_state.specs.Codes.{mem_code};
    ghost use Rattle.mdl_state.specs.Machine.{Machine};
    ghost use Rattle.mdl_state.specs.Watches.{watching};
    ghost use Rattle.operands.specs.Whole.{whole};
    ghost use Rattle.cpu_core.specs.Plain.{IsReady};

    ghost Value = { Machine P };

    ghost coded = { Prim.hlevel (codes, mem_code, P.code) };

    ghost view = { λ p. record {
      state = record {
        core = record { regs = whole p.regs p.flags; activity = p.between.activity; latches = p.between.latches; steps = p.steps };
        mem = watching (L.seen p.code.inside.lin) p.code.watch.items p.code.hits;
      };
      board = p.ports;
    } };

    ghost invariant = { λ p. IsReady (whole p.regs p.flags) (watching (L.seen p.code.inside.lin) p.code.watch.items p.code.hits) };
}

impl<L: Linear, P: Ports> Cpu<L, P> {
    /// The processor after a reset, before its first step.
    #[tactic(auto, unfolding(lazy_flags::specs::Keeper::with_status, lazy_flags::specs::Keeper::kept, lazy_flags::specs::Keeper::left, lazy_flags::specs::Keeper::operation_status, mdl_num::specs::Flags::flags_after, mdl_num::specs::Flags::is_set, mdl_num::specs::Flags::with_bit))]
    pub fn new(lin: L, ports: P) -> Cpu<L, P>
        requires plain { IsPlain (L.seen lin) }
        ensures core { result.state.core ≡ reset_core }
        ensures memory { result.state.mem ≡ L.seen lin }
        ensures board { result.board ≡ ports }
    {
        let regs = reset_regs();
        Cpu {
            regs,
            flags: Flags::unpack(regs.eflags),
            between: Between::new(Activity::Running, clear_latches()),
            steps: 0,
            code: Watched::new(Code::new(lin)),
            ports,
            insn: blank(),
        }
    }

    /// The processor in a given state, before its next step.
    #[tactic(auto, using(crate::proofs::Families::whole_unpacked))]
    pub fn start_at(lin: L, ports: P, regs: Regs, activity: Activity, latches: Latches) -> Cpu<L, P>
        requires ready { IsReady regs (L.seen lin) }
        ensures core { result.state.core ≡ record { regs = regs; activity = activity; latches = latches; steps = 0 } }
        ensures memory { result.state.mem ≡ L.seen lin }
        ensures board { result.board ≡ ports }
    {
        Cpu {
            regs,
            flags: Flags::unpack(regs.eflags),
            between: Between::new(activity, latches),
            steps: 0,
            code: Watched::new(Code::new(lin)),
            ports,
            insn: blank(),
        }
    }

    /// Delivers a cause.
    fn deliver(&mut self, cause: Cause)
        ensures delivered { delivered (by_pick L.pick) cause self.old.state.core self.old.state.mem ≡ (Passed self.new.state.core, self.new.state.mem) }
        ensures board { self.new.board ≡ self.old.board }
        ensures steps { self.new.state.core.steps ≡ self.old.state.core.steps }
        ensures served { self.new.state.mem.served ≡ [] }
        ensures a20 { self.new.state.mem.physical.a20 ≡ self.old.state.mem.physical.a20 }
    {
        self.regs.eflags = self.flags.pack(self.regs.eflags);
        let delivered = fault_delivery::deliver(&mut self.regs, &mut self.code, cause);
        self.flags = Flags::unpack(self.regs.eflags);
        let mut latches = self.between.latches;
        latches.pending = pending_at(delivered, latches.pending);
        self.between = Between::new(activity_at(delivered), latches);
    }

    /// Nothing is held back any more.
    fn release(&mut self)
        ensures core { self.new.state.core ≡ record self.old.state.core { latches = record self.old.state.core.latches { hold = 0 } } }
        ensures memory { self.new.state.mem ≡ self.old.state.mem }
        ensures board { self.new.board ≡ self.old.board }
    {
        let mut latches = self.between.latches;
        latches.hold = 0;
        self.between = Between::new(self.between.activity, latches);
    }

    /// Delivers the fault of the instruction at CS:EIP. What was held back no longer is.
    fn fault(&mut self, fault: Fault)
        ensures faulted { faulted (by_pick L.pick) self.old.state.core fault self.old.state.mem ≡ (Passed self.new.state.core, self.new.state.mem) }
        ensures board { self.new.board ≡ self.old.board }
        ensures steps { self.new.state.core.steps ≡ self.old.state.core.steps }
        ensures served { self.new.state.mem.served ≡ [] }
        ensures a20 { self.new.state.mem.physical.a20 ≡ self.old.state.mem.physical.a20 }
    {
        let cause = fault_cause(&self.regs, fault);
        note_address(&mut self.regs, fault);
        self.release();
        self.deliver(cause);
    }

    /// What an instruction leaves of the processor that has these registers behind it.
    fn land(&mut self, op: Op, next: Next, back: u32)
        ensures core { self.new.state.core ≡ record self.old.state.core {
          regs = resumed op next (landed next self.old.state.core.regs back);
          activity = activity_after next;
          latches = record self.old.state.core.latches { masked = masks op self.old.state.core.latches.masked; hold = hold_after next };
        } }
        ensures memory { self.new.state.mem ≡ self.old.state.mem }
        ensures board { self.new.board ≡ self.old.board }
    {
        land(&mut self.regs, op, next, back);
        let mut latches = self.between.latches;
        latch(&mut latches, op, next);
        self.between = Between::new(activity_after(next), latches);
    }

    /// What follows an instruction that passed: a software interrupt is delivered, and a trap is pending.
    /// `traced` tells whether TF was 1 as it began, `hits` are the bits of the data breakpoints that it
    /// met.
    #[inline(never)]
    fn complete_with(&mut self, op: Op, next: Next, back: u32, traced: bool, hits: u16)
        requires served { self.old.state.mem.served ≡ [] }
        ensures made { (insn : Instruction) (old : Registers) (access : PortUse) → insn.op ≡ op → bit old.eflags TF ≡ traced →
            passed_by next (by_pick L.pick) (record self.old.state.core { regs = old }) insn (record { regs = self.old.state.core.regs; next = next; access = access }) back hits self.old.state.mem
            ≡ (Passed self.new.state.core, self.new.state.mem) }
        ensures board { self.new.board ≡ self.old.board }
        ensures steps { self.new.state.core.steps ≡ self.old.state.core.steps }
        ensures served { self.new.state.mem.served ≡ [] }
        ensures a20 { self.new.state.mem.physical.a20 ≡ self.old.state.mem.physical.a20 }
    {
        self.land(op, next, back);
        let mut latches = self.between.latches;
        latches.pending = pending_after(next, traced, hits, latches.pending);
        self.between = Between::new(self.between.activity, latches);
        if let Next::Soft(vector) = next {
            self.deliver(soft_cause(vector, back));
        }
    }

    /// Executes the instruction at CS:EIP, or delivers its fault, where TF is 0, no data breakpoint is
    /// enabled and nothing waits. Answers whether a port may have been written.
    #[inline(always)]
    pub(crate) fn execute(&mut self) -> bool
        requires data { data_breakpoints self.old.state.core.regs ≡ [] }
        requires untraced { bit self.old.state.core.regs.eflags TF ≡ false }
        requires runs { self.old.state.core.activity ≡ Running }
        requires clear { self.old.state.core.latches ≡ clear_latches }
        ensures executed { Executed (rules_of P.Ports) L.pick self.old self.new }
        ensures steps { self.new.state.core.steps ≡ self.old.state.core.steps }
        ensures served { self.new.state.mem.served ≡ [] }
        ensures a20 { self.new.state.mem.physical.a20 ≡ self.old.state.mem.physical.a20 }
        ensures board { OnFalse result (self.new.board ≡ self.old.board) }
    {
        let count = match decode(&mut self.code.inside, &self.regs, &mut self.insn) {
            Ok(count) => count,
            Err(fault) => {
                self.fault(fault);
                return false;
            }
        };
        let back = self.regs.eip.wrapping_add(count as u32);
        let ended = execute_usual(
            &mut self.regs,
            &mut self.flags,
            &mut self.code.inside,
            &mut self.ports,
            &self.insn,
            back,
        );
        if ended.usual {
            return false;
        }
        match ended.rest {
            Ok(ran) => {
                let op = self.insn.op;
                self.complete_with(op, ran.next, back, false, 0);
                !ran.alone
            }
            Err(fault) => {
                self.fault(fault);
                false
            }
        }
    }

    /// The same in every case: data breakpoints are looked for while the instruction runs. A fault drops
    /// those that it met.
    #[inline(never)]
    pub(crate) fn execute_watched(&mut self) -> bool
        ensures executed { Executed (rules_of P.Ports) L.pick self.old self.new }
        ensures steps { self.new.state.core.steps ≡ self.old.state.core.steps }
        ensures served { self.new.state.mem.served ≡ [] }
        ensures a20 { self.new.state.mem.physical.a20 ≡ self.old.state.mem.physical.a20 }
        ensures board { OnFalse result (self.new.board ≡ self.old.board) }
    {
        let count = match decode_far(&mut self.code.inside, &self.regs, &mut self.insn) {
            Ok(count) => count,
            Err(fault) => {
                self.fault(fault);
                return false;
            }
        };
        let back = self.regs.eip.wrapping_add(count as u32);
        let traced = is_traced(&self.regs);
        self.code.look_for(data_breakpoints(&self.regs));
        let answer = execute(
            &mut self.regs,
            &mut self.flags,
            &mut self.code,
            &mut self.ports,
            &self.insn,
            back,
        );
        let hits = self.code.hits;
        self.code.look_for(ArrayVec::new());
        match answer {
            Ok(ran) => {
                let op = self.insn.op;
                self.complete_with(op, ran.next, back, traced, hits);
                !ran.alone
            }
            Err(fault) => {
                self.fault(fault);
                false
            }
        }
    }

    /// Delivers the debug trap that is pending.
    fn trap(&mut self)
        ensures delivered { delivered (by_pick L.pick) (event_cause self.old.state.core.regs 1) (at_trap self.old.state.core) self.old.state.mem
            ≡ (Passed self.new.state.core, self.new.state.mem) }
        ensures board { self.new.board ≡ self.old.board }
        ensures steps { self.new.state.core.steps ≡ self.old.state.core.steps }
        ensures served { self.new.state.mem.served ≡ [] }
        ensures a20 { self.new.state.mem.physical.a20 ≡ self.old.state.mem.physical.a20 }
    {
        let cause = event_cause(&self.regs, DEBUG);
        let mut latches = self.between.latches;
        self.regs.dr6 |= latches.pending as u32;
        latches.pending = 0;
        self.between = Between::new(self.between.activity, latches);
        self.deliver(cause);
    }

    /// Delivers the fault of the breakpoints at CS:EIP, with these bits of DR6. What was held back no longer
    /// is.
    fn meet(&mut self, hits: u32)
        ensures delivered { delivered (by_pick L.pick) (break_cause self.old.state.core.regs) (at_break self.old.state.core hits) self.old.state.mem
            ≡ (Passed self.new.state.core, self.new.state.mem) }
        ensures board { self.new.board ≡ self.old.board }
        ensures steps { self.new.state.core.steps ≡ self.old.state.core.steps }
        ensures served { self.new.state.mem.served ≡ [] }
        ensures a20 { self.new.state.mem.physical.a20 ≡ self.old.state.mem.physical.a20 }
    {
        let cause = break_cause(&self.regs);
        self.regs.dr6 |= hits;
        self.release();
        self.deliver(cause);
    }

    /// Delivers the NMI that waits, and masks others.
    fn take_nmi(&mut self)
        ensures delivered { delivered (by_pick L.pick) (event_cause self.old.state.core.regs 2) (at_nmi self.old.state.core) self.old.state.mem
            ≡ (Passed self.new.state.core, self.new.state.mem) }
        ensures board { self.new.board ≡ self.old.board }
        ensures steps { self.new.state.core.steps ≡ self.old.state.core.steps }
        ensures served { self.new.state.mem.served ≡ [] }
        ensures a20 { self.new.state.mem.physical.a20 ≡ self.old.state.mem.physical.a20 }
    {
        let cause = event_cause(&self.regs, NON_MASKABLE);
        let mut latches = self.between.latches;
        latches.nmi = false;
        latches.masked = true;
        self.between = Between::new(self.between.activity, latches);
        self.deliver(cause);
    }

    /// Acknowledges the interrupt that the board wants, and delivers its vector.
    fn interrupt(&mut self)
        requires wants { P.wants self.old.board ≡ true }
        ensures delivered { (vector : ℕ) × P.tells self.old.board vector self.new.board
            × (delivered (by_pick L.pick) (event_cause self.old.state.core.regs vector) self.old.state.core self.old.state.mem ≡ (Passed self.new.state.core, self.new.state.mem)) }
        ensures gate { P.gate self.new.board ≡ P.gate self.old.board }
        ensures steps { self.new.state.core.steps ≡ self.old.state.core.steps }
        ensures served { self.new.state.mem.served ≡ [] }
        ensures a20 { self.new.state.mem.physical.a20 ≡ self.old.state.mem.physical.a20 }
    {
        let vector = self.ports.acknowledge();
        let cause = event_cause(&self.regs, vector);
        self.deliver(cause);
    }

    /// Takes a row of the boundary in which no instruction is executed.
    pub(crate) fn take(&mut self, row: Row)
        requires busy { told row ≡ rows.Idle → ⊥ }
        requires event { told row ≡ rows.Execute → ⊥ }
        requires wants { told row ≡ rows.Line → P.wants self.old.board ≡ true }
        ensures taken { Takes (told row) (rules_of P.Ports) L.pick self.old self.new }
        ensures steps { self.new.state.core.steps ≡ self.old.state.core.steps }
        ensures served { self.new.state.mem.served ≡ [] }
        ensures a20 { self.new.state.mem.physical.a20 ≡ self.old.state.mem.physical.a20 }
        ensures gate { P.gate self.new.board ≡ P.gate self.old.board }
    {
        match row {
            Row::Line => self.interrupt(),
            Row::Nmi => self.take_nmi(),
            Row::Trap => self.trap(),
            Row::Break(hits) => self.meet(hits),
            Row::Idle | Row::Execute => unreachable!(),
        }
    }

    /// Sets the line A20 as the ports have it, where one may have been written.
    #[inline(always)]
    fn settle_gate(&mut self, wrote: bool)
        requires a20 { OnFalse wrote (P.gate self.old.board ≡ self.old.state.mem.physical.a20) }
        ensures core { self.new.state.core ≡ self.old.state.core }
        ensures memory { self.new.state.mem ≡ with_a20 (P.gate self.old.board) self.old.state.mem }
        ensures board { self.new.board ≡ self.old.board }
    {
        if wrote {
            self.code.inside.lin.set_a20(self.ports.a20());
        }
    }

    /// Counts a step, and makes the reset that the ports ask for.
    #[inline(always)]
    pub(crate) fn finish(&mut self, wrote: bool)
        requires steps { self.old.state.core.steps < 2 ^ 64 - 1 }
        requires a20 { OnFalse wrote (P.gate self.old.board ≡ self.old.state.mem.physical.a20) }
        ensures ends { EndsBy (P.asks self.old.board) (rules_of P.Ports) self.old self.new }
        ensures count { self.new.state.core.steps ≡ self.old.state.core.steps + 1 }
        ensures a20 { P.gate self.new.board ≡ self.new.state.mem.physical.a20 }
    {
        self.settle_gate(wrote);
        self.steps += 1;
        if self.ports.take_reset() {
            self.reset();
        }
    }

    /// Resets the processor. Memory, the ports and the count of steps stay; the line A20 is then as the
    /// ports have it. Manual, chapter 10.
    #[tactic(auto, unfolding(lazy_flags::specs::Keeper::with_status, lazy_flags::specs::Keeper::kept, lazy_flags::specs::Keeper::left, lazy_flags::specs::Keeper::operation_status, mdl_num::specs::Flags::flags_after, mdl_num::specs::Flags::is_set, mdl_num::specs::Flags::with_bit))]
    pub fn reset(&mut self)
        ensures { self.new ≡ reset_with (rules_of P.Ports) self.old.board self.old }
    {
        self.regs = reset_regs();
        self.flags = Flags::unpack(self.regs.eflags);
        self.between = Between::new(Activity::Running, clear_latches());
        self.code.set_paging(false);
        self.code.load_cr3(0);
        self.code.set_a20(self.ports.a20());
    }

    /// Latches a non-maskable interrupt. Manual, chapter 9.
    pub fn nmi(&mut self)
        ensures state { self.new.state ≡ with_nmi self.old.state }
        ensures board { self.new.board ≡ self.old.board }
    {
        let mut latches = self.between.latches;
        latches.nmi = true;
        self.between = Between::new(self.between.activity, latches);
    }
}
