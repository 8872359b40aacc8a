//! One instruction: what it leaves, or its fault.

ghost use Rattle.std.specs.Prelude.{◌≡◌, ℕ, Bool, true, false, List, IfOk, IfErr, OnErr};
ghost use Rattle.std.specs.Bool.{OnTrue};
ghost use Rattle.mdl_insn.specs.Spelling.{Spelt};
ghost use Rattle.mdl_state.specs.declared.Regs.{Regs as Registers};
ghost use Rattle.mdl_state.specs.State.{Mem};
ghost use Rattle.mdl_cpu.specs.SystemFlags.{TF};
ghost use Rattle.mdl_state.specs.Bytes.{bit};
ghost use Rattle.mem_iface.specs.Rules.{rules_of};
ghost use Rattle.mdl_step.specs.Step.{hold_after, keeps_resume, landed, resumed, masks, with_control, remapped};
ghost use Rattle.operands.specs.Whole.{whole};
ghost use Rattle.cpu_core.specs.Executing.{Passes, Faults};
ghost use Rattle.cpu_core.specs.Plain.{IsSettled};

use crate::boundary::{RESUME, has, hold_after};
use crate::dispatch::{Ran, run_any};
use lazy_flags::Flags;
use mdl_insn::{Insn, Op, Operand};
use mdl_num::with_bit;
use mdl_state::{Fault, Latches, Next, Regs};
use mem_iface::{Linear, Ports};

/// The number of PG in CR0.
const PAGING: u8 = 31;

/// The number of TF in EFLAGS.
const TRAP: u8 = 8;

/// Whether TF asks for a trap behind the next instruction.
#[tactic(auto, using(crate::proofs::Modes::modes))]
#[inline(always)]
pub(crate) fn is_traced(regs: &Regs) -> bool
    ensures { (flags : ℕ) → result ≡ bit (whole regs.now flags).eflags TF }
{
    has(regs.eflags, TRAP)
}

/// Loads what memory goes by of a control register.
fn load_control<L: Linear>(lin: &mut L, number: u8, regs: &Regs)
    ensures { (flags : ℕ) → L.seen lin.new ≡ with_control number (whole regs.now flags) (L.seen lin.old) }
{
    if number == 0 {
        lin.set_paging(has(regs.cr0, PAGING));
    } else if number == 3 {
        lin.load_cr3(regs.cr3);
    }
}

/// Memory behind an instruction that did not stand alone: a MOV to a control register loads that.
fn remap<L: Linear>(lin: &mut L, insn: &Insn, regs: &Regs)
    ensures { (flags : ℕ) → L.seen lin.new ≡ remapped insn.now.op insn.now.a (whole regs.now flags) (L.seen lin.old) }
{
    if let Op::Mov = insn.op {
        if let Operand::Creg(number) = insn.a {
            load_control(lin, number, regs);
        }
    }
}

/// Memory behind an instruction.
#[inline(always)]
fn settle<L: Linear>(lin: &mut L, insn: &Insn, regs: &Regs, alone: bool)
    requires alone { OnTrue alone ((r : Registers) (m : Mem) → remapped insn.now.op insn.now.a r m ≡ m) }
    ensures { (flags : ℕ) → L.seen lin.new ≡ remapped insn.now.op insn.now.a (whole regs.now flags) (L.seen lin.old) }
{
    if !alone {
        remap(lin, insn, regs);
    }
}

/// Runs an instruction: what it leaves is placed, or it faults, in the task whose registers are then
/// left. `back` is the EIP behind it.
#[inline(never)]
pub(crate) fn execute<L: Linear, P: Ports>(
    regs: &mut Regs,
    flags: &mut Flags,
    lin: &mut L,
    ports: &mut P,
    insn: &Insn,
    back: u32,
) -> Result<Ran, Fault>
    requires spelt { (bytes : List ℕ) × (big : Bool) × Spelt bytes big insn.now }
    requires ready { IsSettled (whole regs.old flags.old) (L.seen lin.old) }
    ensures passes { IfOk result (λ ran. Passes (rules_of P.Ports) L.pick insn.now (whole regs.old flags.old) back (L.seen lin.old) ports.old
        (whole regs.new flags.new) ran.next (L.seen lin.new) ports.new) }
    ensures alone { IfOk result (λ ran. OnTrue ran.alone (ports.new ≡ ports.old)) }
    ensures faults { IfErr result (λ fault. Faults L.pick insn.now (whole regs.old flags.old) back (L.seen lin.old) fault (whole regs.new flags.new) (L.seen lin.new)) }
    ensures board { OnErr result (ports.new ≡ ports.old) }
    ensures ready { IsSettled (whole regs.new flags.new) (L.seen lin.new) }
    ensures a20 { (L.seen lin.new).physical.a20 ≡ (L.seen lin.old).physical.a20 }
{
    match run_any(regs, flags, lin, ports, insn, back) {
        Ok(ran) => {
            lin.commit();
            settle(lin, insn, regs, ran.alone);
            Ok(ran)
        }
        Err(fault) => {
            lin.discard();
            Err(fault)
        }
    }
}

/// Whether an instruction leaves RF as it is.
#[inline(always)]
fn keeps_resume(op: Op, next: Next) -> bool
    ensures { result ≡ keeps_resume op next }
{
    match op {
        Op::Iret | Op::Popf => true,
        _ => match next {
            Next::Again | Next::Soft(_) | Next::Task(_) => true,
            _ => false,
        },
    }
}

/// Clears RF behind an instruction, unless that leaves it. It is 1 behind few.
#[inline(always)]
#[tactic(auto, using(crate::proofs::Resumed::resumes))]
fn resume(regs: &mut Regs, op: Op, next: Next)
    ensures { (flags : ℕ) → whole regs.new flags ≡ resumed op next (whole regs.old flags) }
{
    if has(regs.eflags, RESUME) && !keeps_resume(op, next) {
        regs.eflags = with_bit(regs.eflags, RESUME, false);
    }
}

/// Puts EIP behind an instruction, unless that set it or goes on, and clears RF.
#[inline(always)]
pub(crate) fn land(regs: &mut Regs, op: Op, next: Next, back: u32)
    ensures { (flags : ℕ) → whole regs.new flags ≡ resumed op next (landed next (whole regs.old flags) back) }
{
    match next {
        Next::Landed | Next::Again | Next::Soft(_) | Next::Task(_) => resume(regs, op, next),
        _ => {
            regs.eip = back;
            resume(regs, op, next);
        }
    }
}

/// Whether NMIs that are masked stay so behind an instruction: IRET lets them in again.
#[inline(always)]
fn masks(op: Op) -> bool
    ensures { result ≡ masks op true }
{
    match op {
        Op::Iret => false,
        _ => true,
    }
}

/// What is masked and held back behind an instruction.
#[inline(always)]
pub(crate) fn latch(latches: &mut Latches, op: Op, next: Next)
    ensures { latches.new ≡ record latches.old { masked = masks op latches.old.masked; hold = hold_after next } }
{
    latches.hold = hold_after(next);
    if latches.masked {
        latches.masked = masks(op);
    }
}
