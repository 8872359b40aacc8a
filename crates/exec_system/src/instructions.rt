//! One instruction, by its mnemonic.

ghost use Rattle.std.specs.Prelude.{◌≡◌, Bool, List, ℕ, IsTrue, true, false, IfOk, OnErr};
ghost use Rattle.mdl_insn.specs.Spelling.{Spelt};
ghost use Rattle.mdl_state.specs.Serving.{by_pick};
ghost use Rattle.mdl_state.specs.Accesses.{Keeps, HasRoom};
ghost use Rattle.mdl_state.specs.Attempt.{tried};
ghost use Rattle.mdl_cpu.specs.Addresses.{HasAddress};
ghost use Rattle.mdl_cpu.specs.Steady.{IsSound};
ghost use Rattle.mdl_effect.specs.DataEffects.{is_special};
ghost use Rattle.mdl_effect.specs.ProtectionEffects.{is_protected_only};
ghost use Rattle.mdl_effect.specs.SystemEffects.{is_system, is_mov, runs_system, system_effect};
ghost use Rattle.mdl_effect.specs.Operands.{PortUse};
ghost use Rattle.mdl_effect.specs.Ports.{Accesses};
ghost use Rattle.mdl_effect.specs.Forms.{IsFormed};
ghost use Rattle.mdl_effect.specs.Ways.{LeavesTo};
ghost use Rattle.mem_iface.specs.Rules.{rules_of};
ghost use Rattle.operands.specs.Whole.{ran, ran_at};
ghost use Rattle.exec_system.specs.Board.{uses_port, writes_port};

use crate::control::move_special;
use crate::coprocessor::{escape, wait};
use crate::flags::{pop_flags, push_flags};
use crate::interrupts::{BREAKPOINT, clear_interrupts, halt, interrupt, overflow, set_interrupts};
use crate::ports::{input, output};
use crate::protection::run_protected;
use crate::status_word::{clear_task_switched, load_status_word, store_status_word};
use crate::tables::{load_gdt, load_idt, store_gdt, store_idt};
use mdl_insn::{Insn, Op, Operand};
use mdl_state::{Fault, Next, Regs};
use mem_iface::{Linear, Ports};
use operands::no_such;

#[rattlefmt::skip]
fn is_system(op: Op) -> bool
    ensures { result ≡ is_system op }
{
    match op {
        Op::Int | Op::Int3 | Op::Into | Op::Pushf | Op::Popf | Op::Cli | Op::Sti | Op::Hlt => true,
        Op::InPort | Op::OutPort => true,
        Op::Lgdt | Op::Lidt | Op::Sgdt | Op::Sidt | Op::Smsw | Op::Lmsw | Op::Clts => true,
        Op::Wait | Op::Esc => true,
        _ => false,
    }
}

#[rattlefmt::skip]
fn is_protected_only(op: Op) -> bool
    ensures { result ≡ is_protected_only op }
{
    match op {
        Op::Arpl | Op::Lar | Op::Lsl | Op::Verr | Op::Verw => true,
        Op::Sldt | Op::Str | Op::Lldt | Op::Ltr => true,
        _ => false,
    }
}

fn is_mov(op: Op) -> bool
    ensures { result ≡ is_mov op }
{
    match op {
        Op::Mov => true,
        _ => false,
    }
}

/// Whether an operand is a control or debug register.
fn is_special(operand: &Operand) -> bool
    ensures { result ≡ is_special operand.now }
{
    match operand {
        Operand::Creg(_) | Operand::Dreg(_) => true,
        _ => false,
    }
}

/// Whether `run` runs an instruction.
pub fn runs_system(insn: &Insn) -> bool
    ensures { result ≡ runs_system insn.now }
{
    is_system(insn.op)
        || is_protected_only(insn.op)
        || is_mov(insn.op) && (is_special(&insn.a) || is_special(&insn.b))
}

/// One that every mode has, and that uses no port.
#[rattlefmt::skip]
#[tactic(auto, unfolding(mdl_effect::specs::SystemEffects::system_effect, mdl_effect::specs::InterruptEffects::interrupt_plan))]
fn run_inside<L: Linear>(regs: &mut Regs, lin: &mut L, insn: &Insn) -> Result<Next, Fault>
    requires inside { uses_port insn.now.op ≡ false }
    requires every { is_protected_only insn.now.op ≡ false }
    requires formed { IsFormed insn.now }
    requires address { HasAddress insn.now.a }
    requires room { HasRoom (L.seen lin.old) 6 }
    ensures run { (back : ℕ) → (ran result regs.new, L.seen lin.new)
        ≡ tried (by_pick L.pick) 0 (system_effect insn.now regs.old back) (L.seen lin.old) }
    ensures unchanged { OnErr result (regs.new ≡ regs.old) }
    ensures keeps { Keeps (L.seen lin.old) (L.seen lin.new) }
{
    match insn.op {
        Op::Int => interrupt(regs, &insn.a),
        Op::Int3 => Ok(Next::Soft(BREAKPOINT)),
        Op::Into => overflow(regs),
        Op::Pushf => push_flags(regs, lin, insn),
        Op::Popf => pop_flags(regs, lin, insn),
        Op::Cli => clear_interrupts(regs),
        Op::Sti => set_interrupts(regs),
        Op::Hlt => halt(regs),
        Op::Lgdt => load_gdt(regs, lin, insn),
        Op::Lidt => load_idt(regs, lin, insn),
        Op::Sgdt => store_gdt(regs, lin, insn),
        Op::Sidt => store_idt(regs, lin, insn),
        Op::Smsw => store_status_word(regs, lin, insn),
        Op::Lmsw => load_status_word(regs, lin, insn),
        Op::Clts => clear_task_switched(regs),
        Op::Wait => wait(regs),
        Op::Esc => escape(regs),
        Op::Mov => move_special(regs, insn),
        _ => Err(no_such()),
    }
}

/// One of these instructions that some bytes spell, in an attempt: its registers, its held writes
/// and its one port access, or its first fault. `back` is the EIP behind it.
///
/// EFLAGS is whole, with the status flags. `Next::Soft` asks for a software interrupt, with the
/// registers as they were. A fault leaves what was held before it to be dropped, and the board as it
/// was. CR0 and CR3 change in the registers alone: who calls tells the memory.
pub fn run<L: Linear, P: Ports>(
    regs: &mut Regs,
    lin: &mut L,
    ports: &mut P,
    insn: &Insn,
    back: u32,
) -> Result<Next, Fault>
    requires spelt { (bytes : List ℕ) × (big : Bool) × Spelt bytes big insn.now }
    requires runs { IsTrue (runs_system insn.now) }
    requires room { HasRoom (L.seen lin.old) 6 }
    ensures run { (given : ℕ) × (access : PortUse) × Accesses (rules_of P.Ports) access given ports.old ports.new
        × ((ran_at result access regs.new, L.seen lin.new) ≡ tried (by_pick L.pick) given (system_effect insn.now regs.old back) (L.seen lin.old)) }
    ensures unchanged { OnErr result ((regs.new ≡ regs.old) × (ports.new ≡ ports.old)) }
    ensures sound { IsSound regs.old → IsSound regs.new }
    ensures follows { IfOk result (λ next. LeavesTo next regs.old regs.new) }
    ensures keeps { Keeps (L.seen lin.old) (L.seen lin.new) }
    ensures a20 { writes_port insn.now.op ≡ false → P.gate ports.new ≡ P.gate ports.old }
    ensures reset { writes_port insn.now.op ≡ false → P.asks ports.new ≡ P.asks ports.old }
{
    if is_protected_only(insn.op) {
        return run_protected(regs, lin, insn);
    }
    match insn.op {
        Op::InPort => input(regs, lin, ports, insn),
        Op::OutPort => output(regs, lin, ports, insn),
        _ => run_inside(regs, lin, insn),
    }
}
