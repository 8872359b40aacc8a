//! One instruction, by its mnemonic.

ghost use Rattle.std.specs.Prelude.{◌≡◌, ℕ, Bool, List, IsTrue, true, OnErr};
ghost use Rattle.mdl_insn.specs.Spelling.{Spelt};
ghost use Rattle.mdl_state.specs.State.{Mem};
ghost use Rattle.mdl_state.specs.Serving.{Serve, by_pick};
ghost use Rattle.mdl_state.specs.Accesses.{Keeps, HasRoom};
ghost use Rattle.mdl_state.specs.Attempt.{tried};
ghost use Rattle.mdl_cpu.specs.Addresses.{HasAddress};
ghost use Rattle.mdl_effect.specs.FlowEffects.{is_flow, is_pop, runs_flow, flow_effect};
ghost use Rattle.mdl_cpu.specs.Steady.{Steady};
ghost use Rattle.mdl_effect.specs.Kinds.{is_relative};
ghost use Rattle.mdl_effect.specs.Forms.{IsFormed};
ghost use Rattle.operands.specs.Whole.{whole, ran};
ghost use Rattle.exec_flow.specs.Near.{is_branch};
ghost use Rattle.exec_flow.specs.Followed.{is_flag, followed};

use crate::calls::{call, return_near};
use crate::flags::{load_ah, set_carry, set_direction, store_ah};
use crate::frames::{enter, leave};
use crate::jumps::{jump, jump_if};
use crate::kinds::FlowKind;
use crate::loops::{jump_if_none, repeat};
use crate::pops::{pop_operand, pop_registers};
use crate::pushes::{is_segment, push_operand, push_registers};
use lazy_flags::Flags;
use mdl_insn::{Insn, Op};
use mdl_num::{CF, ZF};
use mdl_state::{Fault, Next, Regs};
use mem_iface::Linear;

#[rattlefmt::skip]
#[inline(always)]
fn is_flow(op: Op) -> bool
    ensures { result ≡ is_flow op }
{
    match op {
        Op::Jmp | Op::Jcc(_) | Op::Call | Op::Ret => true,
        Op::Loop | Op::Loope | Op::Loopne | Op::Jcxz => true,
        Op::Push | Op::Pop | Op::Pusha | Op::Popa | Op::Enter | Op::Leave => true,
        Op::Clc | Op::Stc | Op::Cmc | Op::Cld | Op::Std | Op::Lahf | Op::Sahf => true,
        _ => false,
    }
}

#[inline(always)]
fn is_pop(op: Op) -> bool
    ensures { result ≡ is_pop op }
{
    match op {
        Op::Pop => true,
        _ => false,
    }
}

/// Whether `run` runs an instruction.
#[inline(always)]
pub fn runs_flow(insn: &Insn) -> bool
    ensures { result ≡ runs_flow insn.now }
{
    is_flow(insn.op) && !(is_pop(insn.op) && is_segment(&insn.a))
}

/// A branch where a condition holds.
#[tactic(auto, using(operands::proofs::Statuses::packed_bits), unfolding(mdl_effect::specs::FlowEffects::flow_effect))]
#[inline(always)]
pub(crate) fn run_branch(
    regs: &mut Regs,
    flags: &Flags,
    insn: &Insn,
    back: u32,
) -> Result<Next, Fault>
    requires branch { is_branch insn.now.op ≡ true }
    requires near { is_relative insn.now.a ≡ true }
    ensures run { (serve : Serve) (m : Mem) → (ran result (whole regs.new flags.now), m)
        ≡ tried serve 0 (flow_effect insn.now (whole regs.old flags.now) back) m }
    ensures unchanged { OnErr result (regs.new ≡ regs.old) }
{
    match insn.op {
        Op::Jcc(number) => jump_if(number, regs, flags, insn, back),
        Op::Loop => repeat(true, regs, insn, back),
        Op::Loope => repeat(flags.get(ZF), regs, insn, back),
        Op::Loopne => repeat(!flags.get(ZF), regs, insn, back),
        Op::Jcxz => jump_if_none(regs, insn, back),
        _ => unreachable!(),
    }
}

/// An instruction of the flags, which has no fault.
#[tactic(auto, using(operands::proofs::Statuses::packed_bits), unfolding(mdl_effect::specs::FlowEffects::flow_effect))]
#[inline(never)]
pub(crate) fn run_flag(regs: &mut Regs, flags: &mut Flags, insn: &Insn)
    requires flag { is_flag insn.now.op ≡ true }
    ensures { (back : ℕ) (serve : Serve) (m : Mem) → (followed (whole regs.new flags.new), m)
        ≡ tried serve 0 (flow_effect insn.now (whole regs.old flags.old) back) m }
{
    match insn.op {
        Op::Clc => set_carry(regs, flags, false),
        Op::Stc => set_carry(regs, flags, true),
        Op::Cmc => set_carry(regs, flags, !flags.get(CF)),
        Op::Cld => set_direction(regs, false),
        Op::Std => set_direction(regs, true),
        Op::Lahf => load_ah(regs, flags),
        Op::Sahf => store_ah(regs, flags),
        _ => unreachable!(),
    }
}

/// Any of these instructions, whose operands have the form of its mnemonic.
#[rattlefmt::skip]
#[tactic(auto, using(operands::proofs::OperandKinds::kinds), unfolding(mdl_effect::specs::FlowEffects::flow_effect))]
#[inline(never)]
fn run_any<L: Linear>(regs: &mut Regs, flags: &mut Flags, lin: &mut L, insn: &Insn, back: u32) -> Result<Next, Fault>
    requires runs { runs_flow insn.now ≡ true }
    requires formed { IsFormed insn.now }
    requires address { HasAddress insn.now.a }
    requires room { HasRoom (L.seen lin.old) 128 }
    ensures run { (ran result (whole regs.new flags.new), L.seen lin.new)
        ≡ tried (by_pick L.pick) 0 (flow_effect insn.now (whole regs.old flags.old) back) (L.seen lin.old) }
    ensures unchanged { OnErr result ((regs.new ≡ regs.old) × (flags.new ≡ flags.old)) }
    ensures keeps { Keeps (L.seen lin.old) (L.seen lin.new) }
{
    match insn.op {
        Op::Jmp => jump(regs, lin, insn, back),
        Op::Call => call(regs, lin, insn, back),
        Op::Ret => return_near(regs, lin, insn),
        Op::Jcc(_) | Op::Loop | Op::Loope | Op::Loopne | Op::Jcxz => run_branch(regs, flags, insn, back),
        Op::Push => push_operand(regs, lin, insn),
        Op::Pop => pop_operand(regs, lin, insn),
        Op::Pusha => push_registers(regs, lin, insn),
        Op::Popa => pop_registers(regs, lin, insn),
        Op::Enter => enter(regs, lin, insn),
        Op::Leave => leave(regs, lin, insn),
        Op::Clc | Op::Stc | Op::Cmc | Op::Cld | Op::Std | Op::Lahf | Op::Sahf => {
            run_flag(regs, flags, insn);
            Ok(Next::Follow)
        }
        _ => unreachable!(),
    }
}

/// The same, with near jumps and calls in line.
#[rattlefmt::skip]
#[tactic(auto, using(operands::proofs::OperandKinds::kinds), unfolding(mdl_effect::specs::FlowEffects::flow_effect))]
#[inline(always)]
fn run_formed<L: Linear>(regs: &mut Regs, flags: &mut Flags, lin: &mut L, insn: &Insn, back: u32) -> Result<Next, Fault>
    requires runs { runs_flow insn.now ≡ true }
    requires formed { IsFormed insn.now }
    requires address { HasAddress insn.now.a }
    requires room { HasRoom (L.seen lin.old) 128 }
    ensures run { (ran result (whole regs.new flags.new), L.seen lin.new)
        ≡ tried (by_pick L.pick) 0 (flow_effect insn.now (whole regs.old flags.old) back) (L.seen lin.old) }
    ensures unchanged { OnErr result ((regs.new ≡ regs.old) × (flags.new ≡ flags.old)) }
    ensures keeps { Keeps (L.seen lin.old) (L.seen lin.new) }
{
    match insn.op {
        Op::Jmp => jump(regs, lin, insn, back),
        Op::Call => call(regs, lin, insn, back),
        Op::Ret => return_near(regs, lin, insn),
        Op::Jcc(number) => jump_if(number, regs, flags, insn, back),
        _ => run_any(regs, flags, lin, insn, back),
    }
}

/// One of these instructions that some bytes spell, in an attempt: its registers and held writes,
/// or its first fault. `back` is the EIP behind it.
///
/// The status flags of EFLAGS are those of `flags`. A fault leaves what was held before it to be
/// dropped. ENTER may hold 128 bytes.
#[inline(always)]
pub fn run<L: Linear>(
    regs: &mut Regs,
    flags: &mut Flags,
    lin: &mut L,
    insn: &Insn,
    back: u32,
) -> Result<Next, Fault>
    requires spelt { (bytes : List ℕ) × (big : Bool) × Spelt bytes big insn.now }
    requires runs { IsTrue (runs_flow insn.now) }
    requires room { HasRoom (L.seen lin.old) 128 }
    ensures run { (ran result (whole regs.new flags.new), L.seen lin.new)
        ≡ tried (by_pick L.pick) 0 (flow_effect insn.now (whole regs.old flags.old) back) (L.seen lin.old) }
    ensures unchanged { OnErr result ((regs.new ≡ regs.old) × (flags.new ≡ flags.old)) }
    ensures steady { Steady (whole regs.old flags.old) (whole regs.new flags.new) }
    ensures keeps { Keeps (L.seen lin.old) (L.seen lin.new) }
{
    run_formed(regs, flags, lin, insn, back)
}

/// The same, of a kind: what is compiled runs that alone.
#[inline(always)]
pub fn run_kind<K: FlowKind, L: Linear>(
    regs: &mut Regs,
    flags: &mut Flags,
    lin: &mut L,
    insn: &Insn,
    back: u32,
) -> Result<Next, Fault>
    requires kind { K.takes insn.now.op ≡ true }
    requires spelt { (bytes : List ℕ) × (big : Bool) × Spelt bytes big insn.now }
    requires runs { IsTrue (runs_flow insn.now) }
    requires room { HasRoom (L.seen lin.old) 128 }
    ensures run { (ran result (whole regs.new flags.new), L.seen lin.new)
        ≡ tried (by_pick L.pick) 0 (flow_effect insn.now (whole regs.old flags.old) back) (L.seen lin.old) }
    ensures unchanged { OnErr result ((regs.new ≡ regs.old) × (flags.new ≡ flags.old)) }
    ensures steady { Steady (whole regs.old flags.old) (whole regs.new flags.new) }
    ensures keeps { Keeps (L.seen lin.old) (L.seen lin.new) }
{
    K::execute(regs, flags, lin, insn, back)
}
