//! Near jumps: JMP, and Jcc.

ghost use Rattle.std.specs.Prelude.{◌≡◌, ◌<◌, ◌+◌, ◌%◌, ℕ, nat_le, true, IfOk, OnErr};
ghost use Rattle.mdl_state.specs.declared.Seg.TheVariants.{Cs};
ghost use Rattle.mdl_state.specs.State.{Mem};
ghost use Rattle.mdl_state.specs.Bytes.{bound_of};
ghost use Rattle.mdl_state.specs.Registers.{seg_of};
ghost use Rattle.mdl_state.specs.Serving.{Serve, by_pick, outcome, on};
ghost use Rattle.mdl_state.specs.Accesses.{Keeps};
ghost use Rattle.mdl_state.specs.Attempt.{Plan, tried};
ghost use Rattle.mdl_cpu.specs.Addresses.{HasAddress};
ghost use Rattle.mdl_effect.specs.Operands.{After, reading};
ghost use Rattle.mdl_effect.specs.Jumps.{landing, target_by, branching, jump_plan, jump_if_plan};
ghost use Rattle.mdl_effect.specs.Kinds.{is_relative, is_value, is_target};
ghost use Rattle.mdl_effect.specs.Forms.{IsOf};
ghost use Rattle.operands.specs.Whole.{whole, ran};
ghost use Rattle.exec_flow.specs.Near.{displacement_of};

use lazy_flags::Flags;
use mdl_insn::{Insn, Operand};
use mdl_num::low;
use mdl_state::{Fault, Next, Regs, Seg, Size};
use mem_iface::Linear;
use operands::{condition, general_protection, is_plain, read_sized, value};
use seg_unit::segment;

/// Whether code may go on at an EIP: it lies within the limit of CS.
#[tactic(auto, unfolding(mdl_state::specs::Registers::seg_of))]
#[inline(always)]
pub(crate) fn is_inside(regs: &Regs, eip: u32) -> bool
    ensures { (flags : ℕ) → result ≡ nat_le eip (seg_of (whole regs.now flags) Cs).limit }
{
    eip <= segment(regs, Seg::Cs).limit
}

/// A jump to an EIP.
#[inline(always)]
fn land(regs: &mut Regs, eip: u32) -> Result<Next, Fault>
    ensures run { (flags : ℕ) (serve : Serve) (m : Mem) → (ran result (whole regs.new flags), m)
        ≡ tried serve 0 (landing (whole regs.old flags) (whole regs.old flags) eip) m }
    ensures unchanged { OnErr result (regs.new ≡ regs.old) }
{
    if !is_inside(regs, eip) {
        return Err(general_protection(0));
    }
    regs.eip = eip;
    Ok(Next::Landed)
}

/// Whether an operand is a displacement.
#[inline(always)]
fn is_relative(operand: &Operand) -> bool
    ensures { result ≡ is_relative operand.now }
{
    match operand {
        Operand::Rel(_) => true,
        _ => false,
    }
}

/// A displacement, or 0 where there is none.
#[inline(always)]
fn displacement(operand: &Operand) -> u32
    ensures { result ≡ displacement_of operand.now }
{
    match operand {
        Operand::Rel(displacement) => *displacement,
        _ => 0,
    }
}

/// So far from behind the instruction, cut to the operand size.
#[inline(always)]
pub(crate) fn displaced(insn: &Insn, back: u32) -> u32
    ensures { result ≡ (back + displacement_of insn.now.a) % bound_of insn.now.size }
{
    low(back as u64 + displacement(&insn.a) as u64, insn.size)
}

/// The number of an operand, in a register or in memory.
#[tactic(auto, using(mdl_state::specs::Rules::attempts, operands::proofs::OperandKinds::kinds))]
#[inline(always)]
pub(crate) fn number<L: Linear>(
    regs: &Regs,
    lin: &mut L,
    operand: &Operand,
    size: Size,
) -> Result<u32, Fault>
    requires value { is_value operand.now ≡ true }
    requires form { IsOf size operand.now }
    requires address { HasAddress operand.now }
    ensures run { (flags : ℕ) (k : ℕ → Plan After) →
        tried (by_pick L.pick) 0 (reading (whole regs.now flags) operand.now k) (L.seen lin.old)
        ≡ on (outcome result, L.seen lin.new) (λ value m. tried (by_pick L.pick) 0 (k value) m) }
    ensures bound { IfOk result (λ value. value < bound_of size) }
    ensures keeps { Keeps (L.seen lin.old) (L.seen lin.new) }
    ensures held { (L.seen lin.new).held ≡ (L.seen lin.old).held }
{
    if is_plain(operand) {
        return Ok(value(regs, operand, size));
    }
    read_sized(regs, lin, operand, size)
}

/// Where JMP and CALL lead.
#[tactic(auto, using(crate::proofs::Targets::targets, operands::proofs::OperandKinds::kinds))]
#[inline(always)]
pub(crate) fn target<L: Linear>(
    regs: &Regs,
    lin: &mut L,
    insn: &Insn,
    back: u32,
) -> Result<u32, Fault>
    requires target { is_target insn.now.a ≡ true }
    requires form { IsOf insn.now.size insn.now.a }
    requires address { HasAddress insn.now.a }
    ensures run { (flags : ℕ) (k : ℕ → Plan After) →
        tried (by_pick L.pick) 0 (target_by insn.now.a insn.now.size (whole regs.now flags) back k) (L.seen lin.old)
        ≡ on (outcome result, L.seen lin.new) (λ eip m. tried (by_pick L.pick) 0 (k eip) m) }
    ensures keeps { Keeps (L.seen lin.old) (L.seen lin.new) }
    ensures held { (L.seen lin.new).held ≡ (L.seen lin.old).held }
{
    if is_relative(&insn.a) {
        return Ok(displaced(insn, back));
    }
    number(regs, lin, &insn.a, insn.size)
}

/// JMP.
#[tactic(auto, unfolding(mdl_effect::specs::Jumps::jump_plan))]
#[inline(always)]
pub(crate) fn jump<L: Linear>(
    regs: &mut Regs,
    lin: &mut L,
    insn: &Insn,
    back: u32,
) -> Result<Next, Fault>
    requires target { is_target insn.now.a ≡ true }
    requires form { IsOf insn.now.size insn.now.a }
    requires address { HasAddress insn.now.a }
    ensures run { (flags : ℕ) → (ran result (whole regs.new flags), L.seen lin.new)
        ≡ tried (by_pick L.pick) 0 (jump_plan insn.now (whole regs.old flags) back) (L.seen lin.old) }
    ensures unchanged { OnErr result (regs.new ≡ regs.old) }
    ensures keeps { Keeps (L.seen lin.old) (L.seen lin.new) }
{
    let eip = target(regs, lin, insn, back)?;
    land(regs, eip)
}

/// A branch by a displacement, where it is taken.
#[tactic(auto, using(crate::proofs::Targets::near_target))]
#[inline(always)]
pub(crate) fn branch(taken: bool, regs: &mut Regs, insn: &Insn, back: u32) -> Result<Next, Fault>
    requires near { is_relative insn.now.a ≡ true }
    ensures run { (flags : ℕ) (serve : Serve) (m : Mem) → (ran result (whole regs.new flags), m)
        ≡ tried serve 0 (branching taken insn.now (whole regs.old flags) back) m }
    ensures unchanged { OnErr result (regs.new ≡ regs.old) }
{
    if !taken {
        return Ok(Next::Follow);
    }
    land(regs, displaced(insn, back))
}

/// Jcc.
#[tactic(auto, unfolding(mdl_effect::specs::Jumps::jump_if_plan))]
#[inline(always)]
pub(crate) fn jump_if(
    number: u8,
    regs: &mut Regs,
    flags: &Flags,
    insn: &Insn,
    back: u32,
) -> Result<Next, Fault>
    requires near { is_relative insn.now.a ≡ true }
    ensures run { (serve : Serve) (m : Mem) → (ran result (whole regs.new flags.now), m)
        ≡ tried serve 0 (jump_if_plan number insn.now (whole regs.old flags.now) back) m }
    ensures unchanged { OnErr result (regs.new ≡ regs.old) }
{
    branch(condition(number, flags), regs, insn, back)
}
