//! PUSH and PUSHA.

ghost use Rattle.std.specs.Prelude.{◌≡◌, ◌≢◌, ◌<◌, ◌*◌, ◌^◌, ℕ, true, All, length, OnErr};
ghost use Rattle.mdl_state.specs.declared.Size.TheVariants.{B1};
ghost use Rattle.mdl_state.specs.Serving.{by_pick};
ghost use Rattle.mdl_state.specs.Accesses.{Keeps, HasRoom};
ghost use Rattle.mdl_state.specs.Attempt.{tried};
ghost use Rattle.mdl_cpu.specs.Addresses.{HasAddress};
ghost use Rattle.mdl_cpu.specs.Loads.{answered};
ghost use Rattle.mdl_effect.specs.Operands.{is_segment};
ghost use Rattle.mdl_effect.specs.StackEffects.{push_operand_plan, push_all, pusha_plan};
ghost use Rattle.mdl_effect.specs.Kinds.{is_pushed};
ghost use Rattle.mdl_effect.specs.Forms.{IsOf};
ghost use Rattle.operands.specs.Whole.{whole, ran};
ghost use Rattle.exec_flow.specs.Stacked.{selector_of, numbers_of};

use crate::jumps::number;
use mdl_insn::{Insn, Operand};
use mdl_state::{Fault, Next, Regs, Size};
use mem_iface::Linear;
use operands::{ACCUMULATOR, BASE, COUNT, DATA, DESTINATION, FRAME, SOURCE, STACK, push, reg};
use seg_unit::segment;

/// The registers that PUSHA pushes, in order.
const PUSHED: [u8; 8] = [
    ACCUMULATOR,
    COUNT,
    DATA,
    BASE,
    STACK,
    FRAME,
    SOURCE,
    DESTINATION,
];

/// Whether an operand is a segment register.
#[inline(always)]
pub(crate) fn is_segment(operand: &Operand) -> bool
    ensures { result ≡ is_segment operand.now }
{
    match operand {
        Operand::Sreg(_) => true,
        _ => false,
    }
}

/// The selector of a segment register, or 0 where there is none.
#[tactic(auto, unfolding(mdl_state::specs::Registers::seg_of))]
fn selector(regs: &Regs, operand: &Operand) -> u32
    ensures value { (flags : ℕ) → result ≡ selector_of (whole regs.now flags) operand.now }
    ensures bound { result < 2 ^ 16 }
{
    match operand {
        Operand::Sreg(seg) => segment(regs, *seg).sel as u32,
        _ => 0,
    }
}

/// PUSH. Its operand is read before the stack pointer moves.
#[tactic(auto, using(mdl_state::specs::Rules::attempts, crate::proofs::Orders::pushes, operands::proofs::OperandKinds::kinds))]
#[inline(always)]
pub(crate) fn push_operand<L: Linear>(
    regs: &mut Regs,
    lin: &mut L,
    insn: &Insn,
) -> Result<Next, Fault>
    requires size { insn.now.size ≢ B1 }
    requires pushed { is_pushed insn.now.a ≡ true }
    requires form { IsOf insn.now.size insn.now.a }
    requires address { HasAddress insn.now.a }
    requires room { HasRoom (L.seen lin.old) 4 }
    ensures run { (flags : ℕ) → (ran result (whole regs.new flags), L.seen lin.new)
        ≡ tried (by_pick L.pick) 0 (push_operand_plan insn.now (whole regs.old flags)) (L.seen lin.old) }
    ensures unchanged { OnErr result (regs.new ≡ regs.old) }
    ensures keeps { Keeps (L.seen lin.old) (L.seen lin.new) }
{
    if is_segment(&insn.a) {
        push(regs, lin, insn.size, selector(regs, &insn.a))?;
        return Ok(Next::Follow);
    }
    let value = number(regs, lin, &insn.a, insn.size)?;
    push(regs, lin, insn.size, value)?;
    Ok(Next::Follow)
}

/// These registers pushed in order, as they stand in `old`. Where one faults, those before it have
/// moved the stack pointer.
#[tactic(auto, using(mdl_state::specs::Rules::attempts, crate::proofs::Orders::orders))]
fn push_all<L: Linear>(
    old: &Regs,
    regs: &mut Regs,
    lin: &mut L,
    size: Size,
    numbers: &[u8],
) -> Result<(), Fault>
    requires numbers { All (λ n. n < 8) numbers.now }
    requires room { HasRoom (L.seen lin.old) (4 * length numbers.now) }
    ensures run { (flags : ℕ) → (answered result (whole regs.new flags), L.seen lin.new)
        ≡ tried (by_pick L.pick) 0 (push_all (whole regs.old flags) size (numbers_of (whole old.now flags) size numbers.now))
        (L.seen lin.old) }
    ensures keeps { Keeps (L.seen lin.old) (L.seen lin.new) }
{
    let [n, more @ ..] = numbers else {
        return Ok(());
    };
    push(regs, lin, size, reg(old, *n, size))?;
    push_all(old, regs, lin, size, more)?;
    Ok(())
}

/// PUSHA: the registers as they stand before the first is pushed.
#[tactic(auto, using(mdl_state::specs::Rules::attempts), unfolding(mdl_effect::specs::StackEffects::pusha_plan))]
#[inline(never)]
pub(crate) fn push_registers<L: Linear>(
    regs: &mut Regs,
    lin: &mut L,
    insn: &Insn,
) -> Result<Next, Fault>
    requires room { HasRoom (L.seen lin.old) 32 }
    ensures run { (flags : ℕ) → (ran result (whole regs.new flags), L.seen lin.new)
        ≡ tried (by_pick L.pick) 0 (pusha_plan insn.now (whole regs.old flags)) (L.seen lin.old) }
    ensures unchanged { OnErr result (regs.new ≡ regs.old) }
    ensures keeps { Keeps (L.seen lin.old) (L.seen lin.new) }
{
    let mut moved = *regs;
    push_all(regs, &mut moved, lin, insn.size, &PUSHED)?;
    *regs = moved;
    Ok(Next::Follow)
}
