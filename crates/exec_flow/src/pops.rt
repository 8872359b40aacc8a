//! POP and POPA.

ghost use Rattle.std.specs.Prelude.{◌≡◌, ◌<◌, ℕ, true, All, OnErr};
ghost use Rattle.mdl_state.specs.Bytes.{bound_of};
ghost use Rattle.mdl_state.specs.Serving.{by_pick};
ghost use Rattle.mdl_state.specs.Accesses.{Keeps, HasRoom};
ghost use Rattle.mdl_state.specs.Attempt.{tried};
ghost use Rattle.mdl_cpu.specs.Addresses.{HasAddress};
ghost use Rattle.mdl_cpu.specs.Loads.{answered};
ghost use Rattle.mdl_effect.specs.StackEffects.{pop_operand_plan, popped_into, pop_all, popa_plan};
ghost use Rattle.mdl_effect.specs.Kinds.{is_place};
ghost use Rattle.mdl_effect.specs.Forms.{IsOf};
ghost use Rattle.operands.specs.Whole.{whole, ran};

use mdl_insn::Insn;
use mdl_state::{Fault, Next, Regs, Size};
use mem_iface::Linear;
use operands::{
    ACCUMULATOR, BASE, COUNT, DATA, DESTINATION, FRAME, SOURCE, STACK, is_plain, pop, set, set_reg,
    write,
};

/// The registers that POPA pops, in order.
const POPPED: [u8; 8] = [
    DESTINATION,
    SOURCE,
    FRAME,
    STACK,
    BASE,
    DATA,
    COUNT,
    ACCUMULATOR,
];

/// POP but of a segment register. The address of an operand in memory has the new stack pointer.
#[tactic(auto, using(mdl_state::specs::Rules::attempts, operands::proofs::OperandKinds::kinds), unfolding(mdl_effect::specs::StackEffects::pop_operand_plan))]
#[inline(always)]
pub(crate) fn pop_operand<L: Linear>(
    regs: &mut Regs,
    lin: &mut L,
    insn: &Insn,
) -> Result<Next, Fault>
    requires place { is_place insn.now.a ≡ true }
    requires form { IsOf insn.now.size insn.now.a }
    requires address { HasAddress insn.now.a }
    requires room { HasRoom (L.seen lin.old) 4 }
    ensures run { (flags : ℕ) → (ran result (whole regs.new flags), L.seen lin.new)
        ≡ tried (by_pick L.pick) 0 (pop_operand_plan insn.now (whole regs.old flags)) (L.seen lin.old) }
    ensures unchanged { OnErr result (regs.new ≡ regs.old) }
    ensures keeps { Keeps (L.seen lin.old) (L.seen lin.new) }
{
    if is_plain(&insn.a) {
        let value = pop(regs, lin, insn.size)?;
        set(regs, &insn.a, insn.size, value);
        return Ok(Next::Follow);
    }
    let mut moved = *regs;
    let value = pop(&mut moved, lin, insn.size)?;
    write(&moved, lin, &insn.a, insn.size, value)?;
    *regs = moved;
    Ok(Next::Follow)
}

/// A number that was popped set in its register; that of the stack pointer is dropped.
fn put(regs: &mut Regs, n: u8, size: Size, value: u32)
    requires number { n < 8 }
    requires bound { value < bound_of size }
    ensures { (flags : ℕ) → whole regs.new flags ≡ popped_into n size (value, whole regs.old flags) }
{
    if n != STACK {
        set_reg(regs, n, size, value);
    }
}

/// Numbers popped into these registers, in order. Where one faults, those before it have changed
/// theirs.
#[tactic(auto, using(mdl_state::specs::Rules::attempts, crate::proofs::Orders::orders))]
fn pop_all<L: Linear>(regs: &mut Regs, lin: &mut L, size: Size, numbers: &[u8]) -> Result<(), Fault>
    requires { All (λ n. n < 8) numbers.now }
    ensures run { (flags : ℕ) → (answered result (whole regs.new flags), L.seen lin.new)
        ≡ tried (by_pick L.pick) 0 (pop_all (whole regs.old flags) size numbers.now) (L.seen lin.old) }
    ensures keeps { Keeps (L.seen lin.old) (L.seen lin.new) }
{
    let [n, more @ ..] = numbers else {
        return Ok(());
    };
    let value = pop(regs, lin, size)?;
    put(regs, *n, size, value);
    pop_all(regs, lin, size, more)?;
    Ok(())
}

/// POPA.
#[tactic(auto, using(mdl_state::specs::Rules::attempts), unfolding(mdl_effect::specs::StackEffects::popa_plan))]
#[inline(never)]
pub(crate) fn pop_registers<L: Linear>(
    regs: &mut Regs,
    lin: &mut L,
    insn: &Insn,
) -> Result<Next, Fault>
    ensures run { (flags : ℕ) → (ran result (whole regs.new flags), L.seen lin.new)
        ≡ tried (by_pick L.pick) 0 (popa_plan insn.now (whole regs.old flags)) (L.seen lin.old) }
    ensures unchanged { OnErr result (regs.new ≡ regs.old) }
    ensures keeps { Keeps (L.seen lin.old) (L.seen lin.new) }
{
    let mut moved = *regs;
    pop_all(&mut moved, lin, insn.size, &POPPED)?;
    *regs = moved;
    Ok(Next::Follow)
}
