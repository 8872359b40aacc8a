//! Near calls: CALL and RET. Both set registers after their last check.

ghost use Rattle.std.specs.Prelude.{◌≡◌, ℕ, true, OnErr};
ghost use Rattle.mdl_state.specs.declared.Size.TheVariants.{B2};
ghost use Rattle.mdl_state.specs.Serving.{by_pick};
ghost use Rattle.mdl_state.specs.Accesses.{Keeps, HasRoom};
ghost use Rattle.mdl_state.specs.Attempt.{tried};
ghost use Rattle.mdl_cpu.specs.Addresses.{HasAddress};
ghost use Rattle.mdl_effect.specs.Jumps.{call_plan, return_plan};
ghost use Rattle.mdl_effect.specs.Kinds.{is_target};
ghost use Rattle.mdl_effect.specs.Forms.{IsOf};
ghost use Rattle.operands.specs.Whole.{whole, ran};

use crate::jumps::{is_inside, target};
use mdl_insn::Insn;
use mdl_num::low;
use mdl_state::{Fault, Next, Regs, Seg, Size};
use mem_iface::{Linear, bytes_of};
use operands::{above_top, below_top, general_protection, load, set_top, stack_top, store, value};

/// CALL. The address behind it is pushed before the new EIP is tested.
#[tactic(auto, using(crate::proofs::Targets::calls), unfolding(mdl_effect::specs::Jumps::call_plan, mdl_cpu::specs::Stack::push_plan))]
#[inline(always)]
pub(crate) fn call<L: Linear>(
    regs: &mut Regs,
    lin: &mut L,
    insn: &Insn,
    back: u32,
) -> Result<Next, Fault>
    requires target { is_target insn.now.a ≡ true }
    requires form { IsOf insn.now.size insn.now.a }
    requires address { HasAddress insn.now.a }
    requires room { HasRoom (L.seen lin.old) 4 }
    ensures run { (flags : ℕ) → (ran result (whole regs.new flags), L.seen lin.new)
        ≡ tried (by_pick L.pick) 0 (call_plan insn.now (whole regs.old flags) back) (L.seen lin.old) }
    ensures unchanged { OnErr result (regs.new ≡ regs.old) }
    ensures keeps { Keeps (L.seen lin.old) (L.seen lin.new) }
{
    let eip = target(regs, lin, insn, back)?;
    let top = below_top(regs, bytes_of(insn.size));
    let behind = low(back as u64, insn.size);
    store(regs, lin, Seg::Ss, top, insn.size, behind)?;
    if !is_inside(regs, eip) {
        return Err(general_protection(0));
    }
    set_top(regs, top);
    regs.eip = eip;
    Ok(Next::Landed)
}

/// RET.
#[tactic(auto, using(crate::proofs::Targets::calls), unfolding(mdl_effect::specs::Jumps::return_plan, mdl_cpu::specs::Stack::pop_plan))]
#[inline(always)]
pub(crate) fn return_near<L: Linear>(
    regs: &mut Regs,
    lin: &mut L,
    insn: &Insn,
) -> Result<Next, Fault>
    requires form { IsOf B2 insn.now.a }
    ensures run { (flags : ℕ) → (ran result (whole regs.new flags), L.seen lin.new)
        ≡ tried (by_pick L.pick) 0 (return_plan insn.now (whole regs.old flags)) (L.seen lin.old) }
    ensures unchanged { OnErr result (regs.new ≡ regs.old) }
    ensures keeps { Keeps (L.seen lin.old) (L.seen lin.new) }
{
    let eip = load(regs, lin, Seg::Ss, stack_top(regs), insn.size)?;
    if !is_inside(regs, eip) {
        return Err(general_protection(0));
    }
    let parameters = value(regs, &insn.a, Size::B2);
    set_top(regs, above_top(regs, bytes_of(insn.size)));
    set_top(regs, above_top(regs, parameters));
    regs.eip = eip;
    Ok(Next::Landed)
}
