//! SETcc.

ghost use Rattle.std.specs.Prelude.{◌≡◌, true, OnErr};
ghost use Rattle.mdl_state.specs.declared.Size.TheVariants.{B1};
ghost use Rattle.mdl_state.specs.Serving.{by_pick};
ghost use Rattle.mdl_state.specs.Accesses.{Keeps, HasRoom};
ghost use Rattle.mdl_state.specs.Attempt.{tried};
ghost use Rattle.mdl_cpu.specs.Addresses.{HasAddress};
ghost use Rattle.mdl_effect.specs.Operands.{follow};
ghost use Rattle.mdl_effect.specs.Kinds.{is_place};
ghost use Rattle.mdl_effect.specs.Forms.{IsOf};
ghost use Rattle.mdl_effect.specs.Conditions.{set_plan};
ghost use Rattle.operands.specs.Whole.{whole, after, IsPlainOf, KeepsOther};

use crate::moves::put;
use lazy_flags::Flags;
use mdl_insn::Insn;
use mdl_state::{Fault, Regs, Size};
use mem_iface::Linear;
use operands::{condition, set};

/// SETcc: whether the condition holds, as a byte.
#[inline(always)]
#[tactic(auto, unfolding(mdl_effect::specs::Conditions::set_plan))]
pub(crate) fn set_byte(regs: &mut Regs, flags: &Flags, insn: &Insn, number: u8)
    requires { IsPlainOf B1 insn.now.a }
    ensures plan { follow (whole regs.new flags.now)
        ≡ set_plan number insn.now (whole regs.old flags.now) }
    ensures kept { KeepsOther regs.old regs.new }
{
    set(regs, &insn.a, Size::B1, condition(number, flags) as u32);
}

/// SETcc, by where the operand is.
#[inline(always)]
#[tactic(auto, unfolding(mdl_effect::specs::Conditions::set_plan))]
pub(crate) fn set_place<L: Linear>(
    regs: &mut Regs,
    flags: &Flags,
    lin: &mut L,
    insn: &Insn,
    number: u8,
) -> Result<(), Fault>
    requires place { is_place insn.now.a ≡ true }
    requires a { IsOf B1 insn.now.a }
    requires address { HasAddress insn.now.a }
    requires room { HasRoom (L.seen lin.old) 4 }
    ensures run { (after result (whole regs.new flags.now), L.seen lin.new)
        ≡ tried (by_pick L.pick) 0 (set_plan number insn.now (whole regs.old flags.now)) (L.seen lin.old) }
    ensures kept { KeepsOther regs.old regs.new }
    ensures unchanged { OnErr result (regs.new ≡ regs.old) }
    ensures keeps { Keeps (L.seen lin.old) (L.seen lin.new) }
{
    put(
        regs,
        lin,
        &insn.a,
        Size::B1,
        condition(number, flags) as u32,
    )?;
    Ok(())
}
