//! LEA and XLAT.

ghost use Rattle.std.specs.Prelude.{◌≡◌, ◌<◌, ◌+◌, ◌%◌, ℕ, true, Some, OnErr};
ghost use Rattle.mdl_state.specs.declared.Size.TheVariants.{B1};
ghost use Rattle.mdl_state.specs.Registers.{reg_of};
ghost use Rattle.mdl_state.specs.Serving.{by_pick};
ghost use Rattle.mdl_state.specs.Accesses.{Keeps};
ghost use Rattle.mdl_state.specs.Attempt.{tried};
ghost use Rattle.mdl_cpu.specs.Addresses.{part_of, offset_bound, HasAddress};
ghost use Rattle.mdl_effect.specs.Moves.{lea_plan, xlat_plan};
ghost use Rattle.mdl_effect.specs.Kinds.{is_memory};
ghost use Rattle.mdl_effect.specs.Forms.{IsOf};
ghost use Rattle.operands.specs.Whole.{whole, after, KeepsOther};

use mdl_insn::{Insn, Operand};
use mdl_num::low;
use mdl_state::{Fault, Regs, Seg, Size};
use mem_iface::Linear;
use operands::{ACCUMULATOR, BASE, cut, load, offset, reg, set, set_reg};

/// LEA. Nothing is checked.
#[tactic(auto, unfolding(mdl_effect::specs::Moves::lea_plan))]
pub(crate) fn load_address<L: Linear>(
    regs: &mut Regs,
    lin: &mut L,
    insn: &Insn,
) -> Result<(), Fault>
    requires a { IsOf insn.now.size insn.now.a }
    requires memory { is_memory insn.now.b ≡ true }
    requires address { HasAddress insn.now.b }
    ensures run { (flags : ℕ) → (after result (whole regs.new flags), L.seen lin.new)
        ≡ tried (by_pick L.pick) 0 (lea_plan insn.now (whole regs.old flags)) (L.seen lin.old) }
    ensures kept { KeepsOther regs.old regs.new }
    ensures unchanged { OnErr result (regs.new ≡ regs.old) }
    ensures keeps { Keeps (L.seen lin.old) (L.seen lin.new) }
{
    let Operand::At(mem, _) = &insn.b else {
        unreachable!();
    };
    let offset = offset(regs, mem);
    set(regs, &insn.a, insn.size, low(offset as u64, insn.size));
    Ok(())
}

/// The offset of XLAT's byte.
fn table_offset(regs: &Regs, wide: bool) -> u32
    ensures { (flags : ℕ) → result
        ≡ (part_of (whole regs.now flags) (Some 3) + reg_of (whole regs.now flags) 0 B1) % offset_bound wide }
{
    let index = reg(regs, ACCUMULATOR, Size::B1);
    cut(regs.gpr[BASE as usize] as u64 + index as u64, wide)
}

/// XLAT.
#[tactic(auto, using(mdl_state::specs::Rules::attempts), unfolding(mdl_effect::specs::Moves::xlat_plan))]
pub(crate) fn translate_byte<L: Linear>(
    regs: &mut Regs,
    lin: &mut L,
    insn: &Insn,
) -> Result<(), Fault>
    ensures run { (flags : ℕ) → (after result (whole regs.new flags), L.seen lin.new)
        ≡ tried (by_pick L.pick) 0 (xlat_plan insn.now (whole regs.old flags)) (L.seen lin.old) }
    ensures kept { KeepsOther regs.old regs.new }
    ensures unchanged { OnErr result (regs.new ≡ regs.old) }
    ensures keeps { Keeps (L.seen lin.old) (L.seen lin.new) }
{
    let seg = insn.over.unwrap_or(Seg::Ds);
    let value = load(regs, lin, seg, table_offset(regs, insn.wide), Size::B1)?;
    set_reg(regs, ACCUMULATOR, Size::B1, value);
    Ok(())
}
