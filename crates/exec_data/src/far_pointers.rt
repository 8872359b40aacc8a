//! LES, LDS, LSS, LFS and LGS.

ghost use Rattle.std.specs.Prelude.{◌≡◌, ℕ, true, false, OnErr};
ghost use Rattle.mdl_state.specs.Serving.{by_pick};
ghost use Rattle.mdl_state.specs.Accesses.{Keeps, HasRoom};
ghost use Rattle.mdl_state.specs.Attempt.{tried};
ghost use Rattle.mdl_cpu.specs.Addresses.{HasAddress};
ghost use Rattle.mdl_effect.specs.Moves.{pointer_plan};
ghost use Rattle.mdl_effect.specs.Kinds.{is_memory};
ghost use Rattle.mdl_effect.specs.Forms.{IsOf};
ghost use Rattle.operands.specs.Whole.{whole, after};

use crate::segments::load_segment;
use mdl_insn::{Insn, Operand};
use mdl_state::{Fault, Regs, Seg, Size};
use mem_iface::{Linear, bytes_of};
use operands::{load, load_part, offset, set};

/// A far pointer: the offset, and the selector behind it. The register is set after the load.
#[tactic(auto, using(mdl_state::specs::Rules::attempts), unfolding(mdl_effect::specs::Moves::pointer_plan))]
pub(crate) fn load_pointer<L: Linear>(
    regs: &mut Regs,
    lin: &mut L,
    insn: &Insn,
    seg: Seg,
) -> Result<(), Fault>
    requires a { IsOf insn.now.size insn.now.a }
    requires memory { is_memory insn.now.b ≡ true }
    requires address { HasAddress insn.now.b }
    requires room { HasRoom (L.seen lin.old) 1 }
    ensures run { (flags : ℕ) → (after result (whole regs.new flags), L.seen lin.new)
        ≡ tried (by_pick L.pick) 0 (pointer_plan seg insn.now (whole regs.old flags)) (L.seen lin.old) }
    ensures unchanged { OnErr result (regs.new ≡ regs.old) }
    ensures keeps { Keeps (L.seen lin.old) (L.seen lin.new) }
{
    let Operand::At(mem, _) = &insn.b else {
        unreachable!();
    };
    let start = offset(regs, mem);
    let behind = bytes_of(insn.size);
    let value = load(regs, lin, mem.seg, start, insn.size)?;
    let sel = load_part(regs, lin, mem.seg, start, behind, Size::B2)? as u16;
    load_segment(regs, lin, seg, sel)?;
    set(regs, &insn.a, insn.size, value);
    Ok(())
}
