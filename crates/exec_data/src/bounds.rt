//! BOUND.

ghost use Rattle.std.specs.Prelude.{◌≡◌, ◌<◌, ℕ, true};
ghost use Rattle.mdl_state.specs.Bytes.{bound_of};
ghost use Rattle.mdl_state.specs.Serving.{by_pick};
ghost use Rattle.mdl_state.specs.Accesses.{Keeps};
ghost use Rattle.mdl_state.specs.Attempt.{tried};
ghost use Rattle.mdl_cpu.specs.Addresses.{HasAddress};
ghost use Rattle.mdl_effect.specs.Moves.{bound_fault, is_between, bound_plan};
ghost use Rattle.mdl_effect.specs.Kinds.{is_memory};
ghost use Rattle.mdl_effect.specs.Forms.{IsOf};
ghost use Rattle.operands.specs.Whole.{whole, after};

use mdl_insn::{Insn, Operand};
use mdl_num::signed;
use mdl_state::{Fault, Regs, Size};
use mem_iface::{Linear, bytes_of};
use operands::{load, load_part, offset, value};

/// The vector of an index outside its bounds.
const BOUND_RANGE: u8 = 5;

/// The fault of an index outside its bounds.
fn bound_fault() -> Fault
    ensures { result ≡ bound_fault }
{
    Fault {
        vector: BOUND_RANGE,
        code: 0,
        addr: 0,
    }
}

/// A signed index lies between two bounds, both of them inclusive.
fn is_between(size: Size, index: u32, lower: u32, upper: u32) -> bool
    requires index { index < bound_of size }
    requires lower { lower < bound_of size }
    requires upper { upper < bound_of size }
    ensures { result ≡ is_between size index lower upper }
{
    signed(lower, size) <= signed(index, size) && signed(index, size) <= signed(upper, size)
}

/// BOUND.
#[tactic(auto, using(mdl_state::specs::Rules::attempts), unfolding(mdl_effect::specs::Moves::bound_plan))]
pub(crate) fn check_bounds<L: Linear>(regs: &Regs, lin: &mut L, insn: &Insn) -> Result<(), Fault>
    requires a { IsOf insn.now.size insn.now.a }
    requires memory { is_memory insn.now.b ≡ true }
    requires address { HasAddress insn.now.b }
    ensures run { (flags : ℕ) → (after result (whole regs.now flags), L.seen lin.new)
        ≡ tried (by_pick L.pick) 0 (bound_plan insn.now (whole regs.now flags)) (L.seen lin.old) }
    ensures keeps { Keeps (L.seen lin.old) (L.seen lin.new) }
{
    let Operand::At(mem, _) = &insn.b else {
        unreachable!();
    };
    let offset = offset(regs, mem);
    let behind = bytes_of(insn.size);
    let lower = load(regs, lin, mem.seg, offset, insn.size)?;
    let upper = load_part(regs, lin, mem.seg, offset, behind, insn.size)?;
    if !is_between(insn.size, value(regs, &insn.a, insn.size), lower, upper) {
        return Err(bound_fault());
    }
    Ok(())
}
