//! Where far JMP and CALL lead.

ghost use Rattle.std.specs.Prelude.{◌≡◌, ◌+◌, ℕ, true};
ghost use Rattle.mdl_state.specs.declared.Size.TheVariants.{B2};
ghost use Rattle.mdl_state.specs.Serving.{by_pick, outcome, on};
ghost use Rattle.mdl_state.specs.Accesses.{Keeps};
ghost use Rattle.mdl_state.specs.Attempt.{Plan, tried};
ghost use Rattle.mdl_cpu.specs.Addresses.{HasAddress};
ghost use Rattle.mdl_cpu.specs.Access.{load_from};
ghost use Rattle.mdl_effect.specs.Kinds.{is_far_target};
ghost use Rattle.mdl_effect.specs.FarEffects.{FarTransfer, far_target};

use mdl_insn::{Insn, Mem, Operand};
use mdl_state::{Fault, Regs, Seg, Size};
use mem_iface::{Linear, bytes_of};
use seg_unit::{address, check_part, load, who};

/// A selector and an offset.
#[derive(Clone, Copy)]
pub(crate) struct Pointer {
    pub(crate) selector: u16,
    pub(crate) offset: u32,
}

/// The selector of a pointer in memory, so many bytes behind its offset.
fn selector_behind<L: Linear>(
    regs: &Regs,
    lin: &mut L,
    seg: Seg,
    offset: u32,
    behind: u32,
) -> Result<u16, Fault>
    ensures run { (outcome result, L.seen lin.new)
        ≡ tried (by_pick L.pick) 0 (load_from regs.now seg (offset + behind) B2) (L.seen lin.old) }
    ensures keeps { Keeps (L.seen lin.old) (L.seen lin.new) }
    ensures held { (L.seen lin.new).held ≡ (L.seen lin.old).held }
{
    let at = check_part(regs, seg, offset, behind, Size::B2, false)?;
    let selector = lin.read(at, Size::B2, who(regs))?;
    Ok(selector as u16)
}

/// The pointer of an instruction: an immediate one, or one in memory.
#[tactic(auto, using(mdl_state::specs::Rules::attempts))]
pub(crate) fn target<L: Linear>(regs: &Regs, lin: &mut L, insn: &Insn) -> Result<Pointer, Fault>
    requires target { is_far_target insn.now.a ≡ true }
    requires address { HasAddress insn.now.a }
    ensures run { (k : ℕ → ℕ → Plan FarTransfer) →
        tried (by_pick L.pick) 0 (far_target insn.now.a insn.now.size regs.now k) (L.seen lin.old)
        ≡ on (outcome result, L.seen lin.new) (λ pointer m. tried (by_pick L.pick) 0 (k pointer.selector pointer.offset) m) }
    ensures keeps { Keeps (L.seen lin.old) (L.seen lin.new) }
    ensures held { (L.seen lin.new).held ≡ (L.seen lin.old).held }
{
    match &insn.a {
        Operand::Far(selector, offset) => Ok(Pointer {
            selector: *selector,
            offset: *offset,
        }),
        Operand::At(mem, _) => {
            let at = address(regs, mem);
            let offset = load(regs, lin, mem.seg, at, insn.size)?;
            let selector = selector_behind(regs, lin, mem.seg, at, bytes_of(insn.size))?;
            Ok(Pointer { selector, offset })
        }
        _ => unreachable!(),
    }
}
