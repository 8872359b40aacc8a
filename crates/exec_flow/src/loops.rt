//! Branches by a count: the LOOP forms and JCXZ.

ghost use Rattle.std.specs.Prelude.{◌≡◌, ◌==◌, ℕ, not, true, OnErr};
ghost use Rattle.mdl_state.specs.State.{Mem};
ghost use Rattle.mdl_state.specs.Serving.{Serve};
ghost use Rattle.mdl_state.specs.Attempt.{tried};
ghost use Rattle.mdl_effect.specs.Jumps.{loop_plan, jump_if_none_plan};
ghost use Rattle.mdl_effect.specs.Kinds.{is_relative};
ghost use Rattle.mdl_effect.specs.Operands.{count_of, counted_down};
ghost use Rattle.operands.specs.Whole.{whole, ran};

use crate::jumps::{branch, displaced, is_inside};
use mdl_insn::Insn;
use mdl_state::{Fault, Next, Regs};
use operands::{count_down, count_of, general_protection};

/// Whether the count is not 0 once it is one less.
#[inline(always)]
fn is_more(regs: &Regs, wide: bool) -> bool
    ensures { (flags : ℕ) → result ≡ not (count_of (counted_down (whole regs.now flags) wide) wide == 0) }
{
    let mut counted = *regs;
    count_down(&mut counted, wide);
    count_of(&counted, wide) != 0
}

/// LOOP, LOOPE and LOOPNE. The count is set after the check of the new EIP.
#[inline(always)]
#[tactic(auto, using(crate::proofs::Targets::loops), unfolding(mdl_effect::specs::Jumps::loop_plan))]
pub(crate) fn repeat(also: bool, regs: &mut Regs, insn: &Insn, back: u32) -> Result<Next, Fault>
    requires near { is_relative insn.now.a ≡ true }
    ensures run { (flags : ℕ) (serve : Serve) (m : Mem) → (ran result (whole regs.new flags), m)
        ≡ tried serve 0 (loop_plan also insn.now (whole regs.old flags) back) m }
    ensures unchanged { OnErr result (regs.new ≡ regs.old) }
{
    let taken = is_more(regs, insn.wide) && also;
    if !taken {
        count_down(regs, insn.wide);
        return Ok(Next::Follow);
    }
    let eip = displaced(insn, back);
    if !is_inside(regs, eip) {
        return Err(general_protection(0));
    }
    count_down(regs, insn.wide);
    regs.eip = eip;
    Ok(Next::Landed)
}

/// JCXZ and JECXZ.
#[tactic(auto, unfolding(mdl_effect::specs::Jumps::jump_if_none_plan))]
#[inline(never)]
pub(crate) fn jump_if_none(regs: &mut Regs, insn: &Insn, back: u32) -> Result<Next, Fault>
    requires near { is_relative insn.now.a ≡ true }
    ensures run { (flags : ℕ) (serve : Serve) (m : Mem) → (ran result (whole regs.new flags), m)
        ≡ tried serve 0 (jump_if_none_plan insn.now (whole regs.old flags) back) m }
    ensures unchanged { OnErr result (regs.new ≡ regs.old) }
{
    let count = count_of(regs, insn.wide);
    branch(count == 0, regs, insn, back)
}
