//! PUSHF and POPF.

ghost use Rattle.std.specs.Prelude.{◌≡◌, OnErr};
ghost use Rattle.mdl_state.specs.Serving.{by_pick};
ghost use Rattle.mdl_state.specs.Accesses.{Keeps, HasRoom};
ghost use Rattle.mdl_state.specs.Attempt.{tried};
ghost use Rattle.mdl_cpu.specs.SystemFlags.{taken_flags};
ghost use Rattle.mdl_effect.specs.InterruptEffects.{push_flags_plan, pop_flags_plan};
ghost use Rattle.operands.specs.Whole.{ran};

use mdl_insn::Insn;
use mdl_num::low;
use mdl_state::{Fault, Next, Regs};
use mem_iface::Linear;
use privilege_checks::iopl_allows;
use seg_unit::{pop, push};
use v86_mode::sensitive;

/// CF, PF, AF, ZF, SF, TF, DF, OF and NT, which an image gives at every privilege level.
const COMMON_FLAGS: u32 = 0x4DD5;

/// IF, which it gives where the level is at most IOPL.
const INTERRUPT: u32 = 0x200;

/// Both bits of IOPL, which it gives at level 0.
const IO_LEVELS: u32 = 0x3000;

/// The flags that an image gives.
fn taken_flags(regs: &Regs) -> u32
    ensures { result ≡ taken_flags regs.now }
{
    let levels = if regs.cpl == 0 { IO_LEVELS } else { 0 };
    let interrupt = if iopl_allows(regs) { INTERRUPT } else { 0 };
    COMMON_FLAGS + levels + interrupt
}

/// PUSHF, which in V86 needs an IOPL of 3.
#[tactic(auto, using(mdl_state::specs::Rules::attempts), unfolding(mdl_effect::specs::InterruptEffects::push_flags_plan))]
pub(crate) fn push_flags<L: Linear>(
    regs: &mut Regs,
    lin: &mut L,
    insn: &Insn,
) -> Result<Next, Fault>
    requires room { HasRoom (L.seen lin.old) 6 }
    ensures run { (ran result regs.new, L.seen lin.new)
        ≡ tried (by_pick L.pick) 0 (push_flags_plan insn.now regs.old) (L.seen lin.old) }
    ensures unchanged { OnErr result (regs.new ≡ regs.old) }
    ensures keeps { Keeps (L.seen lin.old) (L.seen lin.new) }
{
    sensitive(regs)?;
    let image = low(regs.eflags as u64, insn.size);
    push(regs, lin, insn.size, image)?;
    Ok(Next::Follow)
}

/// POPF, which in V86 needs an IOPL of 3.
#[tactic(auto, using(mdl_state::specs::Rules::attempts), unfolding(mdl_effect::specs::InterruptEffects::pop_flags_plan))]
pub(crate) fn pop_flags<L: Linear>(regs: &mut Regs, lin: &mut L, insn: &Insn) -> Result<Next, Fault>
    ensures run { (ran result regs.new, L.seen lin.new)
        ≡ tried (by_pick L.pick) 0 (pop_flags_plan insn.now regs.old) (L.seen lin.old) }
    ensures unchanged { OnErr result (regs.new ≡ regs.old) }
    ensures keeps { Keeps (L.seen lin.old) (L.seen lin.new) }
{
    sensitive(regs)?;
    let eflags = regs.eflags;
    let flags = taken_flags(regs);
    let image = pop(regs, lin, insn.size)?;
    regs.eflags = (image & flags) | (eflags & !flags);
    Ok(Next::Follow)
}
