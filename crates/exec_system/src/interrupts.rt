//! Software interrupts, the interrupt flag, and HLT.

ghost use Rattle.std.specs.Prelude.{◌≡◌, true, OnErr};
ghost use Rattle.mdl_state.specs.declared.Size.TheVariants.{B1};
ghost use Rattle.mdl_state.specs.declared.Regs.{Regs};
ghost use Rattle.mdl_state.specs.State.{Mem};
ghost use Rattle.mdl_state.specs.Serving.{Serve};
ghost use Rattle.mdl_state.specs.Attempt.{tried};
ghost use Rattle.mdl_cpu.specs.Faults.{first_of};
ghost use Rattle.mdl_effect.specs.Operands.{value_of};
ghost use Rattle.mdl_effect.specs.Kinds.{is_number};
ghost use Rattle.mdl_effect.specs.Forms.{IsOf};
ghost use Rattle.mdl_effect.specs.InterruptEffects.{io_rows, numbered_interrupt_plan, overflow_plan, clear_interrupts_plan, set_interrupts_plan, halt_plan};
ghost use Rattle.operands.specs.Whole.{ran};

use mdl_insn::Operand;
use mdl_num::{OF, bit, with_bit};
use mdl_state::{Fault, Next, Regs};
use operands::general_protection;
use privilege_checks::iopl_allows;
use v86_mode::sensitive;

/// The vector of INT 3.
pub(crate) const BREAKPOINT: u8 = 3;

/// The vector of INTO.
const OVERFLOW: u8 = 4;

/// The number of IF in EFLAGS.
const INTERRUPT: u8 = 9;

/// The vector of INT n.
fn vector(operand: &Operand) -> u8
    requires number { is_number operand.now ≡ true }
    requires form { IsOf B1 operand.now }
    ensures { (r : Regs) → result ≡ value_of r operand.now }
{
    match operand {
        Operand::Imm(value, _) => *value as u8,
        _ => unreachable!(),
    }
}

/// INT n, which in V86 needs an IOPL of 3.
#[tactic(auto, unfolding(mdl_effect::specs::InterruptEffects::numbered_interrupt_plan, mdl_effect::specs::InterruptEffects::interrupt_plan))]
pub(crate) fn interrupt(regs: &Regs, operand: &Operand) -> Result<Next, Fault>
    requires number { is_number operand.now ≡ true }
    requires form { IsOf B1 operand.now }
    ensures { (serve : Serve) (m : Mem) → (ran result regs.now, m)
        ≡ tried serve 0 (numbered_interrupt_plan (value_of regs.now operand.now) regs.now) m }
{
    sensitive(regs)?;
    Ok(Next::Soft(vector(operand)))
}

/// INTO.
#[tactic(auto, unfolding(mdl_effect::specs::InterruptEffects::overflow_plan, mdl_effect::specs::InterruptEffects::interrupt_plan))]
pub(crate) fn overflow(regs: &Regs) -> Result<Next, Fault>
    ensures { (serve : Serve) (m : Mem) → (ran result regs.now, m) ≡ tried serve 0 (overflow_plan regs.now) m }
{
    if bit(regs.eflags, OF) {
        Ok(Next::Soft(OVERFLOW))
    } else {
        Ok(Next::Follow)
    }
}

/// The row of CLI and STI: a level above IOPL.
fn io_rows(regs: &Regs) -> Result<(), Fault>
    ensures { result ≡ first_of (io_rows regs.now) }
{
    if !iopl_allows(regs) {
        return Err(general_protection(0));
    }
    Ok(())
}

/// CLI.
#[tactic(auto, unfolding(mdl_effect::specs::InterruptEffects::clear_interrupts_plan))]
pub(crate) fn clear_interrupts(regs: &mut Regs) -> Result<Next, Fault>
    ensures run { (serve : Serve) (m : Mem) → (ran result regs.new, m) ≡ tried serve 0 (clear_interrupts_plan regs.old) m }
    ensures unchanged { OnErr result (regs.new ≡ regs.old) }
{
    io_rows(regs)?;
    regs.eflags = with_bit(regs.eflags, INTERRUPT, false);
    Ok(Next::Follow)
}

/// STI.
#[tactic(auto, unfolding(mdl_effect::specs::InterruptEffects::set_interrupts_plan))]
pub(crate) fn set_interrupts(regs: &mut Regs) -> Result<Next, Fault>
    ensures run { (serve : Serve) (m : Mem) → (ran result regs.new, m) ≡ tried serve 0 (set_interrupts_plan regs.old) m }
    ensures unchanged { OnErr result (regs.new ≡ regs.old) }
{
    io_rows(regs)?;
    regs.eflags = with_bit(regs.eflags, INTERRUPT, true);
    Ok(Next::HoldIntr)
}

/// HLT.
#[tactic(auto, unfolding(mdl_effect::specs::InterruptEffects::halt_plan))]
pub(crate) fn halt(regs: &Regs) -> Result<Next, Fault>
    ensures { (serve : Serve) (m : Mem) → (ran result regs.now, m) ≡ tried serve 0 (halt_plan regs.now) m }
{
    if regs.cpl != 0 {
        return Err(general_protection(0));
    }
    Ok(Next::Halt)
}
