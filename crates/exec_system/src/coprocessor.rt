//! WAIT and ESC. There is no coprocessor.

ghost use Rattle.std.specs.Prelude.{◌≡◌};
ghost use Rattle.mdl_state.specs.State.{Mem};
ghost use Rattle.mdl_state.specs.Serving.{Serve};
ghost use Rattle.mdl_state.specs.Attempt.{tried};
ghost use Rattle.mdl_effect.specs.ControlEffects.{no_coprocessor, wait_plan, escape_plan};
ghost use Rattle.operands.specs.Whole.{ran};

use crate::control::{EMULATION, MONITOR, TASK_SWITCHED};
use mdl_num::bit;
use mdl_state::{Fault, Next, Regs};

/// The vector of a coprocessor that is not available.
const NO_COPROCESSOR: u8 = 7;

/// Its fault.
fn no_coprocessor() -> Fault
    ensures { result ≡ no_coprocessor }
{
    Fault {
        vector: NO_COPROCESSOR,
        code: 0,
        addr: 0,
    }
}

/// WAIT.
#[tactic(auto, unfolding(mdl_effect::specs::ControlEffects::wait_plan, mdl_num::specs::Flags::is_set))]
pub(crate) fn wait(regs: &Regs) -> Result<Next, Fault>
    ensures { (serve : Serve) (m : Mem) → (ran result regs.now, m) ≡ tried serve 0 (wait_plan regs.now) m }
{
    if bit(regs.cr0, MONITOR) && bit(regs.cr0, TASK_SWITCHED) {
        return Err(no_coprocessor());
    }
    Ok(Next::Follow)
}

/// ESC.
#[tactic(auto, unfolding(mdl_effect::specs::ControlEffects::escape_plan, mdl_num::specs::Flags::is_set))]
pub(crate) fn escape(regs: &Regs) -> Result<Next, Fault>
    ensures { (serve : Serve) (m : Mem) → (ran result regs.now, m) ≡ tried serve 0 (escape_plan regs.now) m }
{
    if bit(regs.cr0, EMULATION) || bit(regs.cr0, TASK_SWITCHED) {
        return Err(no_coprocessor());
    }
    Ok(Next::Follow)
}
