//! Instructions that are refused in V86 so that a monitor can do what they ask.

ghost use Rattle.std.specs.Prelude.{◌≡◌};
ghost use Rattle.mdl_cpu.specs.Faults.{first_of};
ghost use Rattle.mdl_cpu.specs.Virtual.{sensitive_rows};

use desc_load::{fault_at, is_virtual};
use mdl_state::{Fault, Regs};
use privilege_checks::io_level;

/// The vector of a general protection fault.
const GENERAL_PROTECTION: u8 = 13;

/// The level of V86, which IOPL has to reach.
const V86_LEVEL: u32 = 3;

/// The row of CLI, STI, PUSHF, POPF, INT n and IRET in V86: #GP(0) where IOPL is below 3. INT 3 and INTO
/// do not ask it. Chapter 15.
pub fn sensitive(regs: &Regs) -> Result<(), Fault>
    ensures { result ≡ first_of (sensitive_rows regs.now) }
{
    if is_virtual(regs) && io_level(regs) < V86_LEVEL {
        return Err(fault_at(GENERAL_PROTECTION, 0));
    }
    Ok(())
}
