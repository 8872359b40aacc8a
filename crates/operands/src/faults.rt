//! Faults of instructions.

ghost use Rattle.std.specs.Prelude.{◌≡◌};

use mdl_state::Fault;

/// The vector of what is no instruction.
const UNDEFINED: u8 = 6;

/// The vector of a general protection fault.
const GENERAL_PROTECTION: u8 = 13;

/// The fault of an operand that no instruction has here.
pub fn no_such() -> Fault
    ensures { result ≡ record { vector = 6; code = 0; addr = 0 } }
{
    Fault {
        vector: UNDEFINED,
        code: 0,
        addr: 0,
    }
}

/// The fault of what protection does not allow, with its error code.
pub fn general_protection(code: u16) -> Fault
    ensures { result ≡ record { vector = 13; code = code; addr = 0 } }
{
    Fault {
        vector: GENERAL_PROTECTION,
        code,
        addr: 0,
    }
}
