//! Debug registers.

ghost use Rattle.std.specs.Prelude.{◌≡◌, true};
ghost use Rattle.mdl_effect.specs.ControlEffects.{debug_register, with_debug_register};
ghost use Rattle.mdl_effect.specs.Kinds.{is_debug_number};

use mdl_state::Regs;

/// B0 to B3, BD, BS and BT of DR6.
const STATUS_BITS: u32 = 0xE00F;

/// All bits of DR7 but 10 to 15.
const CONTROL_BITS: u32 = 0xFFFF_03FF;

/// A debug register.
pub(crate) fn debug_register(regs: &Regs, n: u8) -> u32
    requires { is_debug_number n ≡ true }
    ensures { result ≡ debug_register regs.now n }
{
    match n {
        6 => regs.dr6,
        7 => regs.dr7,
        _ => regs.dr[n as usize],
    }
}

/// Sets a debug register to the bits of a number that it keeps.
pub(crate) fn set_debug_register(regs: &mut Regs, n: u8, value: u32)
    requires { is_debug_number n ≡ true }
    ensures { regs.new ≡ with_debug_register regs.old n value }
{
    match n {
        6 => regs.dr6 = value & STATUS_BITS,
        7 => regs.dr7 = value & CONTROL_BITS,
        _ => regs.dr[n as usize] = value,
    }
}
