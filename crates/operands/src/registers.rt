//! General registers by number.

ghost use Rattle.std.specs.Prelude.{◌≡◌, ◌<◌, ℕ};
ghost use Rattle.mdl_state.specs.Bytes.{bound_of};
ghost use Rattle.mdl_state.specs.Registers.{reg_of, with_reg};
ghost use Rattle.operands.specs.Whole.{whole, KeepsOther};

use mdl_state::{Regs, Size};

/// The accumulator's number: that of AL, AX and EAX.
pub const ACCUMULATOR: u8 = 0;
/// The number of CL, CX and ECX.
pub const COUNT: u8 = 1;
/// The data register's number: that of DL, DX and EDX.
pub const DATA: u8 = 2;
/// The number of BL, BX and EBX.
pub const BASE: u8 = 3;
/// The stack pointer's number: that of SP and ESP.
pub const STACK: u8 = 4;
/// The number of BP and EBP.
pub const FRAME: u8 = 5;
/// The number of SI and ESI.
pub const SOURCE: u8 = 6;
/// The number of DI and EDI.
pub const DESTINATION: u8 = 7;
/// The number of AH among the registers of one byte.
pub const AH: u8 = 4;

/// A register's number.
#[tactic(auto, unfolding(mdl_state::specs::Registers::reg_of))]
#[inline(always)]
pub fn reg(regs: &Regs, n: u8, size: Size) -> u32
    requires { n < 8 }
    ensures value { (flags : ℕ) → result ≡ reg_of (whole regs.now flags) n size }
    ensures bound { result < bound_of size }
{
    match size {
        Size::B1 => {
            if n < 4 {
                regs.gpr[n as usize] % 0x100
            } else {
                regs.gpr[n as usize - 4] / 0x100 % 0x100
            }
        }
        Size::B2 => regs.gpr[n as usize] % 0x1_0000,
        Size::B4 => regs.gpr[n as usize],
    }
}

/// Sets a register.
#[tactic(auto, unfolding(mdl_state::specs::Registers::with_reg))]
#[inline(always)]
pub fn set_reg(regs: &mut Regs, n: u8, size: Size, value: u32)
    requires number { n < 8 }
    requires bound { value < bound_of size }
    ensures value { (flags : ℕ) → whole regs.new flags ≡ with_reg (whole regs.old flags) n size value }
    ensures kept { KeepsOther regs.old regs.new }
{
    match size {
        Size::B1 => {
            if n < 4 {
                let old = regs.gpr[n as usize];
                regs.gpr[n as usize] = old - old % 0x100 + value;
            } else {
                let old = regs.gpr[n as usize - 4];
                regs.gpr[n as usize - 4] = old - old % 0x1_0000 + 0x100 * value + old % 0x100;
            }
        }
        Size::B2 => {
            let old = regs.gpr[n as usize];
            regs.gpr[n as usize] = old - old % 0x1_0000 + value;
        }
        Size::B4 => regs.gpr[n as usize] = value,
    }
}
