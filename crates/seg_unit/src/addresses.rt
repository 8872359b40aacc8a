//! The offset of a memory operand.

ghost use Rattle.std.specs.Prelude.{◌≡◌, ◌%◌};
ghost use Rattle.mdl_cpu.specs.Addresses.{part_of, offset_bound, offset_of, IsPart, IsAddress};

use mdl_insn::Mem;
use mdl_state::Regs;

/// A register that takes part in an address, or 0.
fn part(regs: &Regs, register: Option<u8>) -> u32
    requires { IsPart register }
    ensures { result ≡ part_of regs.now register }
{
    match register {
        Some(number) => regs.gpr[number as usize],
        None => 0,
    }
}

/// An offset modulo the address size.
pub fn cut(offset: u64, wide: bool) -> u32
    ensures { result ≡ offset % offset_bound wide }
{
    if wide {
        (offset % 0x1_0000_0000) as u32
    } else {
        (offset % 0x1_0000) as u32
    }
}

/// The offset of a memory operand, cut to its address size.
///
/// An operand of an instruction that some bytes spell meets the condition, by
/// `mdl_cpu::operands_address_by_registers`.
#[tactic(auto, unfolding(mdl_cpu::specs::Addresses::offset_of))]
pub fn address(regs: &Regs, mem: &Mem) -> u32
    requires { IsAddress mem.now }
    ensures { result ≡ offset_of regs.now mem.now }
{
    let base = part(regs, mem.base) as u64;
    let index = part(regs, mem.index) as u64;
    let sum = base + index * mem.scale as u64 + mem.disp as u64;
    cut(sum, mem.wide)
}
