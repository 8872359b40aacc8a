//! Operands in memory.

ghost use Rattle.std.specs.Prelude.{◌≡◌, ◌<◌, ◌+◌, ℕ, true, length, IfOk, IfErr, OnOk, OnErr};
ghost use Rattle.mdl_state.specs.Bytes.{bytes_of, bound_of};
ghost use Rattle.mdl_state.specs.Serving.{by_pick, outcome, Failed};
ghost use Rattle.mdl_state.specs.Accesses.{Keeps, IsPlace, HasRoom};
ghost use Rattle.mdl_state.specs.Attempt.{tried};
ghost use Rattle.mdl_cpu.specs.Addresses.{offset_of, IsAddress, HasAddress};
ghost use Rattle.mdl_effect.specs.Operands.{size_of, Made, memory_read, memory_write, memory_change};
ghost use Rattle.mdl_effect.specs.Kinds.{is_memory};
ghost use Rattle.mdl_effect.specs.Forms.{IsOf};
ghost use Rattle.operands.specs.Whole.{whole};
ghost use Rattle.operands.specs.Memory.{changed};

use crate::memory::{load, open_at, store};
use mdl_insn::{Mem, Operand};
use mdl_state::{Fault, Place, Regs, Size};
use mem_iface::Linear;
use seg_unit::address;

/// The offset of a memory operand.
#[tactic(auto, unfolding(mdl_cpu::specs::Addresses::offset_of))]
#[inline(always)]
pub fn offset(regs: &Regs, mem: &Mem) -> u32
    requires { IsAddress mem.now }
    ensures { (flags : ℕ) → result ≡ offset_of (whole regs.now flags) mem.now }
{
    address(regs, mem)
}

/// The number of a memory operand.
#[tactic(auto, unfolding(mdl_effect::specs::Operands::memory_read))]
#[inline(always)]
pub fn read<L: Linear>(regs: &Regs, lin: &mut L, operand: &Operand) -> Result<u32, Fault>
    requires memory { is_memory operand.now ≡ true }
    requires address { HasAddress operand.now }
    ensures run { (flags : ℕ) → (outcome result, L.seen lin.new)
        ≡ tried (by_pick L.pick) 0 (memory_read (whole regs.now flags) operand.now) (L.seen lin.old) }
    ensures bound { IfOk result (λ value. value < bound_of (size_of operand.now)) }
    ensures keeps { Keeps (L.seen lin.old) (L.seen lin.new) }
    ensures held { (L.seen lin.new).held ≡ (L.seen lin.old).held }
{
    match operand {
        Operand::At(mem, size) => load(regs, lin, mem.seg, offset(regs, mem), *size),
        _ => unreachable!(),
    }
}

/// The same where the operand has this size.
#[tactic(auto, unfolding(mdl_effect::specs::Operands::memory_read))]
#[inline(always)]
pub fn read_sized<L: Linear>(
    regs: &Regs,
    lin: &mut L,
    operand: &Operand,
    size: Size,
) -> Result<u32, Fault>
    requires memory { is_memory operand.now ≡ true }
    requires form { IsOf size operand.now }
    requires address { HasAddress operand.now }
    ensures run { (flags : ℕ) → (outcome result, L.seen lin.new)
        ≡ tried (by_pick L.pick) 0 (memory_read (whole regs.now flags) operand.now) (L.seen lin.old) }
    ensures bound { IfOk result (λ value. value < bound_of size) }
    ensures keeps { Keeps (L.seen lin.old) (L.seen lin.new) }
    ensures held { (L.seen lin.new).held ≡ (L.seen lin.old).held }
{
    match operand {
        Operand::At(mem, _) => load(regs, lin, mem.seg, offset(regs, mem), size),
        _ => unreachable!(),
    }
}

/// A number put into a memory operand.
#[tactic(auto, unfolding(mdl_effect::specs::Operands::memory_write))]
#[inline(always)]
pub fn write<L: Linear>(
    regs: &Regs,
    lin: &mut L,
    operand: &Operand,
    size: Size,
    value: u32,
) -> Result<(), Fault>
    requires memory { is_memory operand.now ≡ true }
    requires form { IsOf size operand.now }
    requires address { HasAddress operand.now }
    requires bound { value < bound_of size }
    requires room { HasRoom (L.seen lin.old) (bytes_of size) }
    ensures run { (flags : ℕ) → (outcome result, L.seen lin.new)
        ≡ tried (by_pick L.pick) 0 (memory_write (whole regs.now flags) operand.now value) (L.seen lin.old) }
    ensures keeps { Keeps (L.seen lin.old) (L.seen lin.new) }
    ensures room { OnOk result (length (L.seen lin.new).held ≡ length (L.seen lin.old).held + bytes_of size) }
    ensures refused { OnErr result ((L.seen lin.new).held ≡ (L.seen lin.old).held) }
{
    match operand {
        Operand::At(mem, _) => store(regs, lin, mem.seg, offset(regs, mem), size, value),
        _ => unreachable!(),
    }
}

/// The place of a memory operand that is read and then written.
#[tactic(auto, unfolding(mdl_effect::specs::Operands::memory_change))]
#[inline(always)]
pub fn open<L: Linear>(
    regs: &Regs,
    lin: &mut L,
    operand: &Operand,
    size: Size,
) -> Result<Place, Fault>
    requires memory { is_memory operand.now ≡ true }
    requires form { IsOf size operand.now }
    requires address { HasAddress operand.now }
    ensures passed { IfOk result (λ place. (flags : ℕ) (make : ℕ → Made) →
        tried (by_pick L.pick) 0 (memory_change (whole regs.now flags) operand.now make) (L.seen lin.old) ≡ changed (L.seen lin.new) place size make) }
    ensures refused { IfErr result (λ fault. (flags : ℕ) (make : ℕ → Made) →
        tried (by_pick L.pick) 0 (memory_change (whole regs.now flags) operand.now make) (L.seen lin.old) ≡ (Failed fault, L.seen lin.new)) }
    ensures form { IfOk result (λ place. IsPlace place size) }
    ensures keeps { Keeps (L.seen lin.old) (L.seen lin.new) }
    ensures held { (L.seen lin.new).held ≡ (L.seen lin.old).held }
{
    match operand {
        Operand::At(mem, _) => open_at(regs, lin, mem.seg, offset(regs, mem), size),
        _ => unreachable!(),
    }
}
