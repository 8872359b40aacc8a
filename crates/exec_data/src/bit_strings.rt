//! Bit tests in memory, where an index in a register may name a bit outside the operand.

ghost use Rattle.std.specs.Prelude.{◌≡◌, ◌≢◌, ◌<◌, ℕ, true, IfOk, IfErr, OnErr};
ghost use Rattle.mdl_state.specs.declared.Size.TheVariants.{B1};
ghost use Rattle.mdl_state.specs.Bytes.{bound_of};
ghost use Rattle.mdl_state.specs.Serving.{by_pick, outcome, Failed};
ghost use Rattle.mdl_state.specs.Accesses.{Keeps, HasRoom, IsPlace};
ghost use Rattle.mdl_state.specs.Attempt.{tried};
ghost use Rattle.mdl_cpu.specs.Addresses.{IsAddress, HasAddress};
ghost use Rattle.mdl_effect.specs.Operands.{Made};
ghost use Rattle.mdl_effect.specs.Shifts.{bit_distance, bit_offset, bit_read, bit_change, bit_test_plan, bit_change_plan};
ghost use Rattle.mdl_effect.specs.Kinds.{is_memory};
ghost use Rattle.mdl_effect.specs.Forms.{IsOf};
ghost use Rattle.operands.specs.Whole.{whole, after, IsPlainWithin};
ghost use Rattle.operands.specs.Memory.{IsMemoryOf, changed};

use crate::bits::bit_place;
use lazy_flags::Flags;
use mdl_insn::{Insn, Mem, Operand};
use mdl_num::{BitOp, bits, bound, half};
use mdl_state::{Fault, Place, Regs, Size};
use mem_iface::{Linear, bytes_of};
use operands::{cut, keep, load, narrow_value, offset, open_at};

/// How far a signed index moves the address.
fn bit_distance(size: Size, index: u32) -> u64
    requires { index < bound_of size }
    ensures value { result ≡ bit_distance size index }
    ensures bound { result < 0x200000000 }
{
    let up = bytes_of(size) as u64 * (index / bits(size)) as u64;
    if index >= half(size) {
        up + (0x1_0000_0000 - bound(size) / 8)
    } else {
        up
    }
}

/// The offset of the word or doubleword that has the bit.
fn bit_offset(regs: &Regs, mem: &Mem, named: &Operand, size: Size, index: u32) -> u32
    requires address { IsAddress mem.now }
    requires index { index < bound_of size }
    ensures { (flags : ℕ) → result ≡ bit_offset (whole regs.now flags) mem.now named.now size index }
{
    let start = offset(regs, mem);
    match named {
        Operand::Gpr(_, _) => cut(start as u64 + bit_distance(size, index), mem.wide),
        _ => start,
    }
}

/// The word or doubleword that has the bit.
fn bit_read<L: Linear>(regs: &Regs, lin: &mut L, insn: &Insn, index: u32) -> Result<u32, Fault>
    requires memory { is_memory insn.now.a ≡ true }
    requires form { IsOf insn.now.size insn.now.a }
    requires address { HasAddress insn.now.a }
    requires index { index < bound_of insn.now.size }
    ensures run { (flags : ℕ) → (outcome result, L.seen lin.new)
        ≡ tried (by_pick L.pick) 0 (bit_read (whole regs.now flags) insn.now.a insn.now index) (L.seen lin.old) }
    ensures bound { IfOk result (λ value. value < bound_of insn.now.size) }
    ensures keeps { Keeps (L.seen lin.old) (L.seen lin.new) }
{
    match &insn.a {
        Operand::At(mem, _) => {
            let offset = bit_offset(regs, mem, &insn.b, insn.size, index);
            load(regs, lin, mem.seg, offset, insn.size)
        }
        _ => unreachable!(),
    }
}

/// Its place, where it is read and then written.
fn bit_open<L: Linear>(regs: &Regs, lin: &mut L, insn: &Insn, index: u32) -> Result<Place, Fault>
    requires memory { is_memory insn.now.a ≡ true }
    requires form { IsOf insn.now.size insn.now.a }
    requires address { HasAddress insn.now.a }
    requires index { index < bound_of insn.now.size }
    ensures passed { IfOk result (λ place. (flags : ℕ) (make : ℕ → Made) →
        tried (by_pick L.pick) 0 (bit_change (whole regs.now flags) insn.now.a insn.now index make) (L.seen lin.old) ≡ changed (L.seen lin.new) place insn.now.size make) }
    ensures refused { IfErr result (λ fault. (flags : ℕ) (make : ℕ → Made) →
        tried (by_pick L.pick) 0 (bit_change (whole regs.now flags) insn.now.a insn.now index make) (L.seen lin.old) ≡ (Failed fault, L.seen lin.new)) }
    ensures form { IfOk result (λ place. IsPlace place insn.now.size) }
    ensures keeps { Keeps (L.seen lin.old) (L.seen lin.new) }
    ensures held { (L.seen lin.new).held ≡ (L.seen lin.old).held }
{
    match &insn.a {
        Operand::At(mem, _) => {
            let offset = bit_offset(regs, mem, &insn.b, insn.size, index);
            open_at(regs, lin, mem.seg, offset, insn.size)
        }
        _ => unreachable!(),
    }
}

/// BT in memory: the flags alone.
#[tactic(auto, using(mdl_state::specs::Rules::attempts), unfolding(mdl_effect::specs::Shifts::bit_test_plan))]
pub(crate) fn bit_test_memory<L: Linear>(
    regs: &Regs,
    flags: &mut Flags,
    lin: &mut L,
    insn: &Insn,
) -> Result<(), Fault>
    requires size { insn.now.size ≢ B1 }
    requires a { IsMemoryOf insn.now.size insn.now.a }
    requires b { IsPlainWithin insn.now.size insn.now.b }
    ensures run { (after result (whole regs.now flags.new), L.seen lin.new)
        ≡ tried (by_pick L.pick) 0 (bit_test_plan insn.now (whole regs.now flags.old) (whole regs.now flags.new).eflags) (L.seen lin.old) }
    ensures unchanged { OnErr result (flags.new ≡ flags.old) }
    ensures keeps { Keeps (L.seen lin.old) (L.seen lin.new) }
{
    let index = narrow_value(regs, &insn.b, insn.size);
    let a = bit_read(regs, lin, insn, index)?;
    let place = bit_place(insn.size, index);
    let eflags = flags.pack(regs.eflags);
    let answer = bit_ops::bit_test(BitOp::Bt, a, place, insn.size, eflags);
    keep(flags, answer.flags);
    Ok(())
}

/// BTS, BTR and BTC in memory.
#[tactic(auto, unfolding(mdl_effect::specs::Shifts::bit_change_plan))]
pub(crate) fn bit_change_memory<L: Linear>(
    regs: &Regs,
    flags: &mut Flags,
    lin: &mut L,
    insn: &Insn,
    op: BitOp,
) -> Result<(), Fault>
    requires size { insn.now.size ≢ B1 }
    requires a { IsMemoryOf insn.now.size insn.now.a }
    requires b { IsPlainWithin insn.now.size insn.now.b }
    requires room { HasRoom (L.seen lin.old) 4 }
    ensures run { (after result (whole regs.now flags.new), L.seen lin.new)
        ≡ tried (by_pick L.pick) 0 (bit_change_plan op insn.now (whole regs.now flags.old) (whole regs.now flags.new).eflags) (L.seen lin.old) }
    ensures unchanged { OnErr result (flags.new ≡ flags.old) }
    ensures keeps { Keeps (L.seen lin.old) (L.seen lin.new) }
{
    let index = narrow_value(regs, &insn.b, insn.size);
    let place = bit_open(regs, lin, insn, index)?;
    let a = lin.get(place, insn.size);
    let eflags = flags.pack(regs.eflags);
    let answer = bit_ops::bit_test(op, a, bit_place(insn.size, index), insn.size, eflags);
    lin.hold(place, insn.size, answer.value);
    keep(flags, answer.flags);
    Ok(())
}
