//! Bit tests and scans.

ghost use Rattle.std.specs.Prelude.{◌≡◌, ◌≢◌, ◌<◌};
ghost use Rattle.mdl_state.specs.declared.Size.TheVariants.{B1};
ghost use Rattle.mdl_state.specs.Bytes.{bits_of};
ghost use Rattle.mdl_effect.specs.Operands.{follow};
ghost use Rattle.mdl_effect.specs.Shifts.{bit_place, bit_test_plan, bit_change_plan, scan_plan};
ghost use Rattle.operands.specs.Whole.{whole, IsPlainOf, IsPlainWithin, KeepsOther};

use lazy_flags::Flags;
use mdl_insn::Insn;
use mdl_num::{BitOp, bits};
use mdl_state::{Regs, Size};
use operands::{keep, narrow_value, set, value};

/// The place of a bit in the operand.
pub(crate) fn bit_place(size: Size, index: u32) -> u8
    ensures value { result ≡ bit_place size index }
    ensures bound { result < bits_of size }
{
    (index % bits(size)) as u8
}

/// BT: the flags alone.
#[tactic(auto, unfolding(mdl_effect::specs::Shifts::bit_test_plan))]
pub(crate) fn bit_test(regs: &Regs, flags: &mut Flags, insn: &Insn)
    requires size { insn.now.size ≢ B1 }
    requires a { IsPlainOf insn.now.size insn.now.a }
    requires b { IsPlainWithin insn.now.size insn.now.b }
    ensures plan { follow (whole regs.now flags.new)
        ≡ bit_test_plan insn.now (whole regs.now flags.old) (whole regs.now flags.new).eflags }
{
    let place = bit_place(insn.size, narrow_value(regs, &insn.b, insn.size));
    let a = value(regs, &insn.a, insn.size);
    let eflags = flags.pack(regs.eflags);
    let answer = bit_ops::bit_test(BitOp::Bt, a, place, insn.size, eflags);
    keep(flags, answer.flags);
}

/// BTS, BTR and BTC.
#[tactic(auto, unfolding(mdl_effect::specs::Shifts::bit_change_plan))]
pub(crate) fn bit_change(regs: &mut Regs, flags: &mut Flags, insn: &Insn, op: BitOp)
    requires size { insn.now.size ≢ B1 }
    requires a { IsPlainOf insn.now.size insn.now.a }
    requires b { IsPlainWithin insn.now.size insn.now.b }
    ensures plan { follow (whole regs.new flags.new)
        ≡ bit_change_plan op insn.now (whole regs.old flags.old) (whole regs.new flags.new).eflags }
    ensures kept { KeepsOther regs.old regs.new }
{
    let place = bit_place(insn.size, narrow_value(regs, &insn.b, insn.size));
    let a = value(regs, &insn.a, insn.size);
    let answer = bit_ops::bit_test(op, a, place, insn.size, flags.pack(regs.eflags));
    keep(flags, answer.flags);
    set(regs, &insn.a, insn.size, answer.value);
}

/// BSF, upwards, and BSR.
#[tactic(auto, unfolding(mdl_effect::specs::Shifts::scan_plan))]
pub(crate) fn scan(regs: &mut Regs, flags: &mut Flags, insn: &Insn, up: bool)
    requires size { insn.now.size ≢ B1 }
    requires a { IsPlainOf insn.now.size insn.now.a }
    requires b { IsPlainOf insn.now.size insn.now.b }
    ensures plan { follow (whole regs.new flags.new)
        ≡ scan_plan up insn.now (whole regs.old flags.old) (whole regs.new flags.new).eflags }
    ensures kept { KeepsOther regs.old regs.new }
{
    let source = value(regs, &insn.b, insn.size);
    let dest = value(regs, &insn.a, insn.size);
    let answer = bit_ops::scan(up, source, dest, insn.size, flags.pack(regs.eflags));
    keep(flags, answer.flags);
    set(regs, &insn.a, insn.size, answer.value);
}
