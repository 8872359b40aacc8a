//! Decimal adjusts.

ghost use Rattle.std.specs.Prelude.{◌≡◌, ◌<◌, ◌^◌, IfErr, OnErr};
ghost use Rattle.mdl_state.specs.declared.Size.TheVariants.{B1};
ghost use Rattle.mdl_num.specs.Flags.{flags_after};
ghost use Rattle.mdl_effect.specs.Operands.{follow};
ghost use Rattle.mdl_effect.specs.Arithmetic.{divide_error, adjust, adjust_plan, digits_plan, from_digits_plan};
ghost use Rattle.operands.specs.Whole.{whole, done, IsPlainOf, KeepsOther};

use crate::products::divide_error;
use alu_ops::{aaa, aad, aam, aas, daa, das};
use lazy_flags::Flags;
use mdl_insn::{Insn, Op};
use mdl_num::{Alu, DivideError};
use mdl_state::{Fault, Regs, Size};
use operands::{ACCUMULATOR, keep, reg, set_reg, value};

/// AX adjusted as the mnemonic says.
#[tactic(auto, using(operands::proofs::Statuses::statuses))]
fn adjusted(op: Op, ax: u32, flags: u32) -> Alu
    requires { ax < 2 ^ 16 }
    ensures value { result.value ≡ (adjust op ax flags).value }
    ensures bound { result.value < 2 ^ 16 }
    ensures flags { result.flags ≡ flags_after (adjust op ax flags).status flags result.flags }
{
    match op {
        Op::Daa => daa(ax, flags),
        Op::Das => das(ax, flags),
        Op::Aaa => aaa(ax, flags),
        Op::Aas => aas(ax, flags),
        _ => Alu { value: ax, flags },
    }
}

/// DAA, DAS, AAA and AAS.
#[tactic(auto, unfolding(mdl_effect::specs::Arithmetic::adjust_plan))]
pub(crate) fn adjust(regs: &mut Regs, flags: &mut Flags, insn: &Insn)
    ensures plan { follow (whole regs.new flags.new)
        ≡ adjust_plan insn.now (whole regs.old flags.old) (whole regs.new flags.new).eflags }
    ensures kept { KeepsOther regs.old regs.new }
{
    let ax = reg(regs, ACCUMULATOR, Size::B2);
    let answer = adjusted(insn.op, ax, flags.pack(regs.eflags));
    set_reg(regs, ACCUMULATOR, Size::B2, answer.value);
    keep(flags, answer.flags);
}

/// AAM.
#[tactic(auto, unfolding(mdl_effect::specs::Arithmetic::digits_plan))]
pub(crate) fn digits(regs: &mut Regs, flags: &mut Flags, insn: &Insn) -> Result<(), Fault>
    requires { IsPlainOf B1 insn.now.a }
    ensures plan { done result (whole regs.new flags.new)
        ≡ digits_plan insn.now (whole regs.old flags.old) (whole regs.new flags.new).eflags }
    ensures kept { KeepsOther regs.old regs.new }
    ensures fault { IfErr result (λ fault. fault ≡ divide_error) }
    ensures unchanged { OnErr result ((regs.new ≡ regs.old) × (flags.new ≡ flags.old)) }
{
    let base = value(regs, &insn.a, Size::B1) as u8;
    let ax = reg(regs, ACCUMULATOR, Size::B2);
    match aam(ax, base, flags.pack(regs.eflags)) {
        Ok(answer) => {
            set_reg(regs, ACCUMULATOR, Size::B2, answer.value);
            keep(flags, answer.flags);
            Ok(())
        }
        Err(DivideError) => Err(divide_error()),
    }
}

/// AAD.
#[tactic(auto, unfolding(mdl_effect::specs::Arithmetic::from_digits_plan))]
pub(crate) fn from_digits(regs: &mut Regs, flags: &mut Flags, insn: &Insn)
    requires { IsPlainOf B1 insn.now.a }
    ensures plan { follow (whole regs.new flags.new)
        ≡ from_digits_plan insn.now (whole regs.old flags.old) (whole regs.new flags.new).eflags }
    ensures kept { KeepsOther regs.old regs.new }
{
    let base = value(regs, &insn.a, Size::B1) as u8;
    let ax = reg(regs, ACCUMULATOR, Size::B2);
    let answer = aad(ax, base, flags.pack(regs.eflags));
    set_reg(regs, ACCUMULATOR, Size::B2, answer.value);
    keep(flags, answer.flags);
}
