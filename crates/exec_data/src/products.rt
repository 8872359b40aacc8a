//! Products and quotients.

ghost use Rattle.std.specs.Prelude.{◌≡◌, ◌<◌, ℕ, true, false, IfOk, IfErr, OnErr};
ghost use Rattle.mdl_state.specs.Bytes.{bound_of};
ghost use Rattle.mdl_effect.specs.Operands.{is_nothing};
ghost use Rattle.mdl_effect.specs.Operands.{follow};
ghost use Rattle.mdl_effect.specs.Arithmetic.{divide_error, multiply_plan, signed_multiply_plan, quotient_plan, divide_plan, signed_divide_plan};
ghost use Rattle.operands.specs.Whole.{whole, done, IsPlainOf, KeepsOther};

use crate::pairs::{pair, set_pair};
use alu_ops::{div, idiv, imul, mul};
use lazy_flags::Flags;
use mdl_insn::Insn;
use mdl_num::DivideError;
use mdl_state::{Fault, Regs, Size};
use operands::{ACCUMULATOR, is_nothing, keep, reg, set, value};

/// The fault of a quotient that there is not.
pub(crate) fn divide_error() -> Fault
    ensures { result ≡ divide_error }
{
    Fault {
        vector: 0,
        code: 0,
        addr: 0,
    }
}

/// MUL.
#[tactic(auto, unfolding(mdl_effect::specs::Arithmetic::multiply_plan))]
pub(crate) fn multiply(regs: &mut Regs, flags: &mut Flags, insn: &Insn)
    requires { IsPlainOf insn.now.size insn.now.a }
    ensures plan { follow (whole regs.new flags.new)
        ≡ multiply_plan insn.now (whole regs.old flags.old) (whole regs.new flags.new).eflags }
    ensures kept { KeepsOther regs.old regs.new }
{
    let a = value(regs, &insn.a, insn.size);
    let low = reg(regs, ACCUMULATOR, insn.size);
    let product = mul(low, a, insn.size, flags.pack(regs.eflags));
    set_pair(regs, insn.size, product.low, product.high);
    keep(flags, product.flags);
}

/// IMUL with one operand.
#[tactic(auto, unfolding(mdl_effect::specs::Arithmetic::signed_multiply_plan))]
fn multiply_accumulator(regs: &mut Regs, flags: &mut Flags, insn: &Insn)
    requires a { IsPlainOf insn.now.size insn.now.a }
    requires b { is_nothing insn.now.b ≡ true }
    ensures plan { follow (whole regs.new flags.new)
        ≡ signed_multiply_plan insn.now (whole regs.old flags.old) (whole regs.new flags.new).eflags }
    ensures kept { KeepsOther regs.old regs.new }
{
    let a = value(regs, &insn.a, insn.size);
    let low = reg(regs, ACCUMULATOR, insn.size);
    let product = imul(low, a, insn.size, flags.pack(regs.eflags));
    set_pair(regs, insn.size, product.low, product.high);
    keep(flags, product.flags);
}

/// IMUL with two operands, the first of which is a factor.
#[tactic(auto, unfolding(mdl_effect::specs::Arithmetic::signed_multiply_plan))]
fn multiply_operand(regs: &mut Regs, flags: &mut Flags, insn: &Insn)
    requires a { IsPlainOf insn.now.size insn.now.a }
    requires b { IsPlainOf insn.now.size insn.now.b }
    requires some { is_nothing insn.now.b ≡ false }
    requires c { is_nothing insn.now.c ≡ true }
    ensures plan { follow (whole regs.new flags.new)
        ≡ signed_multiply_plan insn.now (whole regs.old flags.old) (whole regs.new flags.new).eflags }
    ensures kept { KeepsOther regs.old regs.new }
{
    let b = value(regs, &insn.b, insn.size);
    let a = value(regs, &insn.a, insn.size);
    let product = imul(a, b, insn.size, flags.pack(regs.eflags));
    keep(flags, product.flags);
    set(regs, &insn.a, insn.size, product.low);
}

/// IMUL with three operands.
#[tactic(auto, unfolding(mdl_effect::specs::Arithmetic::signed_multiply_plan))]
fn multiply_others(regs: &mut Regs, flags: &mut Flags, insn: &Insn)
    requires a { IsPlainOf insn.now.size insn.now.a }
    requires b { IsPlainOf insn.now.size insn.now.b }
    requires c { IsPlainOf insn.now.size insn.now.c }
    requires some_b { is_nothing insn.now.b ≡ false }
    requires some_c { is_nothing insn.now.c ≡ false }
    ensures plan { follow (whole regs.new flags.new)
        ≡ signed_multiply_plan insn.now (whole regs.old flags.old) (whole regs.new flags.new).eflags }
    ensures kept { KeepsOther regs.old regs.new }
{
    let b = value(regs, &insn.b, insn.size);
    let c = value(regs, &insn.c, insn.size);
    let product = imul(b, c, insn.size, flags.pack(regs.eflags));
    keep(flags, product.flags);
    set(regs, &insn.a, insn.size, product.low);
}

/// IMUL.
pub(crate) fn signed_multiply(regs: &mut Regs, flags: &mut Flags, insn: &Insn)
    requires a { IsPlainOf insn.now.size insn.now.a }
    requires b { IsPlainOf insn.now.size insn.now.b }
    requires c { IsPlainOf insn.now.size insn.now.c }
    ensures plan { follow (whole regs.new flags.new)
        ≡ signed_multiply_plan insn.now (whole regs.old flags.old) (whole regs.new flags.new).eflags }
    ensures kept { KeepsOther regs.old regs.new }
{
    if is_nothing(&insn.b) {
        multiply_accumulator(regs, flags, insn);
    } else if is_nothing(&insn.c) {
        multiply_operand(regs, flags, insn);
    } else {
        multiply_others(regs, flags, insn);
    }
}

/// The quotient and the remainder put into their halves. The flags are left as they were.
#[tactic(auto, using(crate::proofs::Quotients::quotients))]
fn set_quotient(
    regs: &mut Regs,
    size: Size,
    divided: Result<(u32, u32), DivideError>,
) -> Result<(), Fault>
    requires { IfOk divided (λ d. (d.0 < bound_of size) × (d.1 < bound_of size)) }
    ensures plan { (flags : ℕ) → done result (whole regs.new flags)
        ≡ quotient_plan (whole regs.old flags) size (whole regs.new flags).eflags divided }
    ensures kept { KeepsOther regs.old regs.new }
    ensures fault { IfErr result (λ fault. fault ≡ divide_error) }
    ensures unchanged { OnErr result (regs.new ≡ regs.old) }
{
    match divided {
        Ok((quotient, remainder)) => {
            set_pair(regs, size, quotient, remainder);
            Ok(())
        }
        Err(DivideError) => Err(divide_error()),
    }
}

/// DIV.
#[tactic(auto, unfolding(mdl_effect::specs::Arithmetic::divide_plan))]
pub(crate) fn divide(regs: &mut Regs, insn: &Insn) -> Result<(), Fault>
    requires { IsPlainOf insn.now.size insn.now.a }
    ensures plan { (flags : ℕ) → done result (whole regs.new flags)
        ≡ divide_plan insn.now (whole regs.old flags) (whole regs.new flags).eflags }
    ensures kept { KeepsOther regs.old regs.new }
    ensures fault { IfErr result (λ fault. fault ≡ divide_error) }
    ensures unchanged { OnErr result (regs.new ≡ regs.old) }
{
    let by = value(regs, &insn.a, insn.size);
    let (low, high) = pair(regs, insn.size);
    set_quotient(regs, insn.size, div(high, low, by, insn.size))
}

/// IDIV.
#[tactic(auto, unfolding(mdl_effect::specs::Arithmetic::signed_divide_plan))]
pub(crate) fn signed_divide(regs: &mut Regs, insn: &Insn) -> Result<(), Fault>
    requires { IsPlainOf insn.now.size insn.now.a }
    ensures plan { (flags : ℕ) → done result (whole regs.new flags)
        ≡ signed_divide_plan insn.now (whole regs.old flags) (whole regs.new flags).eflags }
    ensures kept { KeepsOther regs.old regs.new }
    ensures fault { IfErr result (λ fault. fault ≡ divide_error) }
    ensures unchanged { OnErr result (regs.new ≡ regs.old) }
{
    let by = value(regs, &insn.a, insn.size);
    let (low, high) = pair(regs, insn.size);
    set_quotient(regs, insn.size, idiv(high, low, by, insn.size))
}
