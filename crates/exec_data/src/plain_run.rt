//! One instruction.

ghost use Rattle.std.specs.Prelude.{◌≡◌, ℕ, true, false, Bool, List, IsTrue, IfErr, OnErr};
ghost use Rattle.mdl_insn.specs.Spelling.{Spelt};
ghost use Rattle.mdl_state.specs.State.{Mem};
ghost use Rattle.mdl_state.specs.Serving.{Serve};
ghost use Rattle.mdl_state.specs.Attempt.{tried};
ghost use Rattle.mdl_effect.specs.Operands.{follow};
ghost use Rattle.mdl_effect.specs.Arithmetic.{divide_error};
ghost use Rattle.mdl_effect.specs.DataEffects.{data_effect};
ghost use Rattle.mdl_effect.specs.DataEffects.{is_plain_data};
ghost use Rattle.mdl_effect.specs.Forms.{IsFormed};
ghost use Rattle.operands.specs.Whole.{whole, done, after, KeepsOther};
ghost use Rattle.exec_data.specs.Failing.{can_fail};

use crate::adjusts::{adjust, digits, from_digits};
use crate::arithmetic::{change, combine, compare};
use crate::bits::{bit_change, bit_test, scan};
use crate::conditions::set_byte;
use crate::moves::{copy, exchange, sign, sign_extend, widen, zero_extend};
use crate::products::{divide, multiply, signed_divide, signed_multiply};
use crate::shifts::{double_shift, shift};
use lazy_flags::Flags;
use mdl_insn::{Insn, Op};
use mdl_num::BitOp;
use mdl_state::{Fault, Regs};

/// The instruction by its mnemonic, where that has no fault.
#[rattlefmt::skip]
#[tactic(auto, unfolding(mdl_effect::specs::DataEffects::data_effect))]
fn run_sure(regs: &mut Regs, flags: &mut Flags, insn: &Insn)
    requires formed { IsFormed insn.now }
    requires plain { is_plain_data insn.now ≡ true }
    requires sure { can_fail insn.now.op ≡ false }
    ensures plan { follow (whole regs.new flags.new)
        ≡ data_effect insn.now (whole regs.old flags.old) (whole regs.new flags.new).eflags }
    ensures kept { KeepsOther regs.old regs.new }
{
    match insn.op {
        Op::Mov => copy(regs, insn),
        Op::Movzx => zero_extend(regs, insn),
        Op::Movsx => sign_extend(regs, insn),
        Op::Xchg => exchange(regs, insn),
        Op::Cbw => widen(regs, insn),
        Op::Cwd => sign(regs, insn),
        Op::Add | Op::Or | Op::Adc | Op::Sbb | Op::And | Op::Sub | Op::Xor => combine(regs, flags, insn),
        Op::Cmp | Op::Test => compare(regs, flags, insn),
        Op::Inc | Op::Dec | Op::Neg | Op::Not => change(regs, flags, insn),
        Op::Mul => multiply(regs, flags, insn),
        Op::Imul => signed_multiply(regs, flags, insn),
        Op::Daa | Op::Das | Op::Aaa | Op::Aas => adjust(regs, flags, insn),
        Op::Aad => from_digits(regs, flags, insn),
        Op::Rol | Op::Ror | Op::Rcl | Op::Rcr | Op::Shl | Op::Shr | Op::Sar => shift(regs, flags, insn),
        Op::Shld => double_shift(regs, flags, insn, true),
        Op::Shrd => double_shift(regs, flags, insn, false),
        Op::Bt => bit_test(regs, flags, insn),
        Op::Bts => bit_change(regs, flags, insn, BitOp::Bts),
        Op::Btr => bit_change(regs, flags, insn, BitOp::Btr),
        Op::Btc => bit_change(regs, flags, insn, BitOp::Btc),
        Op::Bsf => scan(regs, flags, insn, true),
        Op::Bsr => scan(regs, flags, insn, false),
        Op::Setcc(number) => set_byte(regs, flags, insn, number),
        _ => unreachable!(),
    }
}

/// The instruction by its mnemonic, where its operands have the form of it.
#[tactic(auto, unfolding(mdl_effect::specs::DataEffects::data_effect))]
pub(crate) fn run_formed(regs: &mut Regs, flags: &mut Flags, insn: &Insn) -> Result<(), Fault>
    requires formed { IsFormed insn.now }
    requires plain { is_plain_data insn.now ≡ true }
    ensures plan { done result (whole regs.new flags.new)
        ≡ data_effect insn.now (whole regs.old flags.old) (whole regs.new flags.new).eflags }
    ensures kept { KeepsOther regs.old regs.new }
    ensures fault { IfErr result (λ fault. fault ≡ divide_error) }
    ensures unchanged { OnErr result ((regs.new ≡ regs.old) × (flags.new ≡ flags.old)) }
{
    match insn.op {
        Op::Div => divide(regs, insn),
        Op::Idiv => signed_divide(regs, insn),
        Op::Aam => digits(regs, flags, insn),
        _ => {
            run_sure(regs, flags, insn);
            Ok(())
        }
    }
}

/// One data instruction that some bytes spell, of which each operand is a register or a number.
///
/// The status flags of EFLAGS are those of `flags`; of `regs` the call changes general registers
/// alone.
#[tactic(auto, using(crate::proofs::Attempts::attempts))]
pub fn run_plain(regs: &mut Regs, flags: &mut Flags, insn: &Insn) -> Result<(), Fault>
    requires spelt { (bytes : List ℕ) × (big : Bool) × Spelt bytes big insn.now }
    requires plain { IsTrue (is_plain_data insn.now) }
    ensures run { (serve : Serve) (given : ℕ) (m : Mem) → (after result (whole regs.new flags.new), m)
        ≡ tried serve given (data_effect insn.now (whole regs.old flags.old) (whole regs.new flags.new).eflags) m }
    ensures fault { IfErr result (λ fault. fault ≡ divide_error) }
    ensures unchanged { OnErr result ((regs.new ≡ regs.old) × (flags.new ≡ flags.old)) }
    ensures kept { KeepsOther regs.old regs.new }
{
    run_formed(regs, flags, insn)
}
