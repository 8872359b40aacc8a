//! Which instructions are data instructions, and which of them are on registers and numbers alone.

ghost use Rattle.std.specs.Prelude.{◌≡◌};
ghost use Rattle.mdl_effect.specs.DataEffects.{is_data, is_address, is_special, is_segment_pop, runs_data};
ghost use Rattle.mdl_effect.specs.DataEffects.{is_plain_data};
ghost use Rattle.exec_data.specs.Reads.{is_move};

use mdl_insn::{Insn, Op, Operand};
use operands::is_plain;

/// Whether the mnemonic is that of a data instruction.
#[inline(always)]
pub(crate) fn is_data(op: Op) -> bool
    ensures { result ≡ is_data op }
{
    match op {
        Op::Mov | Op::Movzx | Op::Movsx | Op::Xchg | Op::Cbw | Op::Cwd => true,
        Op::Add | Op::Or | Op::Adc | Op::Sbb | Op::And | Op::Sub | Op::Xor => true,
        Op::Cmp | Op::Test | Op::Inc | Op::Dec | Op::Neg | Op::Not => true,
        Op::Mul | Op::Imul | Op::Div | Op::Idiv => true,
        Op::Daa | Op::Das | Op::Aaa | Op::Aas | Op::Aam | Op::Aad => true,
        Op::Rol | Op::Ror | Op::Rcl | Op::Rcr | Op::Shl | Op::Shr | Op::Sar => true,
        Op::Shld | Op::Shrd | Op::Bt | Op::Bts | Op::Btr | Op::Btc | Op::Bsf | Op::Bsr => true,
        Op::Setcc(_) => true,
        _ => false,
    }
}

/// Whether the mnemonic is MOV.
pub(crate) fn is_move(op: Op) -> bool
    ensures { result ≡ is_move op }
{
    match op {
        Op::Mov => true,
        _ => false,
    }
}

/// Whether the mnemonic takes memory or a segment register alone.
fn is_address(op: Op) -> bool
    ensures { result ≡ is_address op }
{
    match op {
        Op::Lea | Op::Xlat | Op::Bound => true,
        Op::Les | Op::Lds | Op::Lss | Op::Lfs | Op::Lgs => true,
        _ => false,
    }
}

/// Whether the operand is a control or debug register.
fn is_special(operand: &Operand) -> bool
    ensures { result ≡ is_special operand.now }
{
    match operand {
        Operand::Creg(_) | Operand::Dreg(_) => true,
        _ => false,
    }
}

/// Whether it is a POP of a segment register.
fn is_segment_pop(insn: &Insn) -> bool
    ensures { result ≡ is_segment_pop insn.now.op insn.now.a }
{
    match insn.op {
        Op::Pop => match insn.a {
            Operand::Sreg(_) => true,
            _ => false,
        },
        _ => false,
    }
}

/// Whether `run` runs the instruction.
#[inline(always)]
pub fn runs_data(insn: &Insn) -> bool
    ensures { result ≡ runs_data insn.now }
{
    is_data(insn.op) && !is_special(&insn.a) && !is_special(&insn.b)
        || is_address(insn.op)
        || is_segment_pop(insn)
}

/// Whether `run_plain` runs the instruction.
pub fn is_plain_data(insn: &Insn) -> bool
    ensures { result ≡ is_plain_data insn.now }
{
    is_data(insn.op) && is_plain(&insn.a) && is_plain(&insn.b) && is_plain(&insn.c)
}
