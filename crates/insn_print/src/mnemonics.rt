//! The mnemonics.

ghost use Rattle.std.specs.Prelude.{◌≡◌, ◌≤◌, length};
ghost use Rattle.mdl_insn.specs.Names as spec;

use crate::registers::address_size;
use mdl_insn::{Insn, Op, Operand};
use mdl_state::Size;

fn condition(c: u8) -> &'static str
    ensures name { result.now ≡ spec.condition c }
    ensures short { length result.now ≤ 3 }
{
    match c {
        0 => "o",
        1 => "no",
        2 => "b",
        3 => "nb",
        4 => "z",
        5 => "nz",
        6 => "be",
        7 => "nbe",
        8 => "s",
        9 => "ns",
        10 => "p",
        11 => "np",
        12 => "l",
        13 => "nl",
        14 => "le",
        _ => "nle",
    }
}

fn size_letter(size: Size) -> &'static str
    ensures name { result.now ≡ spec.size_letter size }
    ensures short { length result.now ≤ 1 }
{
    match size {
        Size::B1 => "b",
        Size::B2 => "w",
        Size::B4 => "d",
    }
}

fn by_size(size: Size, word: &'static str, double: &'static str) -> &'static str
    ensures { result.now ≡ spec.by_size size word.now double.now }
{
    match size {
        Size::B1 | Size::B2 => word,
        Size::B4 => double,
    }
}

/// What a mnemonic is called, or begins with.
pub fn stem(op: Op, size: Size, wide: bool) -> &'static str
    ensures name { result.now ≡ spec.stem op size wide }
    ensures short { length result.now ≤ 6 }
{
    match op {
        Op::Add => "add",
        Op::Or => "or",
        Op::Adc => "adc",
        Op::Sbb => "sbb",
        Op::And => "and",
        Op::Sub => "sub",
        Op::Xor => "xor",
        Op::Cmp => "cmp",
        Op::Push => "push",
        Op::Pop => "pop",
        Op::Daa => "daa",
        Op::Das => "das",
        Op::Aaa => "aaa",
        Op::Aas => "aas",
        Op::Inc => "inc",
        Op::Dec => "dec",
        Op::Pusha => by_size(size, "pusha", "pushad"),
        Op::Popa => by_size(size, "popa", "popad"),
        Op::Bound => "bound",
        Op::Arpl => "arpl",
        Op::Imul => "imul",
        Op::Ins => "ins",
        Op::Outs => "outs",
        Op::Jcc(_) => "j",
        Op::Test => "test",
        Op::Xchg => "xchg",
        Op::Mov => "mov",
        Op::Lea => "lea",
        Op::Cbw => by_size(size, "cbw", "cwde"),
        Op::Cwd => by_size(size, "cwd", "cdq"),
        Op::Callf => "callf",
        Op::Wait => "wait",
        Op::Pushf => by_size(size, "pushf", "pushfd"),
        Op::Popf => by_size(size, "popf", "popfd"),
        Op::Sahf => "sahf",
        Op::Lahf => "lahf",
        Op::Movs => "movs",
        Op::Cmps => "cmps",
        Op::Stos => "stos",
        Op::Lods => "lods",
        Op::Scas => "scas",
        Op::Rol => "rol",
        Op::Ror => "ror",
        Op::Rcl => "rcl",
        Op::Rcr => "rcr",
        Op::Shl => "shl",
        Op::Shr => "shr",
        Op::Sar => "sar",
        Op::Ret => "ret",
        Op::Retf => "retf",
        Op::Les => "les",
        Op::Lds => "lds",
        Op::Enter => "enter",
        Op::Leave => "leave",
        Op::Int3 => "int3",
        Op::Int => "int",
        Op::Into => "into",
        Op::Iret => by_size(size, "iret", "iretd"),
        Op::Aam => "aam",
        Op::Aad => "aad",
        Op::Xlat => "xlat",
        Op::Esc => "esc",
        Op::Loopne => "loopne",
        Op::Loope => "loope",
        Op::Loop => "loop",
        Op::Jcxz => by_size(address_size(wide), "jcxz", "jecxz"),
        Op::InPort => "in",
        Op::OutPort => "out",
        Op::Call => "call",
        Op::Jmp => "jmp",
        Op::Jmpf => "jmpf",
        Op::Hlt => "hlt",
        Op::Cmc => "cmc",
        Op::Clc => "clc",
        Op::Stc => "stc",
        Op::Cli => "cli",
        Op::Sti => "sti",
        Op::Cld => "cld",
        Op::Std => "std",
        Op::Not => "not",
        Op::Neg => "neg",
        Op::Mul => "mul",
        Op::Div => "div",
        Op::Idiv => "idiv",
        Op::Sldt => "sldt",
        Op::Str => "str",
        Op::Lldt => "lldt",
        Op::Ltr => "ltr",
        Op::Verr => "verr",
        Op::Verw => "verw",
        Op::Sgdt => "sgdt",
        Op::Sidt => "sidt",
        Op::Lgdt => "lgdt",
        Op::Lidt => "lidt",
        Op::Smsw => "smsw",
        Op::Lmsw => "lmsw",
        Op::Lar => "lar",
        Op::Lsl => "lsl",
        Op::Clts => "clts",
        Op::Setcc(_) => "set",
        Op::Bt => "bt",
        Op::Bts => "bts",
        Op::Btr => "btr",
        Op::Btc => "btc",
        Op::Shld => "shld",
        Op::Shrd => "shrd",
        Op::Lss => "lss",
        Op::Lfs => "lfs",
        Op::Lgs => "lgs",
        Op::Movzx => "movzx",
        Op::Movsx => "movsx",
        Op::Bsf => "bsf",
        Op::Bsr => "bsr",
    }
}

/// What it ends in: a condition, or the size of a string instruction.
pub fn ending(op: Op, size: Size) -> &'static str
    ensures name { result.now ≡ spec.ending op size }
    ensures short { length result.now ≤ 3 }
{
    match op {
        Op::Jcc(c) | Op::Setcc(c) => condition(c),
        Op::Ins | Op::Outs | Op::Movs | Op::Cmps | Op::Stos | Op::Lods | Op::Scas => {
            size_letter(size)
        }
        _ => "",
    }
}

pub fn is_nop(insn: &Insn) -> bool
    ensures { result ≡ spec.is_nop insn.now.op insn.now.a }
{
    matches!((insn.op, insn.a), (Op::Xchg, Operand::Nothing))
}
