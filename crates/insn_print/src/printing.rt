//! The text of an instruction.

ghost use Rattle.std.specs.Prelude.{◌≡◌, ◌≤◌, ◌+◌, ◌++◌, Bool, List, ℕ};
ghost use Rattle.arrayvec.specs.ArrayString.{array_string_len};
ghost use Rattle.mdl_insn.specs.Spelling.{Spelt};
ghost use Rattle.mdl_insn.specs.Text as spec;
ghost use Rattle.insn_print.specs.Room.{IsPrintable};

use crate::mnemonics::{ending, is_nop, stem};
use crate::numbers::Text;
use crate::operands::joined;
use crate::prefixes::prefixes;
use arrayvec::ArrayString;
use mdl_insn::Insn;

fn mnemonic(text: &mut Text, insn: &Insn)
    requires { array_string_len text.old + 9 ≤ 96 }
    ensures text { text.new.bytes ≡ text.old.bytes ++ spec.mnemonic insn.now }
    ensures room { array_string_len text.new ≤ array_string_len text.old + 9 }
{
    if is_nop(insn) {
        text.push_str("nop");
    } else {
        text.push_str(stem(insn.op, insn.size, insn.wide));
        text.push_str(ending(insn.op, insn.size));
    }
}

/// The text where the operands fit: at most one of them is memory.
pub fn line(insn: &Insn, at: u32) -> ArrayString<96>
    requires { IsPrintable insn.now }
    ensures text { result.bytes ≡ spec.print_text insn.now at }
{
    let mut text = Text::new();
    prefixes(&mut text, insn);
    mnemonic(&mut text, insn);
    joined(&mut text, " ", insn, at, &insn.a);
    joined(&mut text, ",", insn, at, &insn.b);
    joined(&mut text, ",", insn, at, &insn.c);
    text
}

/// The text of an instruction, of which `at` is the address behind it.
pub fn print(insn: &Insn, at: u32) -> ArrayString<96>
    requires spelt { (bytes : List ℕ) × (big : Bool) × Spelt bytes big insn.now }
    ensures text { result.bytes ≡ spec.print_text insn.now at }
{
    line(insn, at)
}
