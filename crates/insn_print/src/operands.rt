//! The text of an operand.

ghost use Rattle.std.specs.Prelude.{◌≡◌, ◌≤◌, ◌+◌, ◌%◌, ◌++◌, codes, length};
ghost use Rattle.arrayvec.specs.ArrayString.{array_string_len};
ghost use Rattle.mdl_state.specs.Bytes.{bound_of};
ghost use Rattle.mdl_insn.specs.Text as spec;
ghost use Rattle.insn_print.specs.Room.{room_of};

use crate::memory::memory;
use crate::numbers::{Text, hex, number};
use crate::registers::{register_name, segment_name, size_word};
use mdl_insn::{Insn, Mem, Op, Operand};
use mdl_state::Size;

fn no_size(op: Op) -> bool
    ensures { result ≡ spec.no_size op }
{
    matches!(
        op,
        Op::Lea
            | Op::Bound
            | Op::Les
            | Op::Lds
            | Op::Lss
            | Op::Lfs
            | Op::Lgs
            | Op::Callf
            | Op::Jmpf
            | Op::Sgdt
            | Op::Sidt
            | Op::Lgdt
            | Op::Lidt
            | Op::Esc
    )
}

fn sized_memory(text: &mut Text, insn: &Insn, mem: &Mem, size: Size)
    requires { array_string_len text.old + 31 ≤ 96 }
    ensures text { text.new.bytes ≡ text.old.bytes ++ spec.operand_text insn.now 0 (Operand.At mem.now size) }
    ensures room { array_string_len text.new ≤ array_string_len text.old + 31 }
{
    if !no_size(insn.op) {
        text.push_str(size_word(size));
    }
    memory(text, mem);
}

fn numbered(text: &mut Text, name: &str, n: u8)
    requires room { array_string_len text.old + 3 ≤ 96 }
    requires short { length name.now ≡ 2 }
    ensures text { text.new.bytes ≡ text.old.bytes ++ (name.now ++ spec.hex 1 n) }
    ensures room { array_string_len text.new ≡ array_string_len text.old + 3 }
{
    text.push_str(name);
    hex(text, 1, n.into());
}

fn target(text: &mut Text, size: Size, at: u32, by: u32)
    requires { array_string_len text.old + 10 ≤ 96 }
    ensures text { text.new.bytes ≡ text.old.bytes ++ spec.number size ((at + by) % bound_of size) }
    ensures room { array_string_len text.new ≤ array_string_len text.old + 10 }
{
    let target = at.wrapping_add(by);
    match size {
        Size::B1 => number(text, size, target % 0x100),
        Size::B2 => number(text, size, target % 0x1_0000),
        Size::B4 => number(text, size, target),
    }
}

fn far(text: &mut Text, size: Size, selector: u16, offset: u32)
    requires { array_string_len text.old + 21 ≤ 96 }
    ensures text { text.new.bytes ≡ text.old.bytes ++ (spec.number Size.B2 selector ++ codes ":" ++ spec.number size offset) }
    ensures room { array_string_len text.new ≤ array_string_len text.old + 21 }
{
    number(text, Size::B2, selector.into());
    text.push_str(":");
    number(text, size, offset);
}

fn operand(text: &mut Text, insn: &Insn, at: u32, operand: &Operand)
    requires { array_string_len text.old + room_of operand.now ≤ 97 }
    ensures text { text.new.bytes ≡ text.old.bytes ++ spec.operand_text insn.now at operand.now }
    ensures room { array_string_len text.new + 1 ≤ array_string_len text.old + room_of operand.now }
{
    match operand {
        Operand::Nothing => {}
        Operand::Gpr(n, size) => text.push_str(register_name(*size, *n)),
        Operand::Sreg(seg) => text.push_str(segment_name(*seg)),
        Operand::Creg(n) => numbered(text, "cr", *n),
        Operand::Dreg(n) => numbered(text, "dr", *n),
        Operand::At(mem, size) => sized_memory(text, insn, mem, *size),
        Operand::Imm(value, size) => number(text, *size, *value),
        Operand::Rel(by) => target(text, insn.size, at, *by),
        Operand::Far(selector, offset) => far(text, insn.size, *selector, *offset),
    }
}

fn is_nothing(operand: &Operand) -> bool
    ensures { result ≡ spec.is_nothing operand.now }
{
    matches!(operand, Operand::Nothing)
}

/// Appends an operand, where there is one, behind what joins it to the text before.
pub fn joined(text: &mut Text, before: &str, insn: &Insn, at: u32, o: &Operand)
    requires room { array_string_len text.old + room_of o.now ≤ 96 }
    requires short { length before.now ≤ 1 }
    ensures text { text.new.bytes ≡ text.old.bytes ++ spec.joined before.now insn.now at o.now }
    ensures room { array_string_len text.new ≤ array_string_len text.old + room_of o.now }
{
    if !is_nothing(o) {
        text.push_str(before);
        operand(text, insn, at, o);
    }
}
