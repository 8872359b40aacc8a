//! The text of a memory operand.

ghost use Rattle.std.specs.Prelude.{◌≡◌, ◌≤◌, ◌+◌, ◌++◌};
ghost use Rattle.arrayvec.specs.ArrayString.{array_string_len};
ghost use Rattle.mdl_insn.specs.Text as spec;

use crate::numbers::{Text, hex, number};
use crate::registers::{address_size, register_name, segment_name};
use mdl_insn::Mem;

fn plus_if(text: &mut Text, more: bool)
    requires { array_string_len text.old + 1 ≤ 96 }
    ensures text { text.new.bytes ≡ text.old.bytes ++ spec.plus_if more }
    ensures room { array_string_len text.new ≤ array_string_len text.old + 1 }
{
    if more {
        text.push_str("+");
    }
}

fn base(text: &mut Text, mem: &Mem)
    requires { array_string_len text.old + 3 ≤ 96 }
    ensures text { text.new.bytes ≡ text.old.bytes ++ spec.base_text mem.now.wide mem.now.base }
    ensures room { array_string_len text.new ≤ array_string_len text.old + 3 }
{
    if let Some(register) = mem.base {
        text.push_str(register_name(address_size(mem.wide), register));
    }
}

fn scale(text: &mut Text, scale: u8)
    requires { array_string_len text.old + 2 ≤ 96 }
    ensures text { text.new.bytes ≡ text.old.bytes ++ spec.scale_text scale }
    ensures room { array_string_len text.new ≤ array_string_len text.old + 2 }
{
    if scale != 1 {
        text.push_str("*");
        hex(text, 1, scale.into());
    }
}

fn index(text: &mut Text, mem: &Mem, first: bool)
    requires { array_string_len text.old + 6 ≤ 96 }
    ensures text { text.new.bytes ≡ text.old.bytes ++ spec.index_text mem.now.wide first mem.now.index mem.now.scale }
    ensures room { array_string_len text.new ≤ array_string_len text.old + 6 }
{
    if let Some(register) = mem.index {
        plus_if(text, !first);
        text.push_str(register_name(address_size(mem.wide), register));
        scale(text, mem.scale);
    }
}

fn displacement(text: &mut Text, mem: &Mem, first: bool)
    requires { array_string_len text.old + 11 ≤ 96 }
    ensures text { text.new.bytes ≡ text.old.bytes ++ spec.disp_text mem.now.wide first mem.now.disp }
    ensures room { array_string_len text.new ≤ array_string_len text.old + 11 }
{
    if mem.disp != 0 || first {
        plus_if(text, !first);
        number(text, address_size(mem.wide), mem.disp);
    }
}

/// Appends the segment and the parts of the offset, in brackets.
pub fn memory(text: &mut Text, mem: &Mem)
    requires { array_string_len text.old + 25 ≤ 96 }
    ensures text { text.new.bytes ≡ text.old.bytes ++ spec.mem_text mem.now }
    ensures room { array_string_len text.new ≤ array_string_len text.old + 25 }
{
    text.push_str("[");
    text.push_str(segment_name(mem.seg));
    text.push_str(":");
    base(text, mem);
    index(text, mem, mem.base.is_none());
    displacement(text, mem, mem.base.is_none() && mem.index.is_none());
    text.push_str("]");
}
