//! The names of registers and sizes.

ghost use Rattle.std.specs.Prelude.{◌≡◌, ◌≤◌, length};
ghost use Rattle.mdl_insn.specs.Addresses.{address_size as address_size_of};
ghost use Rattle.mdl_insn.specs.Names as spec;
ghost use Rattle.mdl_insn.specs.Text as text;

use mdl_state::{Seg, Size};

pub fn segment_name(seg: Seg) -> &'static str
    ensures name { result.now ≡ spec.segment_name seg }
    ensures short { length result.now ≤ 2 }
{
    match seg {
        Seg::Es => "es",
        Seg::Cs => "cs",
        Seg::Ss => "ss",
        Seg::Ds => "ds",
        Seg::Fs => "fs",
        Seg::Gs => "gs",
    }
}

fn byte_register(n: u8) -> &'static str
    ensures name { result.now ≡ spec.register_name Size.B1 n }
    ensures short { length result.now ≤ 3 }
{
    match n {
        0 => "al",
        1 => "cl",
        2 => "dl",
        3 => "bl",
        4 => "ah",
        5 => "ch",
        6 => "dh",
        _ => "bh",
    }
}

fn word_register(n: u8) -> &'static str
    ensures name { result.now ≡ spec.register_name Size.B2 n }
    ensures short { length result.now ≤ 3 }
{
    match n {
        0 => "ax",
        1 => "cx",
        2 => "dx",
        3 => "bx",
        4 => "sp",
        5 => "bp",
        6 => "si",
        _ => "di",
    }
}

fn double_register(n: u8) -> &'static str
    ensures name { result.now ≡ spec.register_name Size.B4 n }
    ensures short { length result.now ≤ 3 }
{
    match n {
        0 => "eax",
        1 => "ecx",
        2 => "edx",
        3 => "ebx",
        4 => "esp",
        5 => "ebp",
        6 => "esi",
        _ => "edi",
    }
}

pub fn register_name(size: Size, n: u8) -> &'static str
    ensures name { result.now ≡ spec.register_name size n }
    ensures short { length result.now ≤ 3 }
{
    match size {
        Size::B1 => byte_register(n),
        Size::B2 => word_register(n),
        Size::B4 => double_register(n),
    }
}

pub fn size_word(size: Size) -> &'static str
    ensures name { result.now ≡ text.size_word size }
    ensures short { length result.now ≤ 6 }
{
    match size {
        Size::B1 => "byte ",
        Size::B2 => "word ",
        Size::B4 => "dword ",
    }
}

pub fn address_size(wide: bool) -> Size
    ensures { result ≡ address_size_of wide }
{
    if wide { Size::B4 } else { Size::B2 }
}
