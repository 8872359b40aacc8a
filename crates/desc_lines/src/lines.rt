//! Lines: an act and numbers in hexadecimal, and what comes of them.

use mdl_state::{Fault, Hidden};
use std::io;

/// The most numbers of a line.
const MOST: usize = 3;

/// What a line asks for.
#[derive(Clone, Copy, PartialEq, Eq)]
pub enum Act {
    New,
    Real,
    V86,
    Level,
    Gdt,
    Ldt,
    Paging,
    Desc,
    Put,
    Byte,
    Es,
    Ss,
    Ds,
    Fs,
    Gs,
    Lldt,
    Ltr,
    Lar,
    Lsl,
    Verr,
    Verw,
    Arpl,
    Iopl,
    Tr,
    Sensitive,
    Port,
    /// None of these.
    Nothing,
}

/// What comes of a line.
#[derive(Clone, Copy)]
pub enum Answer {
    /// Nothing is shown.
    Silent,
    /// A register that was loaded.
    Loaded(Hidden),
    /// The fault of a load or of a check.
    Refused(Fault),
    /// A number, where ZF is 1.
    Number(Option<u32>),
    /// ZF alone.
    Zero(bool),
    /// A byte.
    Byte(u32),
    /// It is permitted.
    Permitted,
}

/// An act and its numbers; zeros where it has fewer.
#[derive(Clone, Copy)]
pub struct Line {
    pub act: Act,
    pub numbers: [u32; MOST],
}

#[rattlefmt::skip]
fn act_of(word: &str) -> Act {
    match word {
        "new"       => Act::New,
        "real"      => Act::Real,
        "v86"       => Act::V86,
        "level"     => Act::Level,
        "gdt"       => Act::Gdt,
        "ldt"       => Act::Ldt,
        "paging"    => Act::Paging,
        "desc"      => Act::Desc,
        "put"       => Act::Put,
        "byte"      => Act::Byte,
        "es"        => Act::Es,
        "ss"        => Act::Ss,
        "ds"        => Act::Ds,
        "fs"        => Act::Fs,
        "gs"        => Act::Gs,
        "lldt"      => Act::Lldt,
        "ltr"       => Act::Ltr,
        "lar"       => Act::Lar,
        "lsl"       => Act::Lsl,
        "verr"      => Act::Verr,
        "verw"      => Act::Verw,
        "arpl"      => Act::Arpl,
        "iopl"      => Act::Iopl,
        "tr"        => Act::Tr,
        "sensitive" => Act::Sensitive,
        "port"      => Act::Port,
        _           => Act::Nothing,
    }
}

impl Line {
    pub fn read(text: &str) -> Line {
        let mut words = text.split_whitespace();
        let act = act_of(words.next().unwrap_or(""));
        let mut numbers = [0; MOST];
        let mut count = 0;
        for word in words {
            if count < MOST {
                numbers[count] = u32::from_str_radix(word, 16).unwrap_or(0);
                count += 1;
            }
        }
        Line { act, numbers }
    }

    /// Whether it begins another machine.
    pub fn is_new(&self) -> bool {
        self.act == Act::New
    }
}

/// Prints what comes of a line, behind it.
pub fn print_answer(rt: &impl Print, answer: Answer) -> io::Result<()> {
    match answer {
        Answer::Silent => {}
        Answer::Loaded(h) => {
            let (sel, base, limit, rights) = (h.sel, h.base, h.limit, h.rights);
            print!(rt; " = {sel:x} {base:x} {limit:x} {rights:x}")?;
        }
        Answer::Refused(f) => {
            let (vector, code, addr) = (f.vector, f.code, f.addr);
            print!(rt; " = fault {vector} {code:x} {addr:x}")?;
        }
        Answer::Number(Some(number)) => print!(rt; " = zf 1 {number:x}")?,
        Answer::Number(None) => print!(rt; " = zf 0")?,
        Answer::Zero(true) => print!(rt; " = zf 1")?,
        Answer::Zero(false) => print!(rt; " = zf 0")?,
        Answer::Byte(byte) => print!(rt; " = {byte:x}")?,
        Answer::Permitted => print!(rt; " = permitted")?,
    }
    Ok(())
}
