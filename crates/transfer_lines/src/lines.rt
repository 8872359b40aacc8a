//! Lines: an act and numbers in hexadecimal, and what comes of them.

use mdl_state::{Fault, Hidden, Regs, Seg};
use seg_unit::segment;
use std::io;

/// The most numbers of a line.
const MOST: usize = 4;

/// What a line asks for.
#[derive(Clone, Copy, PartialEq, Eq)]
pub enum Act {
    New,
    Real,
    V86,
    Level,
    Gdt,
    Ldt,
    Task,
    Es,
    Cs,
    Ss,
    Ds,
    Fs,
    Gs,
    Esp,
    Flags,
    Desc,
    Put,
    Byte,
    Word,
    Dword,
    Jmp,
    Call,
    Retf,
    Iret,
    Regs,
    Data,
    /// None of these.
    Nothing,
}

/// What comes of a line.
#[derive(Clone, Copy)]
pub enum Answer {
    /// Nothing is shown.
    Silent,
    /// The registers of code and of the stack.
    At(Regs),
    /// The data segment registers.
    Data(Regs),
    /// A switch to the task of this TSS is to follow.
    Switch(u16),
    /// A transfer is refused, or an access of memory.
    Refused(Fault),
    /// A number in memory.
    Number(u32),
}

/// An act and its numbers; zeros where it has fewer.
#[derive(Clone, Copy)]
pub struct Line {
    pub act: Act,
    pub numbers: [u32; MOST],
}

#[rattlefmt::skip]
fn act_of(word: &str) -> Act {
    match word {
        "new"   => Act::New,
        "real"  => Act::Real,
        "v86"   => Act::V86,
        "level" => Act::Level,
        "gdt"   => Act::Gdt,
        "ldt"   => Act::Ldt,
        "task"  => Act::Task,
        "es"    => Act::Es,
        "cs"    => Act::Cs,
        "ss"    => Act::Ss,
        "ds"    => Act::Ds,
        "fs"    => Act::Fs,
        "gs"    => Act::Gs,
        "esp"   => Act::Esp,
        "flags" => Act::Flags,
        "desc"  => Act::Desc,
        "put"   => Act::Put,
        "byte"  => Act::Byte,
        "word"  => Act::Word,
        "dword" => Act::Dword,
        "jmp"   => Act::Jmp,
        "call"  => Act::Call,
        "retf"  => Act::Retf,
        "iret"  => Act::Iret,
        "regs"  => Act::Regs,
        "data"  => Act::Data,
        _       => Act::Nothing,
    }
}

impl Line {
    pub fn read(text: &str) -> Line {
        let mut words = text.split_whitespace();
        let act = act_of(words.next().unwrap_or(""));
        let mut numbers = [0; MOST];
        let mut count = 0;
        for word in words {
            if count < MOST {
                numbers[count] = u32::from_str_radix(word, 16).unwrap_or(0);
                count += 1;
            }
        }
        Line { act, numbers }
    }

    /// Whether it begins another machine.
    pub fn is_new(&self) -> bool {
        self.act == Act::New
    }
}

/// Prints a segment register: its selector, base, limit and rights.
fn print_segment(rt: &impl Print, name: &str, hidden: Hidden) -> io::Result<()> {
    let (sel, base, limit, rights) = (hidden.sel, hidden.base, hidden.limit, hidden.rights);
    print!(rt; " {name} {sel:x} {base:x} {limit:x} {rights:x}")
}

/// Prints the registers of code and of the stack.
fn print_place(rt: &impl Print, regs: &Regs) -> io::Result<()> {
    let (eip, esp, cpl, eflags) = (regs.eip, regs.gpr[4], regs.cpl, regs.eflags);
    print_segment(rt, "= cs", segment(regs, Seg::Cs))?;
    print!(rt; " eip {eip:x}")?;
    print_segment(rt, "ss", segment(regs, Seg::Ss))?;
    print!(rt; " esp {esp:x} level {cpl} flags {eflags:x}")
}

/// Prints the data segment registers.
fn print_data(rt: &impl Print, regs: &Regs) -> io::Result<()> {
    print_segment(rt, "= es", segment(regs, Seg::Es))?;
    print_segment(rt, "ds", segment(regs, Seg::Ds))?;
    print_segment(rt, "fs", segment(regs, Seg::Fs))?;
    print_segment(rt, "gs", segment(regs, Seg::Gs))
}

/// Prints what comes of a line, behind it.
pub fn print_answer(rt: &impl Print, answer: Answer) -> io::Result<()> {
    match answer {
        Answer::Silent => {}
        Answer::At(regs) => print_place(rt, &regs)?,
        Answer::Data(regs) => print_data(rt, &regs)?,
        Answer::Switch(sel) => print!(rt; " = switch {sel:x}")?,
        Answer::Refused(fault) => {
            let (vector, code, addr) = (fault.vector, fault.code, fault.addr);
            print!(rt; " = fault {vector} {code:x} {addr:x}")?;
        }
        Answer::Number(number) => print!(rt; " = {number:x}")?,
    }
    Ok(())
}
