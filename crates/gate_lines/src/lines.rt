//! Lines: an act and numbers in hexadecimal, and what comes of them.

use fault_delivery::Delivered;
use mdl_state::Regs;
use std::io;

/// The most numbers of a line.
const MOST: usize = 3;

/// What a line asks for.
#[derive(Clone, Copy, PartialEq, Eq)]
pub enum Act {
    New,
    Level,
    V86,
    Paging,
    Gdt,
    Idt,
    Tr,
    Ss,
    Eip,
    Esp,
    Desc,
    Gate,
    Put,
    Long,
    Fault,
    Int,
    Line,
    /// None of these.
    Nothing,
}

/// What comes of a line.
#[derive(Clone, Copy)]
pub enum Answer {
    /// Nothing is shown.
    Silent,
    /// A doubleword, where its pages are there.
    Number(Option<u32>),
    /// A delivery, with the registers that it leaves.
    Delivered(Delivered, Regs),
}

/// An act and its numbers; zeros where it has fewer.
#[derive(Clone, Copy)]
pub struct Line {
    pub act: Act,
    pub numbers: [u32; MOST],
}

#[rattlefmt::skip]
fn act_of(word: &str) -> Act {
    match word {
        "new"    => Act::New,
        "level"  => Act::Level,
        "v86"    => Act::V86,
        "paging" => Act::Paging,
        "gdt"    => Act::Gdt,
        "idt"    => Act::Idt,
        "tr"     => Act::Tr,
        "ss"     => Act::Ss,
        "eip"    => Act::Eip,
        "esp"    => Act::Esp,
        "desc"   => Act::Desc,
        "gate"   => Act::Gate,
        "put"    => Act::Put,
        "long"   => Act::Long,
        "fault"  => Act::Fault,
        "int"    => Act::Int,
        "line"   => Act::Line,
        _        => Act::Nothing,
    }
}

impl Line {
    pub fn read(text: &str) -> Line {
        let mut words = text.split_whitespace();
        let act = act_of(words.next().unwrap_or(""));
        let mut numbers = [0; MOST];
        let mut count = 0;
        for word in words {
            if count < MOST {
                numbers[count] = u32::from_str_radix(word, 16).unwrap_or(0);
                count += 1;
            }
        }
        Line { act, numbers }
    }

    /// Whether it begins another machine.
    pub fn is_new(&self) -> bool {
        self.act == Act::New
    }
}

/// Where a delivery arrives: the task with its level, CS:EIP, SS:ESP, EFLAGS and CR2.
fn print_place(rt: &impl Print, regs: &Regs) -> io::Result<()> {
    let (task, level, eip, esp) = (regs.tr.sel, regs.cpl, regs.eip, regs.gpr[4]);
    let (cs, ss, eflags, cr2) = (regs.seg[1].sel, regs.seg[2].sel, regs.eflags, regs.cr2);
    print!(rt; " {task:x} {level} {cs:x}:{eip:x} {ss:x}:{esp:x} {eflags:x} {cr2:x}")
}

/// Prints what comes of a line, behind it.
pub fn print_answer(rt: &impl Print, answer: &Answer) -> io::Result<()> {
    match answer {
        Answer::Silent => {}
        Answer::Number(Some(number)) => print!(rt; " = {number:x}")?,
        Answer::Number(None) => print!(rt; " = none")?,
        Answer::Delivered(delivered, regs) => {
            match delivered {
                Delivered::Done(false) => print!(rt; " = at")?,
                Delivered::Done(true) => print!(rt; " = trap at")?,
                Delivered::Shutdown => print!(rt; " = shutdown")?,
            }
            print_place(rt, regs)?;
        }
    }
    Ok(())
}
