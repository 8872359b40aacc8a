//! Lines: an act and numbers in hexadecimal, and what comes of them.

use mdl_cpu::Switched;
use mdl_state::{Fault, Hidden, Regs};
use std::io;

/// The most numbers of a line.
const MOST: usize = 3;

/// What a line asks for.
#[derive(Clone, Copy, PartialEq, Eq)]
pub enum Act {
    Setup,
    New,
    Desc,
    Put,
    Word,
    Ltr,
    Lldt,
    Reg,
    Seg,
    Flags,
    Level,
    Debug,
    Paging,
    Jump,
    Call,
    JumpGate,
    CallGate,
    Int,
    Irq,
    Fault,
    Iret,
    General,
    State,
    Tasks,
    Segments,
    /// None of these.
    Nothing,
}

/// What comes of a line.
#[derive(Clone, Copy)]
pub enum Answer {
    /// Nothing is shown.
    Silent,
    /// What a switch comes to.
    Switch(Switched),
    /// A load of a register is refused.
    Refused(Fault),
    /// The general registers are shown.
    General(Regs),
    /// EIP, EFLAGS and the like are.
    State(Regs),
    /// TR and LDTR are.
    Tasks(Regs),
    /// The segment registers are.
    Segments(Regs),
}

/// An act and its numbers; zeros where it has fewer.
#[derive(Clone, Copy)]
pub struct Line {
    pub act: Act,
    pub numbers: [u32; MOST],
}

#[rattlefmt::skip]
fn act_of(word: &str) -> Act {
    match word {
        "setup"     => Act::Setup,
        "new"       => Act::New,
        "desc"      => Act::Desc,
        "put"       => Act::Put,
        "word"      => Act::Word,
        "ltr"       => Act::Ltr,
        "lldt"      => Act::Lldt,
        "reg"       => Act::Reg,
        "seg"       => Act::Seg,
        "flags"     => Act::Flags,
        "level"     => Act::Level,
        "debug"     => Act::Debug,
        "paging"    => Act::Paging,
        "jump"      => Act::Jump,
        "call"      => Act::Call,
        "jump-gate" => Act::JumpGate,
        "call-gate" => Act::CallGate,
        "int"       => Act::Int,
        "irq"       => Act::Irq,
        "fault"     => Act::Fault,
        "iret"      => Act::Iret,
        "general"   => Act::General,
        "state"     => Act::State,
        "tasks"     => Act::Tasks,
        "segments"  => Act::Segments,
        _           => Act::Nothing,
    }
}

impl Line {
    pub fn read(text: &str) -> Line {
        let mut words = text.split_whitespace();
        let act = act_of(words.next().unwrap_or(""));
        let mut numbers = [0; MOST];
        let mut count = 0;
        for word in words {
            if count < MOST {
                numbers[count] = u32::from_str_radix(word, 16).unwrap_or(0);
                count += 1;
            }
        }
        Line { act, numbers }
    }

    /// It asks for a switch.
    pub fn is_switch(&self) -> bool {
        match self.act {
            Act::Jump | Act::Call | Act::JumpGate | Act::CallGate => true,
            Act::Int | Act::Irq | Act::Fault | Act::Iret => true,
            _ => false,
        }
    }
}

fn print_fault(rt: &impl Print, fault: Fault) -> io::Result<()> {
    let (vector, code, addr) = (fault.vector, fault.code, fault.addr);
    print!(rt; " {vector} {code:x} {addr:x}")
}

fn print_switch(rt: &impl Print, switched: Switched) -> io::Result<()> {
    match switched {
        Switched::Done(true) => print!(rt; " done 1"),
        Switched::Done(false) => print!(rt; " done 0"),
        Switched::OldFault(fault) => {
            print!(rt; " old")?;
            print_fault(rt, fault)
        }
        Switched::NewFault(fault) => {
            print!(rt; " new")?;
            print_fault(rt, fault)
        }
    }
}

fn print_hidden(rt: &impl Print, h: Hidden) -> io::Result<()> {
    let (sel, base, limit, rights) = (h.sel, h.base, h.limit, h.rights);
    print!(rt; " {sel:x} {base:x} {limit:x} {rights:x}")
}

fn print_general(rt: &impl Print, regs: &Regs) -> io::Result<()> {
    for number in regs.gpr.iter() {
        print!(rt; " {number:x}")?;
    }
    Ok(())
}

fn print_segments(rt: &impl Print, regs: &Regs) -> io::Result<()> {
    let [es, cs, ss, ds, fs, gs] = regs.seg;
    print!(rt; " es")?;
    print_hidden(rt, es)?;
    print!(rt; " cs")?;
    print_hidden(rt, cs)?;
    print!(rt; " ss")?;
    print_hidden(rt, ss)?;
    print!(rt; " ds")?;
    print_hidden(rt, ds)?;
    print!(rt; " fs")?;
    print_hidden(rt, fs)?;
    print!(rt; " gs")?;
    print_hidden(rt, gs)
}

fn print_state(rt: &impl Print, r: &Regs) -> io::Result<()> {
    let (eip, eflags, level) = (r.eip, r.eflags, r.cpl);
    let (cr0, cr3, dr7) = (r.cr0, r.cr3, r.dr7);
    print!(rt; " eip {eip:x} efl {eflags:x} cr0 {cr0:x} cr3 {cr3:x} dr7 {dr7:x} cpl {level}")
}

fn print_tasks(rt: &impl Print, regs: &Regs) -> io::Result<()> {
    print!(rt; " tr")?;
    print_hidden(rt, regs.tr)?;
    print!(rt; " ldt")?;
    print_hidden(rt, regs.ldtr)
}

/// Prints what comes of a line, behind it.
pub fn print_answer(rt: &impl Print, answer: Answer) -> io::Result<()> {
    match answer {
        Answer::Silent => return Ok(()),
        _ => print!(rt; " =")?,
    }
    match answer {
        Answer::Silent => Ok(()),
        Answer::Switch(switched) => print_switch(rt, switched),
        Answer::Refused(fault) => print_fault(rt, fault),
        Answer::General(regs) => print_general(rt, &regs),
        Answer::State(regs) => print_state(rt, &regs),
        Answer::Tasks(regs) => print_tasks(rt, &regs),
        Answer::Segments(regs) => print_segments(rt, &regs),
    }
}
