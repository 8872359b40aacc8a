//! Lines of worked examples: each has an act and numbers in hexadecimal.

use crate::machine::Machine;
use crate::steps::PROTECTION;
use mdl_state::Hidden;
use std::alloc::{AllocError, Global};
use std::io;

/// The most numbers of a line.
const MOST: usize = 9;

/// The code behind a line's bytes.
const NOP: u8 = 0x90;

/// What a line asks for.
#[derive(Clone, Copy)]
enum Act {
    /// A new machine, of 16 or of 32 bits, by EFLAGS and the general registers.
    New { big: bool },
    /// Another EIP.
    At,
    /// A word put at an address.
    Put,
    /// The word at an address.
    Word,
    /// The selector and the base of a segment register.
    Segment,
    /// EFLAGS under a mask.
    Flags,
    /// Another privilege level.
    Level,
    /// PE of CR0 set, and no other of its bits.
    Protect,
    /// The base, the limit and the rights of TR.
    Task,
    /// The control registers.
    Control,
    /// The debug registers.
    Debug,
    /// The limits and the bases of GDTR and IDTR.
    Tables,
    /// A step of an instruction.
    Step,
    /// None of these.
    Nothing,
}

/// An act and its numbers; zeros where it has fewer.
#[derive(Clone, Copy)]
struct Line {
    act: Act,
    numbers: [u32; MOST],
    count: usize,
}

fn act_of(word: &str) -> Act {
    match word {
        "small" => Act::New { big: false },
        "big" => Act::New { big: true },
        "at" => Act::At,
        "put" => Act::Put,
        "word" => Act::Word,
        "segment" => Act::Segment,
        "flags" => Act::Flags,
        "level" => Act::Level,
        "protect" => Act::Protect,
        "task" => Act::Task,
        "control" => Act::Control,
        "debug" => Act::Debug,
        "tables" => Act::Tables,
        "step" => Act::Step,
        _ => Act::Nothing,
    }
}

fn line_of(text: &str) -> Line {
    let mut words = text.split_whitespace();
    let act = act_of(words.next().unwrap_or(""));
    let mut numbers = [0; MOST];
    let mut count = 0;
    for word in words {
        if count < MOST {
            numbers[count] = u32::from_str_radix(word, 16).unwrap_or(0);
            count += 1;
        }
    }
    Line {
        act,
        numbers,
        count,
    }
}

/// The bytes of a line, and NOPs behind them.
fn code_of(line: &Line) -> [u8; MOST] {
    let mut code = [NOP; MOST];
    for at in 0..MOST {
        if at < line.count {
            code[at] = (line.numbers[at] % 0x100) as u8;
        }
    }
    code
}

/// Whether a line is one of an example.
pub fn is_example(text: &str) -> bool {
    match text.as_bytes() {
        [first, ..] => !first.is_ascii_digit(),
        [] => false,
    }
}

/// The machine of a line.
fn new_machine(alloc: Global, line: &Line, big: bool) -> Result<Machine, AllocError> {
    let [eflags, a, c, d, b, sp, bp, si, di] = line.numbers;
    Machine::new(alloc, [a, c, d, b, sp, bp, si, di], eflags, big)
}

/// Makes a step, and prints what follows or its fault, EIP, the registers, and whether others changed.
fn print_step(rt: &impl Print, machine: &mut Machine, line: &Line) -> io::Result<()> {
    let (ran, changes_others) = machine.step(&code_of(line));
    match ran {
        Some(Ok(next)) => print!(rt; " = {next:?}")?,
        Some(Err(fault)) => print!(rt; " = {fault:?}")?,
        None => print!(rt; " = other")?,
    }
    let [a, c, d, b, sp, bp, si, di] = machine.regs.gpr;
    let eip = machine.regs.eip;
    print!(rt; " {eip:x} {a:x} {c:x} {d:x} {b:x} {sp:x} {bp:x} {si:x} {di:x}")?;
    if changes_others {
        print!(rt; " and others")?;
    }
    Ok(())
}

/// Prints the registers of the system that a line asks for.
fn print_system(rt: &impl Print, machine: &Machine, act: Act) -> io::Result<()> {
    let regs = machine.regs;
    match act {
        Act::Control => print!(rt; " = {:x} {:x} {:x}", regs.cr0, regs.cr2, regs.cr3),
        Act::Debug => {
            let [a, b, c, d] = regs.dr;
            print!(rt; " = {a:x} {b:x} {c:x} {d:x} {:x} {:x}", regs.dr6, regs.dr7)
        }
        Act::Tables => {
            print!(rt; " = {:x} {:x}", regs.gdt_limit, regs.gdt_base)?;
            print!(rt; " {:x} {:x}", regs.idt_limit, regs.idt_base)
        }
        _ => Ok(()),
    }
}

/// Does what a line asks for, and prints it behind the line.
fn print_answer(rt: &impl Print, machine: &mut Machine, line: &Line) -> io::Result<()> {
    let first = line.numbers[0];
    match line.act {
        Act::New { .. } | Act::Nothing => {}
        Act::At => machine.regs.eip = first,
        Act::Put => machine.put(first, (line.numbers[1] % 0x1_0000) as u16),
        Act::Word => {
            if let Some(word) = machine.word(first) {
                print!(rt; " = {word:x}")?;
            }
        }
        Act::Segment => {
            if let Some(segment) = machine.regs.seg.get(first as usize) {
                print!(rt; " = {:x} {:x}", segment.sel, segment.base)?;
            }
        }
        Act::Flags => print!(rt; " = {:x}", machine.regs.eflags & first)?,
        Act::Level => machine.regs.cpl = (first % 4) as u8,
        Act::Protect => machine.regs.cr0 = PROTECTION,
        Act::Task => {
            let tr = machine.regs.tr;
            machine.regs.tr = Hidden {
                base: first,
                limit: line.numbers[1],
                rights: (line.numbers[2] % 0x1_0000) as u16,
                ..tr
            };
        }
        Act::Control | Act::Debug | Act::Tables => print_system(rt, machine, line.act)?,
        Act::Step => print_step(rt, machine, line)?,
    }
    Ok(())
}

/// Prints a line of an example and what comes of it.
pub fn answer(rt: &impl Print, alloc: Global, machine: &mut Machine, text: &str) -> io::Result<()> {
    print!(rt; "{text}")?;
    let line = line_of(text);
    if let Act::New { big } = line.act {
        *machine = new_machine(alloc, &line, big)?;
    }
    print_answer(rt, machine, &line)?;
    println!(rt; "")
}
