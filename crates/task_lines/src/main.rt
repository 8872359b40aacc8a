//! Runs task switches, a line each.
//!
//! A line has an act and numbers in hexadecimal. It is printed again, and behind it what comes of it. A
//! line that begins with `#` says what the lines below it show, and each value of `stdout` is worked out
//! by a model apart from m386, written from the tables of the manual, chapter 7, and docs/DECISIONS.md.
//!
//! The lines between `setup` and `new` are kept, and each `new` makes a machine and does them. It is in
//! protected mode at level 0, with the global table at 1000h, of 100h bytes. `desc` puts a descriptor, low
//! and high doubleword, where its selector says, `put` a doubleword and `word` a word at a linear address;
//! `ltr` loads TR, and `lldt` LDTR. `reg` sets a general register by its number, `seg` a segment register by
//! its number, to a flat segment with a selector and rights, `flags` EFLAGS, `level` the privilege level,
//! `debug` DR7, and `paging` CR3, with paging on.
//!
//! `jump` and `call` switch to the TSS of a selector, with the EIP behind the instruction, `jump-gate` and
//! `call-gate` do so behind a task gate; `int` does so for a software interrupt, `irq` for one of the
//! board, and `fault` for a fault with an error code; `iret` returns to the TSS of a link. What comes of it
//! is `done` with T, or in which task a fault is raised, `old` or `new`, with vector, code and address.
//! Behind a bar stand the bytes of the first 32 KiB that changed, by the address of the first of a row.
//! `general` shows the general registers, `state` EIP, EFLAGS, CR0, CR3, DR7 and the level, `tasks` TR and
//! LDTR, and `segments` the segment registers, each with selector, base, limit and rights.
#![tactic(auto)]

mod lines;
mod machine;
mod memory;

use lines::{Act, Line, print_answer};
use machine::Machine;
use std::alloc::Global;
use std::io;

/// A machine with which these lines were done.
fn prepared(alloc: Global, setup: &Vec<Line>) -> io::Result<Machine> {
    let mut machine = Machine::new(alloc)?;
    for line in setup.iter() {
        let _ = machine.answer(line);
    }
    Ok(machine)
}

/// Prints the bytes that are others than before.
fn print_changes(rt: &impl Print, before: &Vec<u8>, machine: &Machine) -> io::Result<()> {
    print!(rt; " |")?;
    let mut at: u32 = 0;
    let mut behind = false;
    for old in before.iter() {
        let byte = machine.byte(at);
        let changed = byte != *old;
        if changed && behind {
            print!(rt; ".{byte:x}")?;
        } else if changed {
            print!(rt; " {at:x}:{byte:x}")?;
        }
        behind = changed;
        at = at.wrapping_add(1);
    }
    Ok(())
}

/// Does what a line asks for, and prints what comes of it.
fn do_line(rt: &impl Print, alloc: Global, machine: &mut Machine, line: &Line) -> io::Result<()> {
    if !line.is_switch() {
        return print_answer(rt, machine.answer(line));
    }
    let before = machine.bytes(alloc)?;
    print_answer(rt, machine.answer(line))?;
    print_changes(rt, &before, machine)
}

fn main(rt: HostRuntime) -> io::Result<()> {
    let alloc = rt.alloc();
    let mut setup = Vec::new(alloc);
    let mut is_setup = false;
    let Ok(mut machine) = Machine::new(alloc) else {
        println!(rt; "memory")?;
        return Ok(());
    };
    for text in rt.lines(alloc) {
        let text = text?;
        let line = Line::read(text.as_str());
        print!(rt; "{}", text.as_str())?;
        match line.act {
            Act::Setup => {
                setup = Vec::new(alloc);
                is_setup = true;
            }
            Act::New => {
                is_setup = false;
                machine = prepared(alloc, &setup)?;
            }
            _ if is_setup => setup.push(line)?,
            _ => do_line(&rt, alloc, &mut machine, &line)?,
        }
        println!(rt; "")?;
    }
    Ok(())
}
