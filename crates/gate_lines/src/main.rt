//! Delivers exceptions and interrupts in protected mode and in V86, a line each.
//!
//! A line has an act and numbers in hexadecimal. It is printed again, and behind it what comes of it. A
//! line that begins with `#` says what the lines below it show, and each value of `stdout` is worked out
//! by hand, from the manual, chapters 6, 7, 9 and 15.
//!
//! `new` makes a machine at level 0 with the global table at 1000h, of 100h bytes, the interrupt table at
//! 2000h, of 800h bytes, EIP 100h and ESP 8000h. `level` and `v86` choose the mode: protected mode has CS
//! 8 and SS 10h, each with its level, flat segments, and EFLAGS 4302h; V86 has CS 22h, SS 33h, ES 11h, DS
//! 44h, FS 55h, GS 66h, and EFLAGS 22002h. `paging` sets CR3, with paging on. `gdt` and `idt` set base and
//! limit of a table, `tr` base, limit and rights of the TSS, whose selector is 28h, `ss` those of the
//! stack, and `eip` and `esp` these. `desc` puts a descriptor where its selector says, `gate` one where its
//! vector says, `put` a doubleword, and `long` shows one, each at a physical address.
//!
//! `fault` has a vector, an error code and an address, which a page fault has in CR2 as it is delivered,
//! `int` and `line` a vector: they deliver a fault, a software interrupt of two bytes, and an interrupt from
//! outside. What is shown is whether that arrives, traps in a task or shuts down, and TR, CPL, CS:EIP,
//! SS:ESP, EFLAGS and CR2 behind it. The next line begins with the registers of before, over memory as it is
//! left.
#![tactic(auto)]

mod lines;
mod machine;
mod memory;
mod registers;

use lines::{Line, print_answer};
use machine::Machine;
use std::io;

fn main(rt: HostRuntime) -> io::Result<()> {
    let Ok(mut machine) = Machine::new(rt.alloc()) else {
        println!(rt; "memory")?;
        return Ok(());
    };
    for text in rt.lines(rt.alloc()) {
        let text = text?;
        let line = Line::read(text.as_str());
        if line.is_new() {
            machine = Machine::new(rt.alloc())?;
        }
        let answer = machine.answer(&line);
        print!(rt; "{}", text.as_str())?;
        print_answer(&rt, &answer)?;
        println!(rt; "")?;
    }
    Ok(())
}
