//! Runs steps over memory, a line each, for values from outside.
//!
//! A line has numbers: 1 where code and stack are of 32 bits, how many steps are made, EFLAGS, EIP, the
//! eight registers, and the 15 bytes from CS:EIP on, behind which every byte of code is a NOP. Each
//! segment has the base 0 and the limit FFFFh, and the byte at `n` is the low byte of
//! `n * 167 + n / 256 * 13 + 91`. No port has anything behind it. The answer is `other` where no crate
//! runs the instruction of a step; else what comes of the last step, as `ok` or the vector and the
//! error code of its fault or its software interrupt, EFLAGS, EIP and the registers. Behind a fault or
//! an interrupt a line has what its delivery in real mode leaves, by vectors from address 0 on:
//! `handler`, or `shutdown`, the selector of CS, EFLAGS, EIP and the registers. Then comes a line with
//! each offset whose byte is another, and that byte. Every byte is then put back.
//! `tools/check-vectors` compares such answers with steps of a real processor.
//!
//! A line that begins with no digit is one of a worked example, by hand from the manual, chapter 17: it
//! is printed again, and behind it what comes of it. Such a line has an act and numbers in hexadecimal.
//! `small` and `big` make a machine of 16 or of 32 bits by EFLAGS and the eight registers, at EIP 100h,
//! `at` sets EIP, `put` puts a word at a linear address, `step` runs the instruction of these bytes, and
//! says what follows or its fault, EIP and the registers, `flags` gives EFLAGS under a mask, `word` a
//! word, and `segment` the selector and the base of a segment register. `level` sets the privilege
//! level, `protect` sets PE, so that VM of EFLAGS makes it V86, and `task` gives TR a base, a limit and
//! rights. `control` gives CR0, CR2 and CR3, `debug` the debug registers, and `tables` the
//! limits and the bases of GDTR and IDTR. All else says what is shown.
#![tactic(auto)]

mod deliveries;
mod examples;
mod lines;
mod machine;
mod steps;
mod window;

use deliveries::Ending;
use fault_delivery::Delivered;
use lines::{Answer, answer_of};
use machine::Machine;
use mdl_state::Regs;
use std::io;
use window::{SIZE, changed, new_memory, restore};

/// The place of CS among the segments.
const CS: usize = 1;

/// Prints EFLAGS, EIP and the registers behind a word.
fn print_registers(rt: &impl Print, regs: &Regs) -> io::Result<()> {
    let [a, c, d, b, sp, bp, si, di] = regs.gpr;
    println!(rt;
        " {} {} {a} {c} {d} {b} {sp} {bp} {si} {di}",
        regs.eflags, regs.eip
    )
}

/// Prints where a delivery arrives.
fn print_ending(rt: &impl Print, ending: &Ending) -> io::Result<()> {
    match ending.delivered {
        Delivered::Done(_) => print!(rt; "handler {}", ending.regs.seg[CS].sel)?,
        Delivered::Shutdown => print!(rt; "shutdown {}", ending.regs.seg[CS].sel)?,
    }
    print_registers(rt, &ending.regs)
}

/// Prints what comes of a line.
fn print_answer(rt: &impl Print, answer: &Option<Answer>) -> io::Result<()> {
    let Some(Answer { regs, ending }) = answer else {
        return println!(rt; "other");
    };
    let Some(ending) = ending else {
        print!(rt; "ok")?;
        return print_registers(rt, regs);
    };
    print!(rt; "{}:{}", ending.vector, ending.code)?;
    print_registers(rt, regs)?;
    print_ending(rt, ending)
}

fn main(rt: HostRuntime) -> io::Result<()> {
    let Ok(mut memory) = new_memory(rt.alloc()) else {
        println!(rt; "memory")?;
        return Ok(());
    };
    let mut machine = Machine::new(rt.alloc(), [0; 8], 0, false)?;
    for line in rt.lines(rt.alloc()) {
        let line = line?;
        if examples::is_example(line.as_str()) {
            examples::answer(&rt, rt.alloc(), &mut machine, line.as_str())?;
            continue;
        }
        let answer = answer_of(&mut memory, line.as_str());
        print_answer(&rt, &answer)?;
        for offset in 0..SIZE {
            if let Some(byte) = changed(&mut memory, offset) {
                if answer.is_some() {
                    println!(rt; "{offset} {byte}")?;
                }
                restore(&mut memory, offset);
            }
        }
    }
    Ok(())
}
