//! Runs loads of segment registers, of LDTR and of TR, and the checks of what a program may see and which
//! ports it may use, a line each.
//!
//! A line has an act and numbers in hexadecimal. It is printed again, and behind it what comes of it. A
//! line that begins with `#` says what the lines below it show, and each value of `stdout` is worked out
//! by hand, from the manual, chapters 5, 6, 8, 15 and 17.
//!
//! `new` makes a machine in real mode, with the global table at 1000h and the local one at 2000h, both of
//! 100h bytes; `real`, `v86` and `level` set the mode and the privilege level. `gdt` sets base and limit
//! of the global table, `ldt` base, limit and rights of the local one, `tr` those of the TSS, and `paging`
//! CR3, with paging on.
//! `desc` puts a descriptor, low and high doubleword, where its selector says, `put` a doubleword at a
//! linear address, and `byte` shows a byte. `es`, `ss`, `ds`, `fs`, `gs`, `lldt` and `ltr` load a
//! selector, and show selector, base, limit and rights of the register, or vector, code and address of
//! the fault. `lar` and `lsl` have a size, 2 or 4, and a selector, `verr` and `verw` a selector, `arpl`
//! the destination and the source, and `iopl` EFLAGS; `zf` is what they leave in ZF. `sensitive` has
//! EFLAGS, and `port` a port, a size and EFLAGS.
#![tactic(auto)]

mod lines;
mod machine;
mod memory;

use lines::{Line, print_answer};
use machine::Machine;
use std::io;

fn main(rt: HostRuntime) -> io::Result<()> {
    let Ok(mut machine) = Machine::new(rt.alloc()) else {
        println!(rt; "memory")?;
        return Ok(());
    };
    for text in rt.lines(rt.alloc()) {
        let text = text?;
        let line = Line::read(text.as_str());
        if line.is_new() {
            machine = Machine::new(rt.alloc())?;
        }
        let answer = machine.answer(&line);
        print!(rt; "{}", text.as_str())?;
        print_answer(&rt, answer)?;
        println!(rt; "")?;
    }
    Ok(())
}
