//! Makes far transfers, a line each: JMP and CALL to code and by gates, RETF and IRET, in every mode.
//!
//! A line has an act and numbers in hexadecimal. It is printed again, and behind it what comes of it. A
//! line that begins with `#` says what the lines below it show, and each value of `stdout` is worked out
//! by hand, from the manual, chapters 6, 7, 14, 15 and 17.
//!
//! `new` makes a machine in real mode, with the global table at 1000h and the local one at 2000h, both of
//! 100h bytes, a TSS of the 80386 at 3000h, whose selector is 30h, and ESP 8000h. `real`, `v86` and `level`
//! set the mode and the privilege level, and EFLAGS without other flags. `gdt` sets base and limit of the
//! global table; `ldt`, `task`, `es`, `cs`, `ss`, `ds`, `fs` and `gs` set a register with its hidden part:
//! selector, base, limit and rights; `esp` and `flags` set ESP and EFLAGS. `desc` puts a descriptor, low and
//! high doubleword, where its selector says, and `put` a doubleword at a linear address; `byte`, `word` and
//! `dword` show a number there.
//!
//! `jmp` has a selector, an offset and a size, 2 or 4; `call` these and the EIP behind it; `retf` a size and
//! the bytes to drop; `iret` a size. They show CS, EIP, SS, ESP, the level and EFLAGS, or the selector of the
//! TSS to which a switch is to follow, or vector, code and address of the fault. `regs` shows the same
//! registers, and `data` ES, DS, FS and GS.
#![tactic(auto)]

mod lines;
mod machine;
mod memory;

use lines::{Line, print_answer};
use machine::Machine;
use std::io;

fn main(rt: HostRuntime) -> io::Result<()> {
    let Ok(mut machine) = Machine::new(rt.alloc()) else {
        println!(rt; "memory")?;
        return Ok(());
    };
    for text in rt.lines(rt.alloc()) {
        let text = text?;
        let line = Line::read(text.as_str());
        if line.is_new() {
            machine = Machine::new(rt.alloc())?;
        }
        let answer = machine.answer(&line);
        print!(rt; "{}", text.as_str())?;
        print_answer(&rt, answer)?;
        println!(rt; "")?;
    }
    Ok(())
}
