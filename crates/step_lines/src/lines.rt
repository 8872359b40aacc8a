//! A line's steps, and what they leave.

use crate::deliveries::{Ending, ended_by_fault, ended_by_interrupt};
use crate::steps::{Stepped, step};
use mdl_state::{Hidden, Next, Regs};
use tlb::Tlb;

/// The access byte of a data segment for every level, which may be written.
const DATA: u16 = 0xF3;

/// B of a segment's rights: its stack pointer is ESP.
const BIG: u16 = 0x4000;

/// The place of SS among the segments.
const SS: usize = 2;

const SEGMENT: Hidden = Hidden {
    sel: 0,
    base: 0,
    limit: 0xFFFF,
    rights: DATA,
};

const REGS: Regs = Regs {
    gpr: [0; 8],
    eip: 0,
    eflags: 2,
    seg: [SEGMENT; 6],
    ldtr: SEGMENT,
    tr: SEGMENT,
    gdt_base: 0,
    gdt_limit: 0,
    idt_base: 0,
    idt_limit: 0x3FF,
    cr0: 0,
    cr2: 0,
    cr3: 0,
    dr: [0; 4],
    dr6: 0,
    dr7: 0,
    cpl: 3,
};

/// The code behind a line's bytes.
const NOP: u8 = 0x90;

/// The bytes of a line.
const CODE: usize = 15;

/// The numbers of a line before its bytes.
const HEAD: usize = 12;

/// The numbers of a line.
const NUMBERS: usize = HEAD + CODE;

/// What the steps of a line leave: the registers, and the fault or the software interrupt that ended
/// them.
#[derive(Clone, Copy)]
pub struct Answer {
    pub regs: Regs,
    pub ending: Option<Ending>,
}

/// The numbers of a line; zeros where it has fewer.
fn numbers_of(line: &str) -> [u32; NUMBERS] {
    let mut numbers = [0; NUMBERS];
    let mut count = 0;
    for word in line.split_whitespace() {
        if count < NUMBERS {
            if let Ok(number) = word.parse::<u32>() {
                numbers[count] = number;
            }
            count += 1;
        }
    }
    numbers
}

/// The bytes so far behind the first byte of a line.
fn code_at(numbers: &[u32; NUMBERS], behind: u32) -> [u8; CODE] {
    let mut code = [NOP; CODE];
    for i in 0..CODE {
        let at = behind as u64 + i as u64;
        if at < CODE as u64 {
            code[i] = (numbers[HEAD + at as usize] % 0x100) as u8;
        }
    }
    code
}

/// The registers of a line, with B of the stack segment where it is big.
fn regs_of(numbers: &[u32; NUMBERS], big: bool) -> Regs {
    let [_, _, eflags, eip, a, c, d, b, sp, bp, si, di, ..] = *numbers;
    let mut regs = Regs {
        gpr: [a, c, d, b, sp, bp, si, di],
        eip,
        eflags,
        ..REGS
    };
    if big {
        regs.seg[SS].rights = DATA + BIG;
    }
    regs
}

/// The steps of a line, or nothing where one is of no instruction that a crate runs. A software
/// interrupt ends them as a fault does, with EIP behind it.
pub fn answer_of(memory: &mut Tlb, line: &str) -> Option<Answer> {
    let numbers = numbers_of(line);
    let big = numbers[0] == 1;
    let mut regs = regs_of(&numbers, big);
    let start = regs.eip;
    for _ in 0..numbers[1] {
        let code = code_at(&numbers, regs.eip.wrapping_sub(start));
        let Stepped { ran, back } = step(&mut regs, memory, &code, big)?;
        let ending = match ran {
            Ok(Next::Soft(vector)) => {
                regs.eip = back;
                ended_by_interrupt(&regs, memory, vector)?
            }
            Ok(_) => continue,
            Err(fault) => ended_by_fault(&regs, memory, fault)?,
        };
        return Some(Answer {
            regs,
            ending: Some(ending),
        });
    }
    Some(Answer { regs, ending: None })
}
