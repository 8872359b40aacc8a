//! A machine that makes far transfers.

use crate::lines::{Act, Answer, Line};
use crate::memory::new_memory;
use desc_load::place_of;
use gate_transfer::{Outcome, call_far, interrupt_return, jump_far, return_far};
use mdl_state::{Fault, Hidden, Regs, Seg, Size, Who};
use mem_iface::Linear;
use seg_unit::set_segment;
use std::alloc::{AllocError, Global};
use tlb::Tlb;

/// PE of CR0.
const PROTECTION: u32 = 0x1;

/// VM of EFLAGS.
const VIRTUAL_8086: u32 = 0x2_0000;

/// What EFLAGS has always.
const EFLAGS: u32 = 0x2;

/// The number of ESP among the general registers.
const ESP: usize = 4;

/// A segment of the first 64 KiB, which real mode keeps as it is.
const SEGMENT: Hidden = Hidden {
    sel: 0,
    base: 0,
    limit: 0xFFFF,
    rights: 0x93,
};

/// The local table.
const LOCAL: Hidden = Hidden {
    sel: 0x28,
    base: 0x2000,
    limit: 0xFF,
    rights: 0x82,
};

/// A busy TSS of the 80386.
const TASK: Hidden = Hidden {
    sel: 0x30,
    base: 0x3000,
    limit: 0x67,
    rights: 0x8B,
};

/// The registers of real mode, with both tables and a TSS.
const REGS: Regs = Regs {
    gpr: [0, 0, 0, 0, 0x8000, 0, 0, 0],
    eip: 0,
    eflags: EFLAGS,
    seg: [SEGMENT; 6],
    ldtr: LOCAL,
    tr: TASK,
    gdt_base: 0x1000,
    gdt_limit: 0xFF,
    idt_base: 0,
    idt_limit: 0x3FF,
    cr0: 0,
    cr2: 0,
    cr3: 0,
    dr: [0; 4],
    dr6: 0,
    dr7: 0,
    cpl: 0,
};

/// The low word of a number.
fn word(number: u32) -> u16 {
    (number % 0x1_0000) as u16
}

/// The size of a number of bytes.
fn size_of(bytes: u32) -> Size {
    if bytes == 4 { Size::B4 } else { Size::B2 }
}

/// A segment register of these numbers.
fn hidden_of(numbers: [u32; 4]) -> Hidden {
    let [sel, base, limit, rights] = numbers;
    Hidden {
        sel: word(sel),
        base,
        limit,
        rights: word(rights),
    }
}

/// Memory and registers.
#[derive(Drop)]
pub struct Machine {
    memory: Tlb,
    regs: Regs,
}

impl Machine {
    pub fn new(alloc: Global) -> Result<Machine, AllocError> {
        Ok(Machine {
            memory: new_memory(alloc)?,
            regs: REGS,
        })
    }

    /// Sets the mode and the level.
    fn set_mode(&mut self, protection: u32, eflags: u32, level: u32) {
        self.regs.cr0 = protection;
        self.regs.eflags = eflags;
        self.regs.cpl = (level % 4) as u8;
    }

    /// Puts a doubleword at a linear address.
    fn put(&mut self, at: u32, value: u32) {
        if self.memory.room() >= 4 {
            let _ = self.memory.write(at, Size::B4, value, Who::Supervisor);
            self.memory.commit();
        }
    }

    /// Puts a descriptor where its selector says.
    fn put_descriptor(&mut self, sel: u16, low: u32, high: u32) {
        let at = place_of(&self.regs, sel);
        self.put(at, low);
        self.put(at.wrapping_add(4), high);
    }

    /// A number in memory.
    fn number(&mut self, at: u32, size: Size) -> Answer {
        match self.memory.read(at, size, Who::Supervisor) {
            Ok(number) => Answer::Number(number),
            Err(fault) => Answer::Refused(fault),
        }
    }

    /// What was held is placed where a transfer passes, and else dropped.
    fn finish(&mut self, made: Result<Outcome, Fault>) -> Answer {
        match made {
            Ok(Outcome::Done) => {
                self.memory.commit();
                Answer::At(self.regs)
            }
            Ok(Outcome::Switch(sel)) => {
                self.memory.commit();
                Answer::Switch(sel)
            }
            Err(fault) => {
                self.memory.discard();
                Answer::Refused(fault)
            }
        }
    }

    fn jump(&mut self, sel: u16, off: u32, size: Size) -> Answer {
        if self.regs.cpl > 3 || self.memory.room() < 1 {
            return Answer::Silent;
        }
        let made = jump_far(&mut self.regs, &mut self.memory, sel, off, size);
        self.finish(made)
    }

    fn call(&mut self, sel: u16, off: u32, size: Size, back: u32) -> Answer {
        if self.regs.cpl > 3 || self.memory.room() < 142 {
            return Answer::Silent;
        }
        if size == Size::B1 {
            return Answer::Silent;
        }
        let made = call_far(&mut self.regs, &mut self.memory, sel, off, size, back);
        self.finish(made)
    }

    fn return_far(&mut self, size: Size, drop: u16) -> Answer {
        if self.memory.room() < 2 {
            return Answer::Silent;
        }
        let made = return_far(&mut self.regs, &mut self.memory, size, drop);
        self.finish(made.map(|_| Outcome::Done))
    }

    fn interrupt_return(&mut self, size: Size) -> Answer {
        if self.memory.room() < 2 {
            return Answer::Silent;
        }
        let made = interrupt_return(&mut self.regs, &mut self.memory, size);
        self.finish(made)
    }

    /// Sets a register as a line says.
    fn set(&mut self, line: &Line) {
        let hidden = hidden_of(line.numbers);
        match line.act {
            Act::Es => set_segment(&mut self.regs, Seg::Es, hidden),
            Act::Cs => set_segment(&mut self.regs, Seg::Cs, hidden),
            Act::Ss => set_segment(&mut self.regs, Seg::Ss, hidden),
            Act::Ds => set_segment(&mut self.regs, Seg::Ds, hidden),
            Act::Fs => set_segment(&mut self.regs, Seg::Fs, hidden),
            Act::Gs => set_segment(&mut self.regs, Seg::Gs, hidden),
            Act::Task => self.regs.tr = hidden,
            Act::Ldt => self.regs.ldtr = hidden,
            Act::Esp => self.regs.gpr[ESP] = line.numbers[0],
            Act::Flags => self.regs.eflags = line.numbers[0],
            _ => {}
        }
    }

    /// Changes the machine as a line says.
    fn change(&mut self, line: &Line) -> Answer {
        let [first, second, third, _] = line.numbers;
        match line.act {
            Act::Real => self.set_mode(0, EFLAGS, 0),
            Act::V86 => self.set_mode(PROTECTION, EFLAGS + VIRTUAL_8086, 3),
            Act::Level => self.set_mode(PROTECTION, EFLAGS, first),
            Act::Gdt => {
                self.regs.gdt_base = first;
                self.regs.gdt_limit = word(second);
            }
            Act::Desc => self.put_descriptor(word(first), second, third),
            Act::Put => self.put(first, second),
            _ => self.set(line),
        }
        Answer::Silent
    }

    /// Does what a line asks for.
    pub fn answer(&mut self, line: &Line) -> Answer {
        let [first, second, third, fourth] = line.numbers;
        match line.act {
            Act::Byte => self.number(first, Size::B1),
            Act::Word => self.number(first, Size::B2),
            Act::Dword => self.number(first, Size::B4),
            Act::Jmp => self.jump(word(first), second, size_of(third)),
            Act::Call => self.call(word(first), second, size_of(third), fourth),
            Act::Retf => self.return_far(size_of(first), word(second)),
            Act::Iret => self.interrupt_return(size_of(first)),
            Act::Regs => Answer::At(self.regs),
            Act::Data => Answer::Data(self.regs),
            _ => self.change(line),
        }
    }
}
