//! A machine to which something is delivered.

use crate::lines::{Act, Answer, Line};
use crate::memory::new_memory;
use crate::registers::{Mode, REGS, in_mode};
use fault_delivery::{Cause, deliver, fault_cause};
use mdl_state::{Fault, Hidden, Regs, Size, Who};
use mem_iface::Linear;
use std::alloc::{AllocError, Global};
use tlb::Tlb;

/// As many bytes may be held as nothing is held.
const ROOM: u16 = 256;

/// The selector of a stack that a line sets.
const STACK: u16 = 0x10;

/// The vector of a page fault.
const PAGE_FAULT: u8 = 14;

/// The low word of a number.
fn word(number: u32) -> u16 {
    (number % 0x1_0000) as u16
}

/// Its low byte.
fn byte(number: u32) -> u8 {
    (number % 0x100) as u8
}

/// A software interrupt of two bytes.
fn software(regs: &Regs, vector: u8) -> Cause {
    Cause {
        vector,
        code: None,
        soft: true,
        fault: false,
        ext: false,
        back: regs.eip.wrapping_add(2),
    }
}

/// An interrupt of the line, an NMI or a trap.
fn event(regs: &Regs, vector: u8) -> Cause {
    Cause {
        soft: false,
        ext: true,
        back: regs.eip,
        ..software(regs, vector)
    }
}

/// Memory, and registers with what does not depend on the mode.
#[derive(Drop)]
pub struct Machine {
    memory: Tlb,
    setup: Regs,
    mode: Mode,
    paging: bool,
    stack: Option<Hidden>,
}

impl Machine {
    pub fn new(alloc: Global) -> Result<Machine, AllocError> {
        Ok(Machine {
            memory: new_memory(alloc)?,
            setup: REGS,
            mode: Mode::Protected(0),
            paging: false,
            stack: None,
        })
    }

    /// Puts a doubleword at a physical address.
    fn put(&mut self, at: u32, value: u32) {
        self.memory.set_paging(false);
        if self.memory.room() >= 4 {
            let _ = self.memory.write(at, Size::B4, value, Who::Supervisor);
            self.memory.commit();
        }
    }

    /// Puts a descriptor.
    fn put_descriptor(&mut self, at: u32, low: u32, high: u32) {
        self.put(at, low);
        self.put(at.wrapping_add(4), high);
    }

    /// The doubleword at a physical address.
    fn long(&mut self, at: u32) -> Answer {
        self.memory.set_paging(false);
        Answer::Number(self.memory.read(at, Size::B4, Who::Supervisor).ok())
    }

    /// The registers as a line's cause finds them: the address of a page fault is in CR2 already.
    fn begun(&self, line: &Line) -> Regs {
        let [vector, _, addr] = line.numbers;
        if line.act == Act::Fault && byte(vector) == PAGE_FAULT {
            Regs {
                cr2: addr,
                ..self.setup
            }
        } else {
            self.setup
        }
    }

    /// Delivers what a line says.
    #[tactic(auto, using(fault_delivery::proofs::Attempts::task_ready))]
    fn deliver(&mut self, line: &Line) -> Answer {
        if self.memory.room() < ROOM {
            return Answer::Silent;
        }
        let setup = self.begun(line);
        let mut regs = in_mode(&setup, self.mode, self.paging, self.stack);
        self.memory.set_paging(self.paging);
        self.memory.load_cr3(regs.cr3);
        let [vector, code, addr] = line.numbers;
        let cause = match line.act {
            Act::Fault => {
                let fault = Fault {
                    vector: byte(vector),
                    code: word(code),
                    addr,
                };
                fault_cause(&regs, fault)
            }
            Act::Int => software(&regs, byte(vector)),
            _ => event(&regs, byte(vector)),
        };
        let delivered = deliver(&mut regs, &mut self.memory, cause);
        Answer::Delivered(delivered, regs)
    }

    /// Changes the machine as a line says.
    fn change(&mut self, line: &Line) -> Answer {
        let [first, second, third] = line.numbers;
        let setup = &mut self.setup;
        match line.act {
            Act::Level => self.mode = Mode::Protected(byte(first)),
            Act::V86 => self.mode = Mode::V86,
            Act::Paging => {
                setup.cr3 = first;
                self.paging = true;
            }
            Act::Gdt => {
                setup.gdt_base = first;
                setup.gdt_limit = word(second);
            }
            Act::Idt => {
                setup.idt_base = first;
                setup.idt_limit = word(second);
            }
            Act::Tr => {
                setup.tr.base = first;
                setup.tr.limit = second;
                setup.tr.rights = word(third);
            }
            Act::Ss => {
                self.stack = Some(Hidden {
                    sel: STACK,
                    base: first,
                    limit: second,
                    rights: word(third),
                });
            }
            Act::Eip => setup.eip = first,
            Act::Esp => setup.gpr[4] = first,
            _ => {}
        }
        Answer::Silent
    }

    /// Does what a line asks for.
    pub fn answer(&mut self, line: &Line) -> Answer {
        let [first, second, third] = line.numbers;
        match line.act {
            Act::Long => return self.long(first),
            Act::Fault | Act::Int | Act::Line => return self.deliver(line),
            Act::Desc => {
                let place = self.setup.gdt_base.wrapping_add(first / 8 * 8);
                self.put_descriptor(place, second, third);
            }
            Act::Gate => {
                let place = self.setup.idt_base.wrapping_add(8 * (first % 0x100));
                self.put_descriptor(place, second, third);
            }
            Act::Put => self.put(first, second),
            _ => return self.change(line),
        }
        Answer::Silent
    }
}
