//! A machine that switches tasks.

ghost use Rattle.std.specs.Prelude.{◌<◌};
ghost use Rattle.mdl_state.specs.Bytes.{bound_of};

use crate::lines::{Act, Answer, Line};
use crate::memory::new_memory;
use desc_load::{load_ldt, load_task, place_of};
use mdl_state::{Fault, Hidden, Regs, Seg, Size, Who};
use mem_iface::Linear;
use seg_unit::set_segment;
use std::alloc::{AllocError, Global};
use task_switch::{Reason, Request, switch};
use tlb::Tlb;

/// How many bytes of memory are compared.
const BYTES: u32 = 0x8000;

/// PE of CR0.
const PROTECTION: u32 = 0x1;

/// PG of CR0.
const PAGING: u32 = 0x8000_0000;

/// The highest privilege level's number is the lowest privilege.
const LEVELS: u32 = 4;

/// The general registers of a new machine, in order.
const GENERAL: [u32; 8] = [
    0xA000_0010,
    0xA000_0011,
    0xA000_0012,
    0xA000_0013,
    0xA000_0014,
    0xA000_0015,
    0xA000_0016,
    0xA000_0017,
];

const UNUSABLE: Hidden = Hidden {
    sel: 0,
    base: 0,
    limit: 0,
    rights: 0,
};

/// The registers of protected mode, with the global table.
const REGS: Regs = Regs {
    gpr: GENERAL,
    eip: 0,
    eflags: 0x2,
    seg: [UNUSABLE; 6],
    ldtr: UNUSABLE,
    tr: UNUSABLE,
    gdt_base: 0x1000,
    gdt_limit: 0xFF,
    idt_base: 0,
    idt_limit: 0x7FF,
    cr0: PROTECTION,
    cr2: 0,
    cr3: 0,
    dr: [0; 4],
    dr6: 0,
    dr7: 0,
    cpl: 0,
};

/// A segment register by its number.
fn seg_of(number: u32) -> Seg {
    match number {
        0 => Seg::Es,
        1 => Seg::Cs,
        2 => Seg::Ss,
        3 => Seg::Ds,
        4 => Seg::Fs,
        _ => Seg::Gs,
    }
}

/// The low word of a number.
fn word(number: u32) -> u16 {
    (number % 0x1_0000) as u16
}

/// What the line of a switch asks for: a selector, an EIP, and of a fault the error code.
fn request_of(line: &Line) -> Option<Request> {
    let [selector, back, code] = line.numbers;
    let (reason, direct, ext, fault) = match line.act {
        Act::Jump => (Reason::Jump, true, false, false),
        Act::Call => (Reason::Call, true, false, false),
        Act::JumpGate => (Reason::Jump, false, false, false),
        Act::CallGate => (Reason::Call, false, false, false),
        Act::Int => (Reason::Interrupt, false, false, false),
        Act::Irq => (Reason::Interrupt, false, true, false),
        Act::Fault => (Reason::Interrupt, false, true, true),
        Act::Iret => (Reason::Return, false, false, false),
        _ => return None,
    };
    Some(Request {
        selector: word(selector),
        reason,
        direct,
        back,
        code: if fault { Some(word(code)) } else { None },
        ext,
        fault,
    })
}

/// Memory and registers.
#[derive(Drop)]
pub struct Machine {
    memory: Tlb,
    regs: Regs,
}

impl Machine {
    pub fn new(alloc: Global) -> Result<Machine, AllocError> {
        Ok(Machine {
            memory: new_memory(alloc)?,
            regs: REGS,
        })
    }

    /// The byte at a physical address.
    pub fn byte(&self, at: u32) -> u8 {
        self.memory.phys().byte(at)
    }

    /// The first bytes of memory.
    pub fn bytes(&self, alloc: Global) -> Result<Vec<u8>, AllocError> {
        let mut bytes = Vec::new(alloc);
        for at in 0..BYTES {
            bytes.push(self.byte(at))?;
        }
        Ok(bytes)
    }

    /// Puts a number at a linear address.
    fn put(&mut self, at: u32, size: Size, value: u32)
        requires { value < bound_of size }
    {
        self.memory.discard();
        let _ = self.memory.write(at, size, value, Who::Supervisor);
        self.memory.commit();
    }

    /// Puts a descriptor where its selector says.
    fn put_descriptor(&mut self, sel: u16, low: u32, high: u32) {
        let at = place_of(&self.regs, sel);
        self.put(at, Size::B4, low);
        self.put(at.wrapping_add(4), Size::B4, high);
    }

    /// What was held is placed where a load passes, and else dropped.
    fn finish(&mut self, loaded: Result<(), Fault>) -> Answer {
        match loaded {
            Ok(()) => {
                self.memory.commit();
                Answer::Silent
            }
            Err(fault) => {
                self.memory.discard();
                Answer::Refused(fault)
            }
        }
    }

    fn load_task(&mut self, sel: u16) -> Answer {
        self.memory.discard();
        let loaded = load_task(&mut self.regs, &mut self.memory, sel);
        self.finish(loaded)
    }

    fn load_ldt(&mut self, sel: u16) -> Answer {
        let loaded = load_ldt(&mut self.regs, &mut self.memory, sel);
        self.finish(loaded)
    }

    fn set_reg(&mut self, number: u32, value: u32) {
        self.regs.gpr[(number % 8) as usize] = value;
    }

    /// A flat segment of these rights.
    fn set_seg(&mut self, number: u32, sel: u32, rights: u32) {
        let hidden = Hidden {
            sel: word(sel),
            base: 0,
            limit: 0xFFFF_FFFF,
            rights: word(rights),
        };
        set_segment(&mut self.regs, seg_of(number), hidden);
    }

    /// Sets CR3, with paging on.
    fn set_paging(&mut self, cr3: u32) {
        self.regs.cr0 = PAGING + self.regs.cr0 % PAGING;
        self.regs.cr3 = cr3;
        self.memory.load_cr3(cr3);
        self.memory.set_paging(true);
    }

    /// Memory pages as the registers say, and nothing is held.
    fn switch(&mut self, request: Request) -> Answer {
        self.memory.discard();
        self.memory.load_cr3(self.regs.cr3);
        self.memory.set_paging(self.regs.cr0 / PAGING % 2 == 1);
        if self.regs.cpl > 3 {
            return Answer::Silent;
        }
        Answer::Switch(switch(&mut self.regs, &mut self.memory, request))
    }

    /// Changes the machine as a line says.
    fn change(&mut self, line: &Line) -> Answer {
        let [first, second, third] = line.numbers;
        match line.act {
            Act::Desc => self.put_descriptor(word(first), second, third),
            Act::Put => self.put(first, Size::B4, second),
            Act::Word => self.put(first, Size::B2, second % 0x1_0000),
            Act::Reg => self.set_reg(first, second),
            Act::Seg => self.set_seg(first, second, third),
            Act::Flags => self.regs.eflags = first,
            Act::Level => self.regs.cpl = (first % LEVELS) as u8,
            Act::Debug => self.regs.dr7 = first,
            Act::Paging => self.set_paging(first),
            _ => {}
        }
        Answer::Silent
    }

    /// Does what a line asks for.
    pub fn answer(&mut self, line: &Line) -> Answer {
        if let Some(request) = request_of(line) {
            return self.switch(request);
        }
        let sel = word(line.numbers[0]);
        match line.act {
            Act::Ltr => self.load_task(sel),
            Act::Lldt => self.load_ldt(sel),
            Act::General => Answer::General(self.regs),
            Act::State => Answer::State(self.regs),
            Act::Tasks => Answer::Tasks(self.regs),
            Act::Segments => Answer::Segments(self.regs),
            _ => self.change(line),
        }
    }
}
