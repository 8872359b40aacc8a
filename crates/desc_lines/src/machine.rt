//! A machine that loads and looks at descriptors.

use crate::lines::{Act, Answer, Line};
use crate::memory::new_memory;
use desc_load::{load_ldt, load_segment, load_task, place_of};
use mdl_state::{Fault, Hidden, Regs, Seg, Size, Who};
use mem_iface::Linear;
use privilege_checks::{arpl, iopl_allows, lar, lsl, verr, verw};
use seg_unit::segment;
use std::alloc::{AllocError, Global};
use tlb::Tlb;
use v86_mode::{port_allowed, sensitive};

/// PE of CR0.
const PROTECTION: u32 = 0x1;

/// PG of CR0.
const PAGING: u32 = 0x8000_0000;

/// VM of EFLAGS.
const VIRTUAL_8086: u32 = 0x2_0000;

/// What EFLAGS has always.
const EFLAGS: u32 = 0x2;

/// A segment of the first 64 KiB, which real mode keeps as it is.
const SEGMENT: Hidden = Hidden {
    sel: 0,
    base: 0,
    limit: 0xFFFF,
    rights: 0x93,
};

/// The local table.
const LOCAL: Hidden = Hidden {
    sel: 0x28,
    base: 0x2000,
    limit: 0xFF,
    rights: 0x82,
};

const UNUSABLE: Hidden = Hidden {
    sel: 0,
    base: 0,
    limit: 0,
    rights: 0,
};

/// The registers of real mode, with both tables.
const REGS: Regs = Regs {
    gpr: [0; 8],
    eip: 0,
    eflags: EFLAGS,
    seg: [SEGMENT; 6],
    ldtr: LOCAL,
    tr: UNUSABLE,
    gdt_base: 0x1000,
    gdt_limit: 0xFF,
    idt_base: 0,
    idt_limit: 0x3FF,
    cr0: 0,
    cr2: 0,
    cr3: 0,
    dr: [0; 4],
    dr6: 0,
    dr7: 0,
    cpl: 0,
};

/// The low word of a number.
fn word(number: u32) -> u16 {
    (number % 0x1_0000) as u16
}

/// The size of a number of bytes.
fn size_of(bytes: u32) -> Size {
    match bytes {
        1 => Size::B1,
        4 => Size::B4,
        _ => Size::B2,
    }
}

/// Memory and registers.
#[derive(Drop)]
pub struct Machine {
    memory: Tlb,
    regs: Regs,
}

impl Machine {
    pub fn new(alloc: Global) -> Result<Machine, AllocError> {
        Ok(Machine {
            memory: new_memory(alloc)?,
            regs: REGS,
        })
    }

    /// Sets the mode and the level.
    fn set_mode(&mut self, protection: u32, eflags: u32, level: u32) {
        self.regs.cr0 = self.regs.cr0 / 2 * 2 + protection % 2;
        self.regs.eflags = eflags;
        self.regs.cpl = (level % 4) as u8;
    }

    /// Sets CR3, with paging on.
    fn set_paging(&mut self, cr3: u32) {
        self.regs.cr0 = PAGING + self.regs.cr0 % 2;
        self.regs.cr3 = cr3;
        self.memory.load_cr3(cr3);
        self.memory.set_paging(true);
    }

    /// Puts a doubleword at a linear address.
    fn put(&mut self, at: u32, value: u32) {
        if self.memory.room() >= 4 {
            let _ = self.memory.write(at, Size::B4, value, Who::Supervisor);
            self.memory.commit();
        }
    }

    /// Puts a descriptor where its selector says.
    fn put_descriptor(&mut self, sel: u16, low: u32, high: u32) {
        let at = place_of(&self.regs, sel);
        self.put(at, low);
        self.put(at.wrapping_add(4), high);
    }

    fn byte(&mut self, at: u32) -> Answer {
        match self.memory.read(at, Size::B1, Who::Supervisor) {
            Ok(byte) => Answer::Byte(byte),
            Err(fault) => Answer::Refused(fault),
        }
    }

    /// What was held is placed where a load passes, and the register is shown; else it is dropped.
    fn finish(&mut self, loaded: Result<Hidden, Fault>) -> Answer {
        match loaded {
            Ok(hidden) => {
                self.memory.commit();
                Answer::Loaded(hidden)
            }
            Err(fault) => {
                self.memory.discard();
                Answer::Refused(fault)
            }
        }
    }

    fn load(&mut self, seg: Seg, sel: u16) -> Answer {
        if self.memory.room() < 1 {
            return Answer::Silent;
        }
        let loaded = load_segment(&mut self.regs, &mut self.memory, seg, sel);
        let hidden = segment(&self.regs, seg);
        self.finish(loaded.map(|_| hidden))
    }

    fn load_ldt(&mut self, sel: u16) -> Answer {
        let loaded = load_ldt(&mut self.regs, &mut self.memory, sel);
        let hidden = self.regs.ldtr;
        self.finish(loaded.map(|_| hidden))
    }

    fn load_task(&mut self, sel: u16) -> Answer {
        if self.memory.room() < 1 {
            return Answer::Silent;
        }
        let loaded = load_task(&mut self.regs, &mut self.memory, sel);
        let hidden = self.regs.tr;
        self.finish(loaded.map(|_| hidden))
    }

    /// LAR and LSL.
    fn look(&mut self, act: Act, size: Size, sel: u16) -> Answer {
        let shown = match act {
            Act::Lar => lar(&self.regs, &mut self.memory, sel, size),
            _ => lsl(&self.regs, &mut self.memory, sel, size),
        };
        match shown {
            Ok(number) => Answer::Number(number),
            Err(fault) => Answer::Refused(fault),
        }
    }

    /// VERR and VERW.
    fn verify(&mut self, act: Act, sel: u16) -> Answer {
        let verified = match act {
            Act::Verr => verr(&self.regs, &mut self.memory, sel),
            _ => verw(&self.regs, &mut self.memory, sel),
        };
        match verified {
            Ok(zero) => Answer::Zero(zero),
            Err(fault) => Answer::Refused(fault),
        }
    }

    /// Whether the level may use ports under these flags.
    fn may_use_ports(&self, eflags: u32) -> bool {
        iopl_allows(&self.under(eflags))
    }

    /// The registers with these flags.
    fn under(&self, eflags: u32) -> Regs {
        Regs {
            eflags,
            ..self.regs
        }
    }

    /// A sensitive instruction, and an access to a port, under these flags.
    fn ask(&mut self, line: &Line) -> Answer {
        let [first, second, third] = line.numbers;
        let permitted = match line.act {
            Act::Sensitive => sensitive(&self.under(first)),
            _ => {
                let regs = self.under(third);
                port_allowed(&regs, &mut self.memory, word(first), size_of(second))
            }
        };
        match permitted {
            Ok(()) => Answer::Permitted,
            Err(fault) => Answer::Refused(fault),
        }
    }

    /// Changes the machine as a line says.
    fn change(&mut self, line: &Line) -> Answer {
        let [first, second, third] = line.numbers;
        match line.act {
            Act::Real => self.set_mode(0, EFLAGS, 0),
            Act::V86 => self.set_mode(PROTECTION, EFLAGS + VIRTUAL_8086, 3),
            Act::Level => self.set_mode(PROTECTION, EFLAGS, first),
            Act::Gdt => {
                self.regs.gdt_base = first;
                self.regs.gdt_limit = word(second);
            }
            Act::Ldt => {
                self.regs.ldtr.base = first;
                self.regs.ldtr.limit = second;
                self.regs.ldtr.rights = word(third);
            }
            Act::Tr => {
                self.regs.tr.base = first;
                self.regs.tr.limit = second;
                self.regs.tr.rights = word(third);
            }
            Act::Paging => self.set_paging(first),
            Act::Desc => self.put_descriptor(word(first), second, third),
            Act::Put => self.put(first, second),
            _ => {}
        }
        Answer::Silent
    }

    /// Does what a line asks for.
    pub fn answer(&mut self, line: &Line) -> Answer {
        let [first, second, _] = line.numbers;
        match line.act {
            Act::Byte => self.byte(first),
            Act::Es => self.load(Seg::Es, word(first)),
            Act::Ss => self.load(Seg::Ss, word(first)),
            Act::Ds => self.load(Seg::Ds, word(first)),
            Act::Fs => self.load(Seg::Fs, word(first)),
            Act::Gs => self.load(Seg::Gs, word(first)),
            Act::Lldt => self.load_ldt(word(first)),
            Act::Ltr => self.load_task(word(first)),
            Act::Lar | Act::Lsl => self.look(line.act, size_of(first), word(second)),
            Act::Verr | Act::Verw => self.verify(line.act, word(first)),
            Act::Arpl => Answer::Number(arpl(word(first), word(second)).map(|sel| sel as u32)),
            Act::Iopl => Answer::Zero(self.may_use_ports(first)),
            Act::Sensitive | Act::Port => self.ask(line),
            _ => self.change(line),
        }
    }
}
