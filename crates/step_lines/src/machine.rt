//! A machine for examples: zeros, with data at 10000h in DS, at 20000h in ES, and a stack at 30000h.

use crate::steps::{Stepped, step};
use crate::window::blank_memory;
use mdl_state::{Fault, Hidden, Next, Regs, Size, Who};
use mem_iface::Linear;
use std::alloc::{AllocError, Global};
use tlb::Tlb;

/// A segment that real mode loads, with B of its rights.
fn segment(sel: u16, big: bool) -> Hidden {
    Hidden {
        sel,
        base: sel as u32 * 0x10,
        limit: 0xFFFF,
        rights: if big { 0x40F3 } else { 0xF3 },
    }
}

/// The registers before a step from EIP 100h.
fn regs_of(gpr: [u32; 8], eflags: u32, big: bool) -> Regs {
    let other = segment(0, big);
    Regs {
        gpr,
        eip: 0x100,
        eflags,
        seg: [
            segment(0x2000, big),
            other,
            segment(0x3000, big),
            segment(0x1000, big),
            other,
            other,
        ],
        ldtr: other,
        tr: other,
        gdt_base: 0,
        gdt_limit: 0,
        idt_base: 0,
        idt_limit: 0,
        cr0: 0,
        cr2: 0,
        cr3: 0,
        dr: [0; 4],
        dr6: 0,
        dr7: 0,
        cpl: 0,
    }
}

/// Memory and registers.
#[derive(Drop)]
pub struct Machine {
    memory: Tlb,
    pub regs: Regs,
    big: bool,
}

impl Machine {
    pub fn new(
        alloc: Global,
        gpr: [u32; 8],
        eflags: u32,
        big: bool,
    ) -> Result<Machine, AllocError> {
        Ok(Machine {
            memory: blank_memory(alloc)?,
            regs: regs_of(gpr, eflags, big),
            big,
        })
    }

    /// Puts a word at a linear address.
    pub fn put(&mut self, at: u32, word: u16) {
        if self.memory.room() < 4 {
            return;
        }
        let _ = self
            .memory
            .write(at, Size::B2, u32::from(word), Who::Supervisor);
        self.memory.commit();
    }

    /// The word at a linear address.
    pub fn word(&mut self, at: u32) -> Option<u32> {
        self.memory.read(at, Size::B2, Who::Supervisor).ok()
    }

    /// A step of the instruction at the front of these bytes, and whether a register is another one
    /// then that is no general one, nor EIP, EFLAGS or CR0.
    pub fn step(&mut self, code: &[u8]) -> (Option<Result<Next, Fault>>, bool) {
        let before = self.regs;
        let stepped = step(&mut self.regs, &mut self.memory, code, self.big);
        let others = Regs {
            gpr: before.gpr,
            eip: before.eip,
            eflags: before.eflags,
            cr0: before.cr0,
            ..self.regs
        };
        let ran = match stepped {
            Some(Stepped { ran, .. }) => Some(ran),
            None => None,
        };
        (ran, others != before)
    }
}
