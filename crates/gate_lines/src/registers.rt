//! The registers before something is delivered, in protected mode and in V86.

ghost use Rattle.std.specs.Prelude.{◌≡◌, ◌≤◌, true};
ghost use Rattle.mdl_state.specs.Bytes.{bit};
ghost use Rattle.mdl_cpu.specs.Steady.{IsSound};

use mdl_state::{Hidden, Regs};

/// NT, IF and TF, and the bit that is always 1: the flags of protected mode.
const FLAGS: u32 = 0x4302;

/// VM, and an IOPL of 2: those of V86.
const VIRTUAL_FLAGS: u32 = 0x2_2002;

/// What can't be used.
const UNUSABLE: Hidden = Hidden {
    sel: 0,
    base: 0,
    limit: 0,
    rights: 0,
};

/// What is the same in both, with tables and a stack pointer.
pub const REGS: Regs = Regs {
    gpr: [0, 0, 0, 0, 0x8000, 0, 0, 0],
    eip: 0x100,
    eflags: FLAGS,
    seg: [UNUSABLE; 6],
    ldtr: UNUSABLE,
    tr: Hidden {
        sel: 0x28,
        ..UNUSABLE
    },
    gdt_base: 0x1000,
    gdt_limit: 0xFF,
    idt_base: 0x2000,
    idt_limit: 0x7FF,
    cr0: 1,
    cr2: 0,
    cr3: 0,
    dr: [0; 4],
    dr6: 0,
    dr7: 0,
    cpl: 0,
};

/// A mode, with the level of protected mode.
#[derive(Clone, Copy)]
pub enum Mode {
    Protected(u8),
    V86,
}

/// CR0 in either, with or without paging.
fn control(paging: bool) -> u32
    ensures protection { bit result 0 ≡ true }
    ensures paging { bit result 31 ≡ paging }
{
    if paging { 0x8000_0001 } else { 0x1 }
}

/// Four gibibytes from 0 on, of a type and a level.
fn flat(sel: u16, rights: u16, level: u8) -> Hidden
    requires level { level ≤ 3 }
    requires sel { sel ≤ 0x10 }
    requires rights { rights ≤ 0xC09B }
{
    Hidden {
        sel: sel + level as u16,
        base: 0,
        limit: 0xFFFF_FFFF,
        rights: rights + 0x20 * level as u16,
    }
}

/// A segment of V86.
fn virtual_segment(sel: u16) -> Hidden {
    Hidden {
        sel,
        base: 16 * sel as u32,
        limit: 0xFFFF,
        rights: 0xF3,
    }
}

/// The segment registers of a mode: ES, CS, SS, DS, FS and GS. Protected mode may have another stack.
fn segments(mode: Mode, stack: Option<Hidden>) -> [Hidden; 6] {
    match mode {
        Mode::Protected(level) => {
            let data = flat(0x10, 0xC093, level % 4);
            let code = flat(0x8, 0xC09B, level % 4);
            [data, code, stack.unwrap_or(data), data, data, data]
        }
        Mode::V86 => [
            virtual_segment(0x11),
            virtual_segment(0x22),
            virtual_segment(0x33),
            virtual_segment(0x44),
            virtual_segment(0x55),
            virtual_segment(0x66),
        ],
    }
}

/// The registers of a mode, with the tables and numbers of others.
pub fn in_mode(setup: &Regs, mode: Mode, paging: bool, stack: Option<Hidden>) -> Regs
    ensures sound { IsSound result }
    ensures paging { bit result.cr0 31 ≡ paging }
    ensures tables { result.cr3 ≡ setup.now.cr3 }
{
    let seg = segments(mode, stack);
    let cr0 = control(paging);
    match mode {
        Mode::Protected(level) => Regs {
            seg,
            cr0,
            eflags: FLAGS,
            cpl: level % 4,
            ..*setup
        },
        Mode::V86 => Regs {
            seg,
            cr0,
            eflags: VIRTUAL_FLAGS,
            cpl: 3,
            ..*setup
        },
    }
}
