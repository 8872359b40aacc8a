//! The processor after a reset. Manual, chapter 10.

ghost use Rattle.std.specs.Prelude.{◌≡◌};
ghost use Rattle.mdl_state.specs.Boot.{reset_regs, clear_latches};

use mdl_state::{Hidden, Latches, Regs};

/// The rights of a data segment: present, writable, accessed.
const DATA_RIGHTS: u16 = 0x93;

/// The rights of a code segment: present, readable, accessed.
const CODE_RIGHTS: u16 = 0x9B;

/// The registers after a reset.
pub(crate) fn reset_regs() -> Regs
    ensures { result ≡ reset_regs }
{
    let data = Hidden {
        sel: 0,
        base: 0,
        limit: 0xFFFF,
        rights: DATA_RIGHTS,
    };
    let code = Hidden {
        sel: 0xF000,
        base: 0xFFFF_0000,
        limit: 0xFFFF,
        rights: CODE_RIGHTS,
    };
    let unusable = Hidden {
        sel: 0,
        base: 0,
        limit: 0,
        rights: 0,
    };
    Regs {
        gpr: [0, 0, 0x308, 0, 0, 0, 0, 0],
        eip: 0xFFF0,
        eflags: 2,
        seg: [data, code, data, data, data, data],
        ldtr: unusable,
        tr: unusable,
        gdt_base: 0,
        gdt_limit: 0xFFFF,
        idt_base: 0,
        idt_limit: 0x3FF,
        cr0: 0,
        cr2: 0,
        cr3: 0,
        dr: [0; 4],
        dr6: 0,
        dr7: 0,
        cpl: 0,
    }
}

/// Nothing is latched, masked, held back or pending.
pub(crate) fn clear_latches() -> Latches
    ensures { result ≡ clear_latches }
{
    Latches {
        nmi: false,
        masked: false,
        hold: 0,
        pending: 0,
    }
}
