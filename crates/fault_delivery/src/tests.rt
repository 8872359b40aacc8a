//! Deliveries of real mode worked out by hand from the manual, chapters 9 and 14. Those of the other modes
//! are lines of `gate_lines`.

ghost use Rattle.std.specs.Prelude.{◌≡◌, false, [], length, IfOk};
ghost use Rattle.mdl_cpu.specs.Segments.{has_protection};
ghost use Rattle.phys_map.specs.Sound.{IsBlank};

use crate::{Delivered, deliver};
use guest_ram::Ram;
use mdl_cpu::Cause;
use mdl_state::{Hidden, Regs, Size};
use mem_iface::Phys;
use phys_map::PhysMap;
use std::alloc::{AllocError, Global};
use std::test::Fail;
use tlb::Tlb;

/// RAM of so many bytes.
#[tactic(auto, using(phys_map::specs::SoundLaws::zeros_blank, std::proofs::lemmas::Grind::common_steps))]
fn ram(alloc: Global, bytes: u32) -> Result<Ram, AllocError>
    ensures length { IfOk result (λ ram. length ram ≡ bytes) }
    ensures blank { IfOk result (λ ram. IsBlank ram) }
{
    Ram::new(alloc, bytes)
}

/// Two mebibytes of RAM. The entry of vector `v` at `4 * v` is IP `1000h + v` and CS `2000h + v`.
fn machine(alloc: Global) -> Result<Tlb, AllocError>
    ensures { IfOk result (λ memory. memory.held ≡ []) }
{
    let ram = ram(alloc, 0x20_0000)?;
    let rom = vec![in alloc; 0xF4; 0x1000]?;
    let mut map = PhysMap::new(ram, rom);
    map.store(0, Size::B4, 0x2000_1000);
    map.store(12, Size::B4, 0x2003_1003);
    map.store(32, Size::B4, 0x2008_1008);
    map.store(36, Size::B4, 0x2009_1009);
    map.store(1020, Size::B4, 0x20FF_10FF);
    Ok(Tlb::new(map))
}

/// Registers at F000h:FFF0h, with the table of vectors at 0 and the stack in the first 64 KiB.
fn regs(idt_limit: u16, sp: u32, eflags: u32) -> Regs
    ensures { has_protection result ≡ false }
{
    let data = Hidden {
        sel: 0,
        base: 0,
        limit: 0xFFFF,
        rights: 0x93,
    };
    let code = Hidden {
        sel: 0xF000,
        base: 0xF_0000,
        ..data
    };
    Regs {
        gpr: [0, 0, 0, 0, sp, 0, 0, 0],
        eip: 0xFFF0,
        eflags,
        seg: [data, code, data, data, data, data],
        ldtr: data,
        tr: data,
        gdt_base: 0,
        gdt_limit: 0xFFFF,
        idt_base: 0,
        idt_limit,
        cr0: 0,
        cr2: 0,
        cr3: 0,
        dr: [0; 4],
        dr6: 0,
        dr7: 0,
        cpl: 0,
    }
}

/// A fault of the instruction at EIP.
fn fault(vector: u8) -> Cause {
    Cause {
        vector,
        code: None,
        soft: false,
        fault: true,
        ext: true,
        back: 0,
    }
}

/// An interrupt of the line.
fn line(vector: u8) -> Cause {
    Cause {
        fault: false,
        back: 0xFFF0,
        ..fault(vector)
    }
}

/// A software interrupt of two bytes.
fn soft(vector: u8) -> Cause {
    Cause {
        soft: true,
        fault: false,
        ext: false,
        back: 0xFFF2,
        ..fault(vector)
    }
}

/// The six bytes from FFFAh on.
fn frame(memory: &Tlb) -> [u8; 6] {
    let map = memory.phys();
    [
        map.byte(0xFFFA),
        map.byte(0xFFFB),
        map.byte(0xFFFC),
        map.byte(0xFFFD),
        map.byte(0xFFFE),
        map.byte(0xFFFF),
    ]
}

#[test]
#[tactic(auto, using(crate::proofs::Attempts::real_ready))]
fn deliveries_come_to_a_handler(rt: HostRuntime) -> Result<(), Fail> {
    // The cause, the limit of the table, EFLAGS, and then the vector that is delivered, EFLAGS, and the frame.
    for (cause, limit, before, vector, after, bytes) in [
        (
            fault(0),
            0x3FF,
            0x2,
            0,
            0x2,
            [0xF0, 0xFF, 0x00, 0xF0, 0x02, 0x00],
        ),
        (
            line(255),
            0x3FF,
            0x1_4302,
            255,
            0x1_4002,
            [0xF0, 0xFF, 0x00, 0xF0, 0x02, 0x43],
        ),
        (
            soft(3),
            0x3FF,
            0x1_0302,
            3,
            0x2,
            [0xF2, 0xFF, 0x00, 0xF0, 0x02, 0x03],
        ),
        (
            line(8),
            0x23,
            0x202,
            8,
            0x2,
            [0xF0, 0xFF, 0x00, 0xF0, 0x02, 0x02],
        ),
        // The entry of vector 9 ends at 27h.
        (
            soft(9),
            0x27,
            0x2,
            9,
            0x2,
            [0xF2, 0xFF, 0x00, 0xF0, 0x02, 0x00],
        ),
        (
            soft(9),
            0x26,
            0x2,
            8,
            0x2,
            [0xF0, 0xFF, 0x00, 0xF0, 0x02, 0x00],
        ),
    ] {
        let mut memory = machine(rt.alloc())?;
        let mut regs = regs(limit, 0, before);
        assert_eq!(rt;
            deliver(&mut regs, &mut memory, cause),
            Delivered::Done(false)
        );
        assert_eq!(rt; regs.eip, 0x1000 + vector);
        assert_eq!(rt; regs.seg[1].sel as u32, 0x2000 + vector);
        assert_eq!(rt; regs.seg[1].base, 0x2_0000 + 16 * vector);
        assert_eq!(rt; (regs.gpr[4], regs.eflags), (0xFFFA, after));
        assert_eq!(rt; frame(&memory), bytes);
    }
    Ok(())
}

#[test]
#[tactic(auto, using(crate::proofs::Attempts::real_ready))]
fn a_table_or_a_stack_that_is_too_short_shuts_down(rt: HostRuntime) -> Result<(), Fail> {
    // The cause, the limit of the table, and SP. With SP 5 two of three words would fit.
    for (cause, limit, sp) in [
        (soft(3), 0x2, 0),
        (line(8), 0x22, 0),
        (fault(6), 0x3FF, 1),
        (fault(0), 0x3FF, 5),
    ] {
        let mut memory = machine(rt.alloc())?;
        let before = regs(limit, sp, 0x1_0302);
        let mut regs = before;
        assert_eq!(rt; deliver(&mut regs, &mut memory, cause), Delivered::Shutdown);
        assert_eq!(rt; regs, before);
        assert_eq!(rt; frame(&memory), [0; 6]);
        assert_eq!(rt; memory.phys().byte(1), 0x10);
        assert_eq!(rt; memory.phys().byte(4), 0);
    }
    Ok(())
}
