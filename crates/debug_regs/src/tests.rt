//! Worked examples, by hand from the manual, chapter 12.

ghost use Rattle.std.specs.Prelude.{◌≡◌, length, IfOk};
ghost use Rattle.phys_map.specs.Sound.{IsBlank};

use crate::{Watched, access_hit, data_breakpoints, execute_hit, is_any_enabled};
use guest_ram::Ram;
use mdl_state::{Access, Hidden, Regs, Size, Who};
use mem_iface::Linear;
use phys_map::PhysMap;
use std::alloc::{AllocError, Global};
use std::test::Fail;
use tlb::Tlb;

/// Registers with these debug registers.
fn regs(dr: [u32; 4], dr7: u32) -> Regs {
    let unusable = Hidden {
        sel: 0,
        base: 0,
        limit: 0,
        rights: 0,
    };
    Regs {
        gpr: [0; 8],
        eip: 0,
        eflags: 2,
        seg: [unusable; 6],
        ldtr: unusable,
        tr: unusable,
        gdt_base: 0,
        gdt_limit: 0,
        idt_base: 0,
        idt_limit: 0,
        cr0: 0,
        cr2: 0,
        cr3: 0,
        dr,
        dr6: 0,
        dr7,
        cpl: 0,
    }
}

/// RAM of so many bytes.
#[tactic(auto, using(phys_map::specs::SoundLaws::zeros_blank, std::proofs::lemmas::Grind::common_steps))]
fn ram(alloc: Global, bytes: u32) -> Result<Ram, AllocError>
    ensures length { IfOk result (λ ram. length ram ≡ bytes) }
    ensures blank { IfOk result (λ ram. IsBlank ram) }
{
    Ram::new(alloc, bytes)
}

#[rattlefmt::skip]
#[test]
fn an_access_meets_the_breakpoints_that_it_overlaps(rt: HostRuntime) {
    // DR0, DR7, then the access, and the bits of DR6.
    for (dr0, dr7, lin, size, write, bits) in [
        // Four bytes, for writes, by G0.
        (0x1000, 0x000D_0002, 0x1003, Size::B1, true, 1),
        (0x1000, 0x000D_0002, 0x0FFF, Size::B2, true, 1),
        (0x1000, 0x000D_0002, 0x0FFF, Size::B1, true, 0),
        (0x1000, 0x000D_0002, 0x1004, Size::B1, true, 0),
        (0x1000, 0x000D_0002, 0x1000, Size::B4, false, 0),
        // For reads and writes.
        (0x1000, 0x000F_0002, 0x1000, Size::B4, false, 1),
        // The address without its two low bits; by L0.
        (0x1003, 0x000D_0001, 0x1000, Size::B1, true, 1),
        (0x1003, 0x000D_0001, 0x1004, Size::B1, true, 0),
        // Two bytes.
        (0x1003, 0x0005_0001, 0x1002, Size::B1, true, 1),
        (0x1003, 0x0005_0001, 0x1001, Size::B1, true, 0),
        // One byte, at the end of the address space.
        (0, 0x0001_0001, 0xFFFF_FFFF, Size::B2, true, 1),
        (0, 0x0001_0001, 0xFFFF_FFFD, Size::B2, true, 0),
        // Neither L0 nor G0; on execution.
        (0x1000, 0x000D_0000, 0x1000, Size::B4, true, 0),
        (0x1000, 0x0000_0002, 0x1000, Size::B1, true, 0),
    ] {
        let regs = regs([dr0, 0, 0, 0], dr7);
        assert_eq!(rt; access_hit(&regs, lin, size, write), bits, "{lin:x}");
    }
}

#[test]
fn each_breakpoint_has_its_bit(rt: HostRuntime) {
    // DR0 and DR3 on execution, DR1 and DR2 on reads and writes of four bytes and of one; DR1 by G1, the
    // others by L.
    let regs = regs([0x1000, 0x1000, 0x1000, 0x1000], 0x03F0_0059);
    assert_eq!(rt; execute_hit(&regs, 0x1000), 9);
    assert_eq!(rt; execute_hit(&regs, 0x1001), 0);
    assert_eq!(rt; access_hit(&regs, 0x1000, Size::B1, false), 6);
    assert_eq!(rt; access_hit(&regs, 0x1001, Size::B1, true), 2);
    assert!(rt; is_any_enabled(&regs));
}

#[test]
fn hits_stay_until_others_are_looked_for(rt: HostRuntime) -> Result<(), Fail> {
    let rom = vec![in rt.alloc(); 0xF4; 0x1000]?;
    let mut lin = Watched::new(Tlb::new(PhysMap::new(ram(rt.alloc(), 0x10_0000)?, rom)));
    let regs = regs([0x1000, 0x2000, 0, 0], 0x0031_0005);
    lin.look_for(data_breakpoints(&regs));
    assert_eq!(rt; lin.near(0x3000, Who::User), None);
    assert_eq!(rt; lin.write(0x1000, Size::B1, 7, Who::User), Ok(()));
    assert_eq!(rt; lin.hits, 1);
    lin.commit();
    assert_eq!(rt; lin.read(0x2000, Size::B1, Who::Supervisor), Ok(0));
    assert_eq!(rt; lin.hits, 3);
    lin.look_for(data_breakpoints(&regs));
    assert_eq!(rt; lin.read(0x1000, Size::B1, Who::User), Ok(7));
    assert!(rt;
        lin.translate(0x1000, Size::B1, Access::Write(Who::Tables))
            .is_ok()
    );
    assert_eq!(rt; lin.hits, 0);
    Ok(())
}
