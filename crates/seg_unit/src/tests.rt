//! What the clauses say, in numbers. Each value is worked out by hand.

use crate::{address, check, check_part, is_protected, segment, who};
use mdl_insn::Mem;
use mdl_state::{Fault, Hidden, Regs, Seg, Size, Who};

/// A fault of SS.
const STACK: Result<u32, Fault> = Err(Fault {
    vector: 12,
    code: 0,
    addr: 0,
});

/// A fault of any other segment register.
const GENERAL: Result<u32, Fault> = Err(Fault {
    vector: 13,
    code: 0,
    addr: 0,
});

/// A segment with this base, limit and rights.
fn hidden(base: u32, limit: u32, rights: u16) -> Hidden {
    Hidden {
        sel: 0,
        base,
        limit,
        rights,
    }
}

/// Registers of real mode, with each segment register like this.
fn real(hidden: Hidden) -> Regs {
    Regs {
        gpr: [0; 8],
        eip: 0,
        eflags: 2,
        seg: [hidden; 6],
        ldtr: hidden,
        tr: hidden,
        gdt_base: 0,
        gdt_limit: 0,
        idt_base: 0,
        idt_limit: 0,
        cr0: 0,
        cr2: 0,
        cr3: 0,
        dr: [0; 4],
        dr6: 0,
        dr7: 0,
        cpl: 0,
    }
}

/// The same in protected mode, at level 3.
fn protected(hidden: Hidden) -> Regs {
    let mut regs = real(hidden);
    regs.cr0 = 1;
    regs.cpl = 3;
    regs
}

/// The same in V86.
fn virtual_8086(hidden: Hidden) -> Regs {
    let mut regs = protected(hidden);
    regs.eflags = 0x2_0002;
    regs
}

#[test]
fn in_real_mode_a_byte_past_the_limit_faults(rt: HostRuntime) {
    let regs = real(hidden(0x1_2340, 0xFFFF, 0x93));
    let cases = [
        (Seg::Ds, 0xFFFF, Size::B1, Ok(0x2_233F)),
        (Seg::Ds, 0xFFFE, Size::B2, Ok(0x2_233E)),
        (Seg::Ds, 0xFFFF, Size::B2, GENERAL),
        (Seg::Es, 0xFFFC, Size::B4, Ok(0x2_233C)),
        (Seg::Es, 0xFFFD, Size::B4, GENERAL),
        (Seg::Cs, 0x1_0000, Size::B1, GENERAL),
        (Seg::Ss, 0xFFFC, Size::B4, Ok(0x2_233C)),
        (Seg::Ss, 0xFFFD, Size::B4, STACK),
        (Seg::Ss, 0xFFFF, Size::B2, STACK),
    ];
    for (seg, offset, size, answer) in cases {
        assert_eq!(rt; check(&regs, seg, offset, size, false), answer);
        assert_eq!(rt; check(&regs, seg, offset, size, true), answer);
    }
}

#[test]
fn offsets_do_not_wrap_but_linear_addresses_do(rt: HostRuntime) {
    let cases = [
        (0, 0xFFFF_FFFF, Size::B1, Ok(0xFFFF_FFFF)),
        (0, 0xFFFF_FFFC, Size::B4, Ok(0xFFFF_FFFC)),
        (0, 0xFFFF_FFFE, Size::B4, GENERAL),
        (0, 0xFFFF_FFFF, Size::B2, GENERAL),
        (0xFFFF_0000, 0xFFF0, Size::B1, Ok(0xFFFF_FFF0)),
        (0xFFFF_0000, 0x1_2345, Size::B4, Ok(0x2345)),
    ];
    for (base, offset, size, answer) in cases {
        let segment = hidden(base, 0xFFFF_FFFF, 0x93);
        assert_eq!(rt; check(&real(segment), Seg::Fs, offset, size, false), answer);
        assert_eq!(rt;
            check(&protected(segment), Seg::Gs, offset, size, true),
            answer
        );
    }
}

#[test]
fn the_selector_of_a_far_pointer_lies_behind_its_offset(rt: HostRuntime) {
    let word = real(hidden(0, 0xFFFF, 0x93));
    assert_eq!(rt;
        check_part(&word, Seg::Ds, 0xFFFC, 2, Size::B2, false),
        Ok(0xFFFE)
    );
    assert_eq!(rt;
        check_part(&word, Seg::Ds, 0xFFFE, 2, Size::B2, false),
        GENERAL
    );
    let double = real(hidden(0, 0xFFFF_FFFF, 0x93));
    assert_eq!(rt;
        check(&double, Seg::Ss, 0xFFFF_FFFC, Size::B4, false),
        Ok(0xFFFF_FFFC)
    );
    assert_eq!(rt;
        check_part(&double, Seg::Ss, 0xFFFF_FFFC, 4, Size::B2, false),
        STACK
    );
}

#[test]
fn a_segment_that_grows_down_has_the_offsets_above_its_limit(rt: HostRuntime) {
    let word = hidden(0, 0xFFF, 0x97);
    let double = hidden(0, 0xFFF, 0x4097);
    let cases = [
        (word, 0xFFF, Size::B4, GENERAL),
        (word, 0x1000, Size::B4, Ok(0x1000)),
        (word, 0xFFFE, Size::B2, Ok(0xFFFE)),
        (word, 0xFFFF, Size::B2, GENERAL),
        (word, 0x1_0000, Size::B1, GENERAL),
        (double, 0xFFF, Size::B1, GENERAL),
        (double, 0x1_0000, Size::B1, Ok(0x1_0000)),
        (double, 0xFFFF_FFFC, Size::B4, Ok(0xFFFF_FFFC)),
        (double, 0xFFFF_FFFE, Size::B4, GENERAL),
    ];
    for (segment, offset, size, answer) in cases {
        assert_eq!(rt;
            check(&protected(segment), Seg::Ds, offset, size, true),
            answer
        );
    }
    // Elsewhere the direction does not count.
    assert_eq!(rt;
        check(&real(word), Seg::Ds, 0xFFC, Size::B4, true),
        Ok(0xFFC)
    );
    assert_eq!(rt;
        check(&real(word), Seg::Ds, 0x1000, Size::B1, true),
        GENERAL
    );
}

#[test]
fn rights_count_in_protected_mode_alone(rt: HostRuntime) {
    // Rights, and whether they allow a read and a write.
    let cases = [
        (0x93, true, true),
        (0x91, true, false),
        (0x9B, true, false),
        (0x99, false, false),
        (0, false, false),
    ];
    for (rights, reads, writes) in cases {
        let segment = hidden(0x100, 0xFFFF, rights);
        for write in [false, true] {
            let allowed = if write { writes } else { reads };
            let answer = if allowed { Ok(0x105) } else { GENERAL };
            assert_eq!(rt;
                check(&protected(segment), Seg::Ds, 5, Size::B2, write),
                answer
            );
            assert_eq!(rt;
                check(&real(segment), Seg::Cs, 5, Size::B2, write),
                Ok(0x105)
            );
            assert_eq!(rt;
                check(&virtual_8086(segment), Seg::Ss, 5, Size::B2, write),
                Ok(0x105)
            );
        }
    }
    let unusable = hidden(0, 0, 0);
    assert_eq!(rt;
        check(&protected(unusable), Seg::Ss, 0, Size::B1, false),
        STACK
    );
    assert_eq!(rt; check(&real(unusable), Seg::Ss, 0, Size::B1, false), Ok(0));
}

#[test]
fn an_offset_is_cut_to_the_address_size(rt: HostRuntime) {
    let mut regs = real(hidden(0, 0xFFFF, 0x93));
    regs.gpr = [0, 8, 0, 0xFFFF_F000, 0, 1, 0x1234_2000, 0];
    // Base, index, scale, displacement, address size, and the offset.
    let cases = [
        (Some(3), Some(6), 1, 1, false, 0x1001),
        (Some(5), None, 1, 0xFFFE, false, 0xFFFF),
        (Some(5), None, 1, 0xFFFF, false, 0),
        (None, None, 1, 0xFFFF, false, 0xFFFF),
        (Some(3), Some(1), 4, 0x1234, true, 0x254),
        (None, Some(1), 8, 0xFFFF_FFFE, true, 0x3E),
        (Some(6), Some(6), 2, 0, true, 0x369C_6000),
    ];
    for (base, index, scale, disp, wide, offset) in cases {
        let mem = Mem {
            seg: Seg::Ds,
            base,
            index,
            scale,
            disp,
            wide,
        };
        assert_eq!(rt; address(&regs, &mem), offset);
    }
}

#[test]
fn level_3_is_the_user_and_v86_is_not_protected(rt: HostRuntime) {
    let data = hidden(0x10, 0x20, 0x93);
    assert_eq!(rt; segment(&real(data), Seg::Gs), data);
    assert_eq!(rt; who(&real(data)), Who::Supervisor);
    assert_eq!(rt; who(&protected(data)), Who::User);
    assert!(rt; is_protected(&protected(data)));
    assert!(rt; !is_protected(&real(data)));
    assert!(rt; !is_protected(&virtual_8086(data)));
}
