//! What a user sees of the machine, by values that are worked out by hand.

ghost use Rattle.std.specs.Prelude.{◌≡◌, ◌≤◌, length, IfOk};

use crate::{BuildError, Pc};
use mdl_state::{Activity, Event, EventKind, Seg};
use std::alloc::{AllocError, Global};
use std::test::Fail;

/// HLT.
const HALT: u8 = 0xF4;

/// A machine of one mebibyte, with no disk. Its ROM has HLT everywhere, but for this code at F000h
/// and a jump to it at FFF0h, where the processor starts.
fn machine(alloc: Global, code: &[u8]) -> Result<Pc, AllocError>
    requires { length code.now ≤ 256 }
    ensures { IfOk result (λ pc. pc.state.core.steps ≡ 0) }
{
    let mut rom = vec![in alloc; HALT; 4096]?;
    rom[..code.len()].copy_from_slice(code);
    rom[0xFF0..0xFF3].copy_from_slice(&[0xE9, 0x0D, 0xF0]);
    match Pc::new(alloc, 1, rom, Vec::new(alloc)) {
        Ok(pc) => Ok(pc),
        Err(_) => Err(AllocError),
    }
}

#[test]
fn a_machine_starts_at_the_reset_vector_and_halts(rt: HostRuntime) -> Result<(), Fail> {
    let rom = vec![in rt.alloc(); HALT; 4096]?;
    let disk = vec![in rt.alloc(); 0x5A; 512]?;
    let Ok(mut pc) = Pc::new(rt.alloc(), 2, rom, disk) else {
        return Err(Fail::from(AllocError));
    };
    assert_eq!(rt; pc.regs().eip, 0xFFF0);
    assert_eq!(rt; pc.regs().seg[Seg::Cs as usize].sel, 0xF000);
    assert_eq!(rt; pc.reg(2), 0x308);
    assert_eq!(rt; pc.ram_len(), 0x200000);
    assert_eq!(rt; pc.byte(0x1FFFFF), 0);
    assert_eq!(rt; pc.phys_byte(0xFFFF_FFF0), HALT);
    assert_eq!(rt; pc.lin_byte(0xFFFF_FFF0), Some(HALT));
    assert_eq!(rt; pc.screen_cell(24, 79), (0, 0));
    assert_eq!(rt; pc.crt(0x0C), 0);
    assert_eq!(rt; pc.disk_len(), 512);
    assert_eq!(rt; pc.disk_byte(511), 0x5A);
    pc.step();
    assert_eq!(rt; pc.activity(), Activity::Halted);
    assert_eq!(rt; pc.regs().eip, 0xFFF1);
    assert_eq!(rt; pc.steps(), 1);
    assert_eq!(rt; pc.walks(), 0);
    Ok(())
}

#[test]
fn a_wrong_length_is_told_and_the_roms_first(rt: HostRuntime) -> Result<(), Fail> {
    for (rom, disk, error) in [
        (0, 0, BuildError::RomLength(0)),
        (4095, 0, BuildError::RomLength(4095)),
        (266_240, 0, BuildError::RomLength(266_240)),
        (4095, 513, BuildError::RomLength(4095)),
        (4096, 513, BuildError::DiskLength(513)),
        (262_144, 1, BuildError::DiskLength(1)),
    ] {
        let rom = vec![in rt.alloc(); HALT; rom]?;
        let disk = vec![in rt.alloc(); 0; disk]?;
        match Pc::new(rt.alloc(), 64, rom, disk) {
            Ok(_) => return Err(Fail::from(AllocError)),
            Err(told) => assert_eq!(rt; told, error),
        }
    }
    Ok(())
}

#[test]
fn an_event_comes_at_its_count_and_those_of_the_last_behind_the_last_step(
    rt: HostRuntime,
) -> Result<(), Fail> {
    for (at, steps, applied, eip) in [
        (0, 1, 1, 0xF000),
        (1, 1, 1, 0xFFF0),
        (1, 2, 1, 0xF000),
        (2, 1, 0, 0xF000),
        (0, 0, 1, 0xFFF0),
    ] {
        let mut pc = machine(rt.alloc(), &[])?;
        let reset = Event {
            at,
            kind: EventKind::Reset,
        };
        assert_eq!(rt; pc.run(&[reset], steps), applied);
        assert_eq!(rt; pc.regs().eip, eip);
        assert_eq!(rt; pc.steps(), steps);
    }
    Ok(())
}

// IN AL,64h: a byte waits, bit 0; the system flag, bit 2; unlocked, bit 4.
#[test]
fn a_key_waits_in_the_controller_unless_a_reset_comes_behind_it(
    rt: HostRuntime,
) -> Result<(), Fail> {
    let key = EventKind::Key(0x1E);
    for (first, second, status) in [
        (key, EventKind::Pulse(7), 0x15),
        (key, EventKind::Reset, 0x14),
        (EventKind::Reset, key, 0x15),
        (EventKind::Reset, EventKind::Pulse(7), 0x14),
    ] {
        let mut pc = machine(rt.alloc(), &[0xE4, 0x64])?;
        let events = [
            Event { at: 1, kind: first },
            Event {
                at: 1,
                kind: second,
            },
        ];
        assert_eq!(rt; pc.run(&events, 3), 2);
        assert_eq!(rt; pc.reg(0), status);
    }
    Ok(())
}

/// MOV DX,3D4h; MOV AX,120Ch; OUT DX,AX, by which the screen starts at cell 1200h; MOV BYTE [1234h],AAh;
/// MOV AL,D1h; OUT 64h,AL; MOV AL,1; OUT 60h,AL, which turns the line A20 off.
const SETTINGS: [u8; 20] = [
    0xBA, 0xD4, 0x03, 0xB8, 0x0C, 0x12, 0xEF, 0xC6, 0x06, 0x34, 0x12, 0xAA, 0xB0, 0xD1, 0xE6, 0x64,
    0xB0, 0x01, 0xE6, 0x60,
];

#[test]
fn a_reset_puts_chips_and_processor_at_boot_and_leaves_ram(rt: HostRuntime) -> Result<(), Fail> {
    let mut pc = machine(rt.alloc(), &SETTINGS)?;
    assert_eq!(rt; pc.run(&[], 9), 0);
    assert_eq!(rt; pc.crt(0x0C), 0x12);
    assert_eq!(rt; pc.phys_byte(0x101234), 0xAA);
    assert_eq!(rt; pc.phys_byte(0xFFFF_FFF0), 0xFF);
    pc.event(Event {
        at: 0,
        kind: EventKind::Reset,
    });
    assert_eq!(rt; pc.crt(0x0C), 0);
    assert_eq!(rt; pc.phys_byte(0x101234), 0xFF);
    assert_eq!(rt; pc.phys_byte(0xFFFF_FFF0), 0xE9);
    assert_eq!(rt; pc.phys_byte(0x1234), 0xAA);
    assert_eq!(rt; pc.regs().eip, 0xFFF0);
    assert_eq!(rt; pc.steps(), 9);
    Ok(())
}

// MOV EAX,FFFFF013h; MOV DR0,EAX; MOV EAX,1; MOV DR7,EAX; NOP; and HLT at F013h, before which vector 1 comes: its
// handler is 0000:0000, and FLAGS, CS and IP are below 10000h.
#[test]
fn a_run_goes_on_in_the_handler_of_a_breakpoint(rt: HostRuntime) -> Result<(), Fail> {
    let code = [
        0x66, 0xB8, 0x13, 0xF0, 0xFF, 0xFF, 0x0F, 0x23, 0xC0, 0x66, 0xB8, 1, 0, 0, 0, 0x0F, 0x23,
        0xF8, 0x90,
    ];
    let mut pc = machine(rt.alloc(), &code)?;
    let events = [
        Event {
            at: 6,
            kind: EventKind::Key(0x1E),
        },
        Event {
            at: 8,
            kind: EventKind::Reset,
        },
    ];
    assert_eq!(rt; pc.run(&events, 7), 1);
    assert_eq!(rt; pc.steps(), 7);
    assert_eq!(rt; pc.activity(), Activity::Running);
    assert_eq!(rt; pc.regs().eip, 0);
    assert_eq!(rt; pc.regs().dr6 & 15, 1);
    assert_eq!(rt; pc.phys_byte(0xFFFA), 0x13);
    assert_eq!(rt; pc.phys_byte(0xFFFB), 0xF0);
    Ok(())
}
