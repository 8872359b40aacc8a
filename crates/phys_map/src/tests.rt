//! The table of the memory map, by values.

ghost use Rattle.std.specs.Prelude.{◌≡◌, ◌<◌, length, IfOk};
ghost use Rattle.phys_map.specs.Sound.{IsBlank};

use crate::PhysMap;
use guest_ram::Ram;
use mdl_state::Size;
use mem_iface::Phys;
use std::alloc::{AllocError, Global};
use std::test::Fail;

/// RAM of so many bytes.
#[tactic(auto, using(crate::specs::SoundLaws::zeros_blank, std::proofs::lemmas::Grind::common_steps))]
fn ram(alloc: Global, bytes: u32) -> Result<Ram, AllocError>
    ensures length { IfOk result (λ ram. length ram ≡ bytes) }
    ensures blank { IfOk result (λ ram. IsBlank ram) }
{
    Ram::new(alloc, bytes)
}

/// A ROM of so many bytes with marks at its start, where its last 128 KiB begin, and at its end.
fn rom(alloc: Global, bytes: usize) -> Result<Vec<u8>, AllocError>
    requires { 0x20000 < bytes }
    ensures { IfOk result (λ rom. length rom.items ≡ bytes) }
{
    let mut rom = vec![in alloc; 0; bytes]?;
    rom[0] = 0x80;
    rom[bytes - 0x20000] = 0x90;
    rom[bytes - 1] = 0xAF;
    Ok(rom)
}

/// Two mebibytes of RAM, and a ROM of 192 KiB.
fn map(alloc: Global) -> Result<PhysMap, AllocError> {
    let ram = ram(alloc, 0x200000)?;
    let rom = rom(alloc, 0x30000)?;
    Ok(PhysMap::new(ram, rom))
}

/// The same, with marks in RAM.
fn marked(alloc: Global) -> Result<PhysMap, AllocError> {
    let mut map = map(alloc)?;
    for (at, byte) in [
        (0x00000, 0x11),
        (0x9FFFF, 0x22),
        (0xB8000, 0x33),
        (0x100000, 0x44),
        (0x1FFFFF, 0x55),
    ] {
        map.store(at, Size::B1, byte);
    }
    Ok(map)
}

#[test]
fn each_range_has_its_memory(rt: HostRuntime) -> Result<(), Fail> {
    let mut map = marked(rt.alloc())?;
    for (a20, at, byte) in [
        (true, 0x00000000, 0x11),
        (true, 0x0009FFFF, 0x22),
        (true, 0x000A0000, 0xFF),
        (true, 0x000B7FFF, 0xFF),
        (true, 0x000B8000, 0x33),
        (true, 0x000BFFFF, 0x00),
        (true, 0x000C0000, 0xFF),
        (true, 0x000DFFFF, 0xFF),
        (true, 0x000E0000, 0x90),
        (true, 0x000FFFFF, 0xAF),
        (true, 0x00100000, 0x44),
        (true, 0x001FFFFF, 0x55),
        (true, 0x00200000, 0xFF),
        (true, 0xFFFCFFFF, 0xFF),
        (true, 0xFFFD0000, 0x80),
        (true, 0xFFFFFFFF, 0xAF),
        (false, 0x00000000, 0x11),
        (false, 0x000B8000, 0x33),
        (false, 0x000FFFFF, 0xAF),
        (false, 0x00100000, 0x11),
        (false, 0x001B8000, 0x33),
        (false, 0x001FFFFF, 0xAF),
        (false, 0x00200000, 0xFF),
        (false, 0xFFFFFFFF, 0xFF),
    ] {
        map.set_a20(a20);
        assert_eq!(rt; map.byte(at), byte, "at {at:#x}, A20 {a20}");
        assert_eq!(rt;
            map.load(at, Size::B1),
            u32::from(byte),
            "at {at:#x}, A20 {a20}"
        );
    }
    Ok(())
}

#[test]
fn eight_bytes_of_a_page_come_at_once(rt: HostRuntime) -> Result<(), Fail> {
    let mut map = marked(rt.alloc())?;
    for (a20, at, eight) in [
        (true, 0x00000000, Some(0x0000000000000011)),
        (true, 0x0009FFF8, Some(0x2200000000000000)),
        (true, 0x000A0000, None),
        (true, 0x000B8000, Some(0x0000000000000033)),
        (true, 0x000E0000, Some(0x0000000000000090)),
        (true, 0x000FFFF8, Some(0xAF00000000000000)),
        (true, 0x000FFFF9, None),
        (true, 0x00100000, Some(0x0000000000000044)),
        (true, 0x001FFFF8, Some(0x5500000000000000)),
        (true, 0x00200000, None),
        (true, 0xFFFD0000, Some(0x0000000000000080)),
        (true, 0xFFFFFFF8, Some(0xAF00000000000000)),
        (true, 0xFFFFFFFF, None),
        (false, 0x00100000, Some(0x0000000000000011)),
        (false, 0x001FFFF8, Some(0xAF00000000000000)),
        (false, 0xFFFFFFF8, None),
    ] {
        map.set_a20(a20);
        assert_eq!(rt; map.eight_in_page(at), eight, "at {at:#x}, A20 {a20}");
    }
    Ok(())
}

#[test]
fn writes_outside_ram_are_lost(rt: HostRuntime) -> Result<(), Fail> {
    let mut map = map(rt.alloc())?;
    for (at, before) in [
        (0x000A0000, 0xFFFFFFFF),
        (0x000E0000, 0x00000090),
        (0x000FFFFC, 0xAF000000),
        (0x00200000, 0xFFFFFFFF),
        (0xFFFFFFFC, 0xAF000000),
    ] {
        map.store(at, Size::B4, 0x12345678);
        assert_eq!(rt; map.load(at, Size::B4), before, "at {at:#x}");
    }
    for at in [0xA0000, 0xE0000, 0xFFFFC] {
        assert_eq!(rt; map.ram_byte(at), 0, "at {at:#x}");
    }
    Ok(())
}

#[test]
fn the_screen_has_its_bytes_in_the_list_of_ram(rt: HostRuntime) -> Result<(), Fail> {
    let mut map = map(rt.alloc())?;
    map.store(0xB8000, Size::B2, 0x0741);
    assert_eq!(rt; map.ram_byte(0xB8000), 0x41);
    assert_eq!(rt; map.ram_byte(0xB8001), 0x07);
    map.set_a20(false);
    map.store(0x1B8002, Size::B4, 0x07430742);
    assert_eq!(rt; map.ram_byte(0xB8002), 0x42);
    assert_eq!(rt; map.load(0xB8000, Size::B4), 0x07420741);
    map.set_a20(true);
    assert_eq!(rt; map.byte(0x1B8002), 0);
    Ok(())
}
