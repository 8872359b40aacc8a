//! What no clause says: accesses over the borders of the map, and what is seen of held writes.

ghost use Rattle.std.specs.Prelude.{◌≡◌, ◌<◌, length, IfOk};
ghost use Rattle.mdl_state.specs.Bytes.{bound_of};
ghost use Rattle.phys_map.specs.Sound.{IsBlank};

use crate::Tlb;
use guest_ram::Ram;
use mdl_state::{Fault, Size, Who};
use mem_iface::{Linear, Phys};
use phys_map::PhysMap;
use std::alloc::{AllocError, Global};
use std::test::Fail;

/// RAM of so many bytes.
#[tactic(auto, using(phys_map::specs::SoundLaws::zeros_blank, std::proofs::lemmas::Grind::common_steps))]
fn ram(alloc: Global, bytes: u32) -> Result<Ram, AllocError>
    ensures length { IfOk result (λ ram. length ram ≡ bytes) }
    ensures blank { IfOk result (λ ram. IsBlank ram) }
{
    Ram::new(alloc, bytes)
}

/// A ROM of so many bytes F4h with marks in its last two.
fn rom(alloc: Global, bytes: usize) -> Result<Vec<u8>, AllocError>
    requires { 2 < bytes }
    ensures { IfOk result (λ rom. length rom.items ≡ bytes) }
{
    let mut rom = vec![in alloc; 0xF4; bytes]?;
    rom[bytes - 2] = 0xAE;
    rom[bytes - 1] = 0xAF;
    Ok(rom)
}

/// Two mebibytes of RAM, and a ROM of 4 KiB. Marks in RAM stand at 0, below the end of conventional
/// memory and from 1 MiB on.
fn machine(alloc: Global) -> Result<Tlb, AllocError> {
    let ram = ram(alloc, 0x200000)?;
    let rom = rom(alloc, 0x1000)?;
    let mut map = PhysMap::new(ram, rom);
    map.store(0, Size::B4, 0x14131211);
    map.store(0x9FFFC, Size::B4, 0x24232221);
    map.store(0x100000, Size::B4, 0x34333231);
    Ok(Tlb::new(map))
}

/// Holds a write, where there is room.
fn write(memory: &mut Tlb, at: u32, size: Size, value: u32) -> Result<(), Fault>
    requires { value < bound_of size }
{
    if memory.room() < 4 {
        return Ok(());
    }
    memory.write(at, size, value, Who::Supervisor)
}

#[test]
fn an_access_goes_on_behind_the_border_of_a_page(rt: HostRuntime) -> Result<(), Fail> {
    let mut memory = machine(rt.alloc())?;
    for (at, size, value) in [
        (0x00000000, Size::B4, 0x14131211),
        (0x0009FFFE, Size::B4, 0xFFFF2423),
        (0x0009FFFF, Size::B2, 0xFF24),
        (0x0009FFFF, Size::B1, 0x24),
        (0x000FFFFE, Size::B4, 0x3231AFAE),
        (0xFFFFFFFE, Size::B4, 0x1211AFAE),
        (0xFFFFFFFF, Size::B2, 0x11AF),
    ] {
        assert_eq!(rt; memory.read(at, size, Who::User), Ok(value), "at {at:#x}");
    }
    assert_eq!(rt; memory.walks(), 0);
    Ok(())
}

#[test]
fn code_of_the_rom_is_at_hand_unless_a_write_is_held(rt: HostRuntime) -> Result<(), Fail> {
    let mut memory = machine(rt.alloc())?;
    for (at, eight) in [
        (0x000FFFF8, Some(0xAFAEF4F4F4F4F4F4)),
        (0x00100000, Some(0x0000000034333231)),
        (0xFFFFFFF8, Some(0xAFAEF4F4F4F4F4F4)),
        (0xFFFFFFF9, None),
    ] {
        assert_eq!(rt; memory.near(at, Who::User), eight, "at {at:#x}");
    }
    write(&mut memory, 0x2000, Size::B1, 0x11)?;
    assert_eq!(rt; memory.near(0x000FFFF8, Who::User), None);
    Ok(())
}

#[test]
fn a_held_write_is_seen_by_reads_and_not_by_the_map(rt: HostRuntime) -> Result<(), Fail> {
    let mut memory = machine(rt.alloc())?;
    write(&mut memory, 0x2000, Size::B4, 0x44332211)?;
    assert_eq!(rt; memory.read(0x2001, Size::B2, Who::User), Ok(0x3322));
    assert_eq!(rt; memory.phys().byte(0x2000), 0);
    assert_eq!(rt; memory.room(), 252);
    memory.commit();
    assert_eq!(rt; memory.phys().byte(0x2000), 0x11);
    assert_eq!(rt; memory.room(), 256);
    write(&mut memory, 0x2000, Size::B4, 0x88776655)?;
    memory.discard();
    assert_eq!(rt; memory.read(0x2000, Size::B4, Who::User), Ok(0x44332211));
    Ok(())
}

#[test]
fn the_last_held_write_of_an_address_is_seen_and_stays(rt: HostRuntime) -> Result<(), Fail> {
    let mut memory = machine(rt.alloc())?;
    write(&mut memory, 0x2000, Size::B4, 0x44332211)?;
    write(&mut memory, 0x2002, Size::B4, 0x88776655)?;
    write(&mut memory, 0x2001, Size::B1, 0x99)?;
    assert_eq!(rt; memory.read(0x2000, Size::B4, Who::User), Ok(0x66559911));
    assert_eq!(rt; memory.read(0x2003, Size::B4, Who::User), Ok(0x00887766));
    memory.commit();
    assert_eq!(rt; memory.read(0x2000, Size::B4, Who::User), Ok(0x66559911));
    assert_eq!(rt; memory.read(0x2003, Size::B4, Who::User), Ok(0x00887766));
    Ok(())
}

#[test]
fn a_write_over_the_end_of_the_address_space_reaches_ram_alone(
    rt: HostRuntime,
) -> Result<(), Fail> {
    let mut memory = machine(rt.alloc())?;
    write(&mut memory, 0xFFFFFFFE, Size::B4, 0xD4D3D2D1)?;
    assert_eq!(rt;
        memory.read(0xFFFFFFFE, Size::B4, Who::User),
        Ok(0xD4D3D2D1)
    );
    memory.commit();
    assert_eq!(rt;
        memory.read(0xFFFFFFFE, Size::B4, Who::User),
        Ok(0xD4D3AFAE)
    );
    assert_eq!(rt; memory.read(0, Size::B4, Who::User), Ok(0x1413D4D3));
    Ok(())
}

#[test]
fn with_a20_off_a_held_write_is_seen_a_mebibyte_above(rt: HostRuntime) -> Result<(), Fail> {
    let mut memory = machine(rt.alloc())?;
    memory.set_a20(false);
    write(&mut memory, 0x102000, Size::B2, 0x2211)?;
    assert_eq!(rt; memory.read(0x2000, Size::B2, Who::User), Ok(0x2211));
    memory.commit();
    memory.set_a20(true);
    assert_eq!(rt; memory.phys().byte(0x2000), 0x11);
    assert_eq!(rt; memory.phys().byte(0x102000), 0);
    Ok(())
}

/// A directory at 10000h whose first entry names the table at 11000h, with page 5 at 3000h, page 6 at
/// the ROM's end below 1 MiB, page 7 for supervisors, and page 8 not present.
fn paged(alloc: Global) -> Result<Tlb, Fail> {
    let mut memory = machine(alloc)?;
    for (at, entry) in [
        (0x10000, 0x00011007),
        (0x11014, 0x00003007),
        (0x11018, 0x000FF007),
        (0x1101C, 0x00004003),
        (0x11020, 0x00005006),
    ] {
        write(&mut memory, at, Size::B4, entry)?;
    }
    memory.commit();
    memory.load_cr3(0x00010FFF);
    memory.set_paging(true);
    Ok(memory)
}

#[test]
fn a_write_from_ram_into_the_rom_is_marked_and_half_lost(rt: HostRuntime) -> Result<(), Fail> {
    let mut memory = paged(rt.alloc())?;
    write(&mut memory, 0x5FFE, Size::B4, 0xD4D3D2D1)?;
    memory.commit();
    assert_eq!(rt; memory.walks(), 2);
    memory.set_paging(false);
    assert_eq!(rt; memory.read(0x3FFE, Size::B2, Who::User), Ok(0xD2D1));
    assert_eq!(rt; memory.read(0xFF000, Size::B2, Who::User), Ok(0xF4F4));
    assert_eq!(rt; memory.read(0x10000, Size::B4, Who::User), Ok(0x00011027));
    assert_eq!(rt; memory.read(0x11014, Size::B4, Who::User), Ok(0x00003067));
    assert_eq!(rt; memory.read(0x11018, Size::B4, Who::User), Ok(0x000FF067));
    Ok(())
}

#[test]
fn a_page_fault_names_the_first_byte_on_its_page(rt: HostRuntime) -> Result<(), Fail> {
    let mut memory = paged(rt.alloc())?;
    for (at, who, code, addr, walks) in [
        (0x7FFE, Who::User, 5, 0x7FFE, 1),
        (0x7FFE, Who::Supervisor, 0, 0x8000, 3),
        (0x8000, Who::User, 4, 0x8000, 4),
    ] {
        let fault = Fault {
            vector: 14,
            code,
            addr,
        };
        assert_eq!(rt; memory.read(at, Size::B4, who), Err(fault), "at {at:#x}");
        assert_eq!(rt; memory.walks(), walks);
    }
    let fault = Fault {
        vector: 14,
        code: 2,
        addr: 0x8000,
    };
    assert_eq!(rt; write(&mut memory, 0x7FFE, Size::B4, 0), Err(fault));
    assert_eq!(rt; memory.room(), 256);
    Ok(())
}
