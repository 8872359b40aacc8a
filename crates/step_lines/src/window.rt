//! The memory that the steps use.

ghost use Rattle.std.specs.Prelude.{◌≡◌, length, IfOk};
ghost use Rattle.phys_map.specs.Sound.{IsBlank};

use guest_ram::Ram;
use mdl_state::{Size, Who};
use mem_iface::Linear;
use phys_map::PhysMap;
use std::alloc::{AllocError, Global};
use tlb::Tlb;

/// The size of the window in bytes.
pub const SIZE: u32 = 0x10000;

/// RAM of so many bytes.
#[tactic(auto, using(phys_map::specs::SoundLaws::zeros_blank, std::proofs::lemmas::Grind::common_steps))]
fn new_ram(alloc: Global, bytes: u32) -> Result<Ram, AllocError>
    ensures length { IfOk result (λ ram. length ram ≡ bytes) }
    ensures blank { IfOk result (λ ram. IsBlank ram) }
{
    Ram::new(alloc, bytes)
}

/// The byte of the window before each step.
fn byte_before(offset: u32) -> u8 {
    let sum = offset as u64 * 167 + (offset / 0x100) as u64 * 13 + 91;
    (sum % 0x100) as u8
}

/// The byte of the window after a step, where it is another one than before.
pub fn changed(memory: &mut Tlb, offset: u32) -> Option<u8> {
    let byte = memory.read(offset, Size::B1, Who::Supervisor).ok()? as u8;
    if byte == byte_before(offset) {
        None
    } else {
        Some(byte)
    }
}

/// Puts the byte of before.
pub fn restore(memory: &mut Tlb, offset: u32) {
    if memory.room() < 4 {
        return;
    }
    let _ = memory.write(
        offset,
        Size::B1,
        byte_before(offset) as u32,
        Who::Supervisor,
    );
    memory.commit();
}

/// A mebibyte of zeros, and a ROM.
pub fn blank_memory(alloc: Global) -> Result<Tlb, AllocError> {
    let ram = new_ram(alloc, 0x100000)?;
    let rom = vec![in alloc; 0xF4; 0x1000]?;
    Ok(Tlb::new(PhysMap::new(ram, rom)))
}

/// Memory whose first bytes are the window.
pub fn new_memory(alloc: Global) -> Result<Tlb, AllocError> {
    let mut memory = blank_memory(alloc)?;
    for offset in 0..SIZE {
        restore(&mut memory, offset);
    }
    Ok(memory)
}
