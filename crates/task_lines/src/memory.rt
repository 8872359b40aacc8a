//! The memory of a machine: a mebibyte of zeros.

ghost use Rattle.std.specs.Prelude.{◌≡◌, length, IfOk};
ghost use Rattle.phys_map.specs.Sound.{IsBlank};

use guest_ram::Ram;
use phys_map::PhysMap;
use std::alloc::{AllocError, Global};
use tlb::Tlb;

/// RAM of so many bytes.
#[tactic(auto, using(phys_map::specs::SoundLaws::zeros_blank, std::proofs::lemmas::Grind::common_steps))]
fn new_ram(alloc: Global, bytes: u32) -> Result<Ram, AllocError>
    ensures length { IfOk result (λ ram. length ram ≡ bytes) }
    ensures blank { IfOk result (λ ram. IsBlank ram) }
{
    Ram::new(alloc, bytes)
}

/// Zeros, and a ROM.
pub fn new_memory(alloc: Global) -> Result<Tlb, AllocError> {
    let ram = new_ram(alloc, 0x100000)?;
    let rom = vec![in alloc; 0xF4; 0x1000]?;
    Ok(Tlb::new(PhysMap::new(ram, rom)))
}
