//! The identify block.

ghost use Rattle.std.specs.Prelude.{◌≡◌, ◌≤◌, ◌<◌, ◌*◌, ◌-◌, ◌+◌, ◌++◌, length, take};
ghost use Rattle.mdl_state.specs.Bytes.{little_bytes};
ghost use Rattle.mdl_dev.specs.DiskIdentify.{cylinders, model_character, model_word, identify_word, identify_from, identify_block};

use byteorder::{ByteOrder, LittleEndian};
use mdl_dev::disk::{Geometry, SECTOR_BYTES};

/// The model's name, which ends in spaces.
const MODEL: [u8; 9] = *b"M386 DISK";

/// Sectors of a cylinder of 16 heads and 63 sectors.
const CYLINDER_SECTORS: u32 = 1008;

/// As many cylinders as the word may tell.
const MOST_CYLINDERS: u32 = 16383;

/// Cylinders of 16 heads and 63 sectors.
fn cylinders(total: u32) -> u16
    ensures { result ≡ cylinders total }
{
    (total / CYLINDER_SECTORS).min(MOST_CYLINDERS) as u16
}

/// A character of the model's name.
fn model_character(place: usize) -> u8
    ensures { result ≡ model_character place }
{
    if place < MODEL.len() {
        MODEL[place]
    } else {
        b' '
    }
}

/// Two characters of the model's name, the first in the high byte.
fn model_word(n: usize) -> u16
    requires { n < SECTOR_BYTES }
    ensures { result ≡ model_word n }
{
    let first = u16::from(model_character(2 * n));
    0x100 * first + u16::from(model_character(2 * n + 1))
}

/// A word of the identify block.
#[tactic(auto, unfolding(mdl_dev::specs::DiskIdentify::identify_word))]
fn identify_word(geometry: Geometry, total: u32, n: usize) -> u16
    requires { n < SECTOR_BYTES }
    ensures { result ≡ identify_word geometry total n }
{
    match n {
        0 => 0x40,
        1 | 54 => cylinders(total),
        3 | 55 => u16::from(geometry.heads),
        6 | 56 => u16::from(geometry.sectors),
        27..=46 => model_word(n - 27),
        49 => 0x200,
        53 => 1,
        57 | 60 => (total % 0x10000) as u16,
        58 | 61 => (total / 0x10000) as u16,
        _ => 0,
    }
}

/// Puts a word into the block, its low byte first.
fn put_word(block: &mut [u8], n: usize, word: u16)
    requires { 2 * n + 2 ≤ length block.old }
    ensures word { take (2 * n + 2) block.new ≡ take (2 * n) block.old ++ little_bytes 2 word }
    ensures length { length block.new ≡ length block.old }
{
    LittleEndian::write_u16(&mut block[2 * n..], word);
}

/// Puts the identify block of a disk of so many sectors into a block.
#[tactic(auto, using(crate::proofs::IdentifyLaws::identify_more))]
pub(crate) fn identify(block: &mut [u8], geometry: Geometry, total: u32)
    requires { length block.old ≡ SECTOR_BYTES }
    ensures { block.new ≡ identify_block geometry total }
{
    for n in 0..SECTOR_BYTES / 2 {
        put_word(block, n, identify_word(geometry, total, n));
    }
}
