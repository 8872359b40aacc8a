//! The block, and a sector of a list of bytes.

ghost use Rattle.std.specs.Prelude.{◌≡◌, ◌≤◌, ◌<◌, ◌+◌, [], ◌++◌, length, take, drop, slice_index_or, slice_set};
ghost use Rattle.mdl_state.specs.Bytes.{bytes_of, bound_of, little, little_bytes, with_bytes};
ghost use Rattle.mdl_dev.specs.DiskImage.{sectors_of};
ghost use Rattle.mdl_dev.specs.DiskTransfer.{block_byte, block_bytes};

use mdl_dev::disk::{ALL_ONES, SECTOR_BYTES};
use mdl_state::Size;

/// A byte of the block; one behind its end reads all ones.
fn block_byte(block: &[u8], at: u16) -> u8
    requires { length block.now ≡ SECTOR_BYTES }
    ensures { result ≡ block_byte block.now at }
{
    let at = at as usize;
    if at < SECTOR_BYTES {
        block[at]
    } else {
        ALL_ONES
    }
}

/// The number of a size in the block, the lowest byte first.
pub(crate) fn block_number(block: &[u8], at: u16, size: Size) -> u32
    requires block { length block.now ≡ SECTOR_BYTES }
    requires at { at < SECTOR_BYTES }
    ensures value { result ≡ little (block_bytes block.now at (bytes_of size)) }
    ensures bound { result < bound_of size }
{
    let first = u32::from(block_byte(block, at));
    match size {
        Size::B1 => first,
        Size::B2 => first + 0x100 * u32::from(block_byte(block, at + 1)),
        Size::B4 => {
            first
                + 0x100 * u32::from(block_byte(block, at + 1))
                + 0x10000 * u32::from(block_byte(block, at + 2))
                + 0x1000000 * u32::from(block_byte(block, at + 3))
        }
    }
}

/// Puts a byte into the block; one behind its end is lost.
fn put(block: &mut [u8], at: u16, byte: u8)
    ensures after { block.new ≡ slice_set block.old at byte }
    ensures length { length block.new ≡ length block.old }
{
    let at = at as usize;
    if at < block.len() {
        block[at] = byte;
    }
}

/// Puts the number of a size into the block, the lowest byte first.
pub(crate) fn fill(block: &mut [u8], at: u16, size: Size, value: u32)
    requires { at < SECTOR_BYTES }
    ensures { block.new ≡ with_bytes block.old at (little_bytes (bytes_of size) value) }
{
    let [first, second, third, fourth] = value.to_le_bytes();
    put(block, at, first);
    match size {
        Size::B1 => {}
        Size::B2 => put(block, at + 1, second),
        Size::B4 => {
            put(block, at + 1, second);
            put(block, at + 2, third);
            put(block, at + 3, fourth);
        }
    }
}

/// Takes a sector of a list of bytes into a block.
#[tactic(auto, using(crate::proofs::Sectors::sector_laws))]
pub(crate) fn load_sector(block: &mut [u8], bytes: &[u8], lba: u32)
    requires block { length block.old ≡ SECTOR_BYTES }
    requires there { lba < length (sectors_of bytes.now) }
    ensures { block.new ≡ slice_index_or (sectors_of bytes.now) lba [] }
{
    let at = SECTOR_BYTES * lba as usize;
    block.copy_from_slice(&bytes[at..at + SECTOR_BYTES]);
}

/// Puts a block into a list of bytes at a place.
pub(crate) fn put_block(bytes: &mut [u8], at: usize, block: &[u8])
    requires bytes { at + SECTOR_BYTES ≤ length bytes.old }
    requires block { length block.now ≡ SECTOR_BYTES }
    ensures { bytes.new ≡ take at bytes.old ++ block.now ++ drop (at + SECTOR_BYTES) bytes.old }
{
    bytes[at..at + SECTOR_BYTES].copy_from_slice(block);
}

/// Puts a block in the place of a sector of a list of bytes.
#[tactic(auto, using(crate::proofs::Sectors::sector_laws))]
pub(crate) fn store_sector(bytes: &mut [u8], lba: u32, block: &[u8])
    requires there { lba < length (sectors_of bytes.old) }
    requires block { length block.now ≡ SECTOR_BYTES }
    ensures { sectors_of bytes.new ≡ slice_set (sectors_of bytes.old) lba block.now }
{
    put_block(bytes, SECTOR_BYTES * lba as usize, block);
}
