//! The disk's whole state as bytes; its sectors stand apart.

ghost use Rattle.std.specs.Prelude.{◌≡◌, ◌<◌, ◌≤◌, ◌^◌, ◌++◌, length, IsTrue};
ghost use Rattle.mdl_dev.specs.Disk.{IsDiskLength};
ghost use Rattle.mdl_dev.specs.DiskImage.{work_byte, work_of, is_moving, is_possible, is_geometry, head_image, registers_in, transfer_in, disk_image, if_in_range, told, disk_from_image, sectors_of};
ghost use Rattle.ata_disk.specs.Sound.{IsMoving, IsPossible};

use crate::block::put_block;
use crate::disk::Disk;
use mdl_dev::disk::{Geometry, Registers, SECTOR_BYTES, Transfer, Work};

/// How many bytes an image has.
const IMAGE_BYTES: usize = 531;

/// How many of them stand before the block.
const HEAD_BYTES: usize = 19;

/// The byte of a command in work.
fn work_byte(work: Work) -> u8
    ensures { result ≡ work_byte work }
{
    match work {
        Work::Nothing => 0,
        Work::Reading => 0x20,
        Work::Writing => 0x30,
        Work::Identifying => 0xEC,
    }
}

/// The command in work of a byte.
fn work_of(byte: u8) -> Option<Work>
    ensures { result ≡ work_of byte }
{
    match byte {
        0 => Some(Work::Nothing),
        0x20 => Some(Work::Reading),
        0x30 => Some(Work::Writing),
        0xEC => Some(Work::Identifying),
        _ => None,
    }
}

/// Whether there is a drive, and sectors and bytes are left.
fn is_moving(total: u32, most: u16, transfer: Transfer) -> bool
    ensures value { result ≡ is_moving total most transfer }
    ensures moving { IsTrue result → IsMoving total most transfer }
{
    total > 0
        && transfer.left >= 1
        && transfer.left <= most
        && (transfer.place as usize) < SECTOR_BYTES
}

/// Whether this can be in work on a disk of so many sectors.
fn is_possible(total: u32, transfer: Transfer) -> bool
    ensures value { result ≡ is_possible total transfer transfer.work }
    ensures possible { IsTrue result → IsPossible total transfer transfer.work }
{
    match transfer.work {
        Work::Nothing => transfer.left == 0 && transfer.place == 0 && transfer.lba == 0,
        Work::Reading | Work::Writing => is_moving(total, 256, transfer) && transfer.lba < total,
        Work::Identifying => is_moving(total, 1, transfer),
    }
}

/// Whether a disk can have this geometry.
fn is_geometry(geometry: Geometry) -> bool
    ensures { result ≡ is_geometry geometry }
{
    geometry.heads >= 1 && geometry.heads <= 16 && geometry.sectors >= 1
}

/// Puts the two parts of an image side by side.
#[tactic(auto, using(crate::proofs::ImageLaws::behind_head))]
fn join(image: &mut [u8], head: &[u8], block: &[u8])
    requires head { length head.now ≡ HEAD_BYTES }
    requires block { length block.now ≡ SECTOR_BYTES }
    requires image { length image.old ≡ IMAGE_BYTES }
    ensures { image.new ≡ head.now ++ block.now }
{
    put_block(image, HEAD_BYTES, block);
    image[..HEAD_BYTES].copy_from_slice(head);
}

/// The bytes of an image before the block.
fn head_image(registers: Registers, transfer: Transfer, geometry: Geometry) -> [u8; HEAD_BYTES]
    ensures head { result ≡ head_image registers transfer geometry }
    ensures left { transfer.left < 2 ^ 16 }
    ensures place { transfer.place < 2 ^ 16 }
    ensures lba { transfer.lba < 2 ^ 32 }
{
    let left = transfer.left.to_le_bytes();
    let place = transfer.place.to_le_bytes();
    let lba = transfer.lba.to_le_bytes();
    [
        registers.error,
        registers.count,
        registers.sector,
        registers.cylinder_low,
        registers.cylinder_high,
        registers.head,
        registers.status,
        registers.control,
        work_byte(transfer.work),
        left[0],
        left[1],
        place[0],
        place[1],
        lba[0],
        lba[1],
        lba[2],
        lba[3],
        geometry.heads,
        geometry.sectors,
    ]
}

/// The registers of an image.
fn registers_in(image: &[u8]) -> Registers
    requires { HEAD_BYTES ≤ length image.now }
    ensures { result ≡ registers_in image.now }
{
    Registers {
        error: image[0],
        count: image[1],
        sector: image[2],
        cylinder_low: image[3],
        cylinder_high: image[4],
        head: image[5],
        status: image[6],
        control: image[7],
    }
}

/// What is in work in an image, with this command.
fn transfer_in(image: &[u8], work: Work) -> Transfer
    requires { HEAD_BYTES ≤ length image.now }
    ensures { result ≡ transfer_in image.now work }
{
    Transfer {
        work,
        left: u16::from_le_bytes([image[9], image[10]]),
        place: u16::from_le_bytes([image[11], image[12]]),
        lba: u32::from_le_bytes([image[13], image[14], image[15], image[16]]),
    }
}

impl Disk {
    /// The whole state as bytes, little endian: error, count, sector, cylinder low and high, head,
    /// status, control; the command in work (0, 20h, 30h or ECh), sectors left (2), place in the
    /// block (2), LBA (4); heads, sectors of a track; the block (512).
    pub fn image(&self) -> [u8; IMAGE_BYTES]
        ensures image { result ≡ disk_image self.now }
        ensures back { disk_from_image result self.now.sectors ≡ Some self.now }
    {
        let head = head_image(self.registers, self.transfer, self.geometry);
        let mut image = [0; IMAGE_BYTES];
        join(&mut image, &head, &self.block);
        image
    }

    /// The disk of an image with this command in work and these bytes.
    #[tactic(auto, using(crate::proofs::Sectors::sector_laws, crate::proofs::ImageLaws::in_range))]
    fn with_work(image: &[u8], work: Work, bytes: Vec<u8>) -> Option<Disk>
        requires image { length image.now ≡ IMAGE_BYTES }
        requires bytes { IsDiskLength (length bytes.items) }
        ensures { result ≡ if_in_range (told image.now (sectors_of bytes.items) work) }
    {
        let transfer = transfer_in(image, work);
        let geometry = Geometry {
            heads: image[17],
            sectors: image[18],
        };
        if !is_geometry(geometry) {
            return None;
        }
        if !is_possible((bytes.len() / SECTOR_BYTES) as u32, transfer) {
            return None;
        }
        let mut block = [0; SECTOR_BYTES];
        block.copy_from_slice(&image[HEAD_BYTES..]);
        Some(Disk {
            registers: registers_in(image),
            geometry,
            transfer,
            block,
            bytes,
        })
    }

    /// The disk of an image and these bytes: none where the image is that of no disk.
    #[tactic(auto, unfolding(mdl_dev::specs::DiskImage::disk_from_image))]
    pub fn from_image(image: &[u8; IMAGE_BYTES], bytes: Vec<u8>) -> Option<Disk>
        requires { IsDiskLength (length bytes.items) }
        ensures { result ≡ disk_from_image image.now (sectors_of bytes.items) }
    {
        match work_of(image[8]) {
            None => None,
            Some(work) => Disk::with_work(image, work, bytes),
        }
    }
}
