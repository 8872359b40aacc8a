//! Acts on the disk: `new SECTORS` with each sector's number in its first byte and EEh in its last, `blank
//! SECTORS` of zeros, `write PORT BYTES VALUE` with whether the line is raised, `read PORT BYTES` with the
//! value and the same, `command COUNT SECTOR LOW HIGH HEAD COMMAND`, `registers`, `word COUNT` with the
//! last of so many words, `block` with the first byte of 256 words, the last word and how often the line
//! is raised, `fill COUNT BYTE` with the same, `run AT` with the byte there and how many bytes from there
//! on are the same, `head` of the image, and `with PLACE BYTE ..`, a disk of zeros of the image with
//! these bytes, and the byte at that place of its image.

ghost use Rattle.std.specs.Prelude.{◌≡◌, ◌*◌, ◌≤◌, length, IfOk};
ghost use Rattle.mdl_dev.specs.Disk.{IsDiskLength};
ghost use Rattle.mdl_dev.specs.DiskPorts.{is_disk_port};

use crate::answers::numbers;
use crate::line::Line;
use ata_disk::Disk;
use mdl_state::Size;
use std::alloc::{AllocError, Global};

const DATA: u16 = 0x1F0;

/// The registers that a guest reads, from the error to both ports of the status.
const PORTS: [u16; 8] = [0x1F1, 0x1F2, 0x1F3, 0x1F4, 0x1F5, 0x1F6, 0x1F7, 0x3F6];

/// The bytes of an image before its block.
const HEAD: usize = 19;

/// A disk, and how many sectors it was made with.
#[derive(Drop)]
pub struct Drive {
    disk: Disk,
    sectors: u16,
}

impl Drive {
    /// A drive of zeros.
    pub fn new(alloc: Global, sectors: u16) -> Result<Drive, AllocError> {
        let bytes = zeros(alloc, sectors)?;
        Ok(Drive {
            disk: Disk::new(bytes),
            sectors,
        })
    }
}

fn is_port(port: u16) -> bool
    ensures { result ≡ is_disk_port port }
{
    (0x1F0 <= port && port <= 0x1F7) || port == 0x3F6
}

/// So many sectors of zeros.
fn zeros(alloc: Global, sectors: u16) -> Result<Vec<u8>, AllocError>
    ensures { IfOk result (λ bytes. IsDiskLength (length bytes.items)) }
{
    vec![in alloc; 0; 512 * sectors as usize]
}

/// So many sectors, each with its number in its first byte and EEh in its last.
fn marked(alloc: Global, sectors: u16) -> Result<Disk, AllocError> {
    let mut bytes = vec![in alloc; 0; 512 * sectors as usize]?;
    for sector in 0..sectors as usize {
        bytes[512 * sector] = (sector % 256) as u8;
        bytes[512 * sector + 511] = 0xEE;
    }
    Ok(Disk::new(bytes))
}

fn size_of(bytes: u32) -> Size {
    match bytes {
        1 => Size::B1,
        2 => Size::B2,
        _ => Size::B4,
    }
}

/// Writes count, sector, cylinder low and high and head, and then a command.
fn command(disk: &mut Disk, line: &Line) -> bool {
    let mut is_raised = false;
    for at in 0..6u16 {
        let value = u32::from(line.byte(at as usize));
        is_raised = disk.output(0x1F2 + at, Size::B1, value);
    }
    is_raised
}

/// Error, count, sector, cylinder low and high, head, and status by both of its ports.
fn registers(alloc: Global, disk: &mut Disk) -> Result<Vec<u32>, AllocError> {
    let mut answer = Vec::new(alloc);
    for port in PORTS {
        if is_port(port) {
            answer.push(disk.input(port, Size::B1).0)?;
        }
    }
    Ok(answer)
}

/// Reads so many words: the first byte, the last word, and how often the line was raised.
fn words(disk: &mut Disk, count: u32) -> [u32; 3] {
    let mut first = None;
    let mut last = 0;
    let mut raises = 0u32;
    for _word in 0..count {
        let (word, is_raised) = disk.input(DATA, Size::B2);
        first = first.or(Some(word % 0x100));
        last = word;
        raises = raises.saturating_add(is_raised as u32);
    }
    [first.unwrap_or(0), last, raises]
}

/// Writes so many bytes to the data port, and tells how often the line was raised.
fn fill(disk: &mut Disk, count: u32, byte: u8) -> u32 {
    let mut raises = 0u32;
    for _byte in 0..count {
        let is_raised = disk.output(DATA, Size::B1, u32::from(byte));
        raises = raises.saturating_add(is_raised as u32);
    }
    raises
}

/// A byte of the disk, if it has it.
fn byte(disk: &Disk, at: u32) -> Option<u8> {
    if at < disk.len() {
        Some(disk.byte(at))
    } else {
        None
    }
}

/// A byte of the disk, and how many from there on are the same.
fn run(disk: &Disk, at: u32) -> Option<[u32; 2]> {
    let first = byte(disk, at)?;
    let mut count = 0u32;
    for place in at..u32::MAX {
        if byte(disk, place) != Some(first) {
            break;
        }
        count = count.saturating_add(1);
    }
    Some([u32::from(first), count])
}

/// The disk of this image with other bytes, and the byte then at the first of the places.
fn changed(alloc: Global, drive: &mut Drive, line: &Line) -> Result<Option<u8>, AllocError> {
    let mut image = drive.disk.image();
    line.change(&mut image);
    let bytes = zeros(alloc, drive.sectors)?;
    match Disk::from_image(&image, bytes) {
        Some(disk) => {
            drive.disk = disk;
            Ok(drive.disk.image().get(line.numbers[0] as usize).copied())
        }
        None => Ok(None),
    }
}

/// The first bytes of the image.
fn head(alloc: Global, disk: &Disk) -> Result<Vec<u32>, AllocError> {
    let mut answer = Vec::new(alloc);
    for byte in disk.image().iter().take(HEAD) {
        answer.push(u32::from(*byte))?;
    }
    Ok(answer)
}

/// An access by a guest.
fn access(alloc: Global, disk: &mut Disk, line: &Line) -> Result<Vec<u32>, AllocError> {
    let port = line.port();
    if !is_port(port) {
        return Ok(Vec::new(alloc));
    }
    let size = size_of(line.numbers[1]);
    if line.act == "write" {
        return numbers(alloc, &[disk.output(port, size, line.numbers[2]) as u32]);
    }
    let (value, is_raised) = disk.input(port, size);
    numbers(alloc, &[value, is_raised as u32])
}

/// What is seen of the disk itself.
fn seen(alloc: Global, disk: &mut Disk, line: &Line) -> Result<Vec<u32>, AllocError> {
    if line.act == "head" {
        return head(alloc, disk);
    }
    match run(disk, line.numbers[0]) {
        Some(found) => numbers(alloc, &found),
        None => Ok(Vec::new(alloc)),
    }
}

/// What accesses in a row come to.
fn transfers(alloc: Global, disk: &mut Disk, line: &Line) -> Result<Vec<u32>, AllocError> {
    match line.act {
        "command" => numbers(alloc, &[command(disk, line) as u32]),
        "registers" => registers(alloc, disk),
        "word" => {
            let [_, last, _] = words(disk, line.numbers[0]);
            numbers(alloc, &[last])
        }
        "block" => {
            let [first, last, raises] = words(disk, 256);
            numbers(alloc, &[first, last, raises])
        }
        _ => numbers(alloc, &[fill(disk, line.numbers[0], line.byte(1))]),
    }
}

pub fn answer(alloc: Global, drive: &mut Drive, line: &Line) -> Result<Vec<u32>, AllocError> {
    let sectors = line.port();
    match line.act {
        "new" => {
            let disk = marked(alloc, sectors)?;
            *drive = Drive { disk, sectors };
            Ok(Vec::new(alloc))
        }
        "blank" => {
            *drive = Drive::new(alloc, sectors)?;
            Ok(Vec::new(alloc))
        }
        "write" | "read" => access(alloc, &mut drive.disk, line),
        "command" | "registers" | "word" | "block" | "fill" => {
            transfers(alloc, &mut drive.disk, line)
        }
        "with" => match changed(alloc, drive, line)? {
            Some(byte) => numbers(alloc, &[1, u32::from(byte)]),
            None => numbers(alloc, &[0]),
        },
        _ => seen(alloc, &mut drive.disk, line),
    }
}
