//! Acts on the interrupt controllers: `new`, `write PORT BYTE`, `read PORT`, `raise LINE`, `wants`,
//! `takes` with the vector, `image`, and `with PLACE BYTE ..`, the pair of its image with these bytes,
//! or 0 where that is none.

ghost use Rattle.std.specs.Prelude.{◌≡◌};
ghost use Rattle.mdl_dev.specs.PicPair.{is_pic_port};

use crate::answers::{bytes, numbers};
use crate::line::Line;
use pic_pit::Pic;
use std::alloc::{AllocError, Global};

fn is_port(port: u16) -> bool
    ensures { result ≡ is_pic_port port }
{
    port == 0x20 || port == 0x21 || port == 0xA0 || port == 0xA1
}

fn write(pic: &mut Pic, line: &Line) {
    let port = line.port();
    if is_port(port) {
        pic.output(port, line.byte(1));
    }
}

fn read(pic: &mut Pic, port: u16) -> Option<u8> {
    if is_port(port) {
        Some(pic.input(port))
    } else {
        None
    }
}

fn raise(pic: &mut Pic, line: u8) {
    if line < 16 && line != 2 {
        pic.raise(line);
    }
}

fn changed(pic: &mut Pic, line: &Line) -> bool {
    let mut image = pic.image();
    line.change(&mut image);
    match Pic::from_image(&image) {
        Some(other) => {
            *pic = other;
            true
        }
        None => false,
    }
}

pub fn answer(alloc: Global, pic: &mut Pic, line: &Line) -> Result<Vec<u32>, AllocError> {
    match line.act {
        "new" => *pic = Pic::new(),
        "write" => write(pic, line),
        "raise" => raise(pic, line.byte(0)),
        "read" => {
            if let Some(byte) = read(pic, line.port()) {
                return numbers(alloc, &[u32::from(byte)]);
            }
        }
        "wants" => return numbers(alloc, &[pic.wants() as u32]),
        "takes" => return numbers(alloc, &[u32::from(pic.acknowledge())]),
        "image" => return bytes(alloc, &pic.image()),
        "with" => return numbers(alloc, &[changed(pic, line) as u32]),
        _ => {}
    }
    Ok(Vec::new(alloc))
}
