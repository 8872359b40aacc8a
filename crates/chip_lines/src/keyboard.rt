//! Acts on the keyboard controller: `new`, `write PORT BYTE` with whether the line is raised and whether
//! a reset is asked for, `read PORT` with the byte and whether the line is raised, `key BYTE` with the
//! latter, `a20`, `image`, and `with PLACE BYTE ..`, the controller of its image with these bytes, or 0
//! where that is none.

ghost use Rattle.std.specs.Prelude.{◌≡◌};
ghost use Rattle.mdl_dev.specs.Keyboard.{is_keyboard_port};

use crate::answers::{bytes, numbers};
use crate::line::Line;
use kbd_screen::Kbd;
use std::alloc::{AllocError, Global};

fn is_port(port: u16) -> bool
    ensures { result ≡ is_keyboard_port port }
{
    port == 0x60 || port == 0x64
}

fn write(alloc: Global, keyboard: &mut Kbd, line: &Line) -> Result<Vec<u32>, AllocError> {
    let port = line.port();
    if !is_port(port) {
        return Ok(Vec::new(alloc));
    }
    let told = keyboard.output(port, line.byte(1));
    numbers(alloc, &[told.line as u32, told.reset as u32])
}

fn read(alloc: Global, keyboard: &mut Kbd, port: u16) -> Result<Vec<u32>, AllocError> {
    if !is_port(port) {
        return Ok(Vec::new(alloc));
    }
    let (byte, line) = keyboard.input(port);
    numbers(alloc, &[u32::from(byte), line as u32])
}

fn changed(keyboard: &mut Kbd, line: &Line) -> bool {
    let mut image = keyboard.image();
    line.change(&mut image);
    match Kbd::from_image(&image) {
        Some(other) => {
            *keyboard = other;
            true
        }
        None => false,
    }
}

pub fn answer(alloc: Global, keyboard: &mut Kbd, line: &Line) -> Result<Vec<u32>, AllocError> {
    match line.act {
        "new" => {
            *keyboard = Kbd::new();
            Ok(Vec::new(alloc))
        }
        "write" => write(alloc, keyboard, line),
        "read" => read(alloc, keyboard, line.port()),
        "key" => numbers(alloc, &[keyboard.key(line.byte(0)) as u32]),
        "a20" => numbers(alloc, &[keyboard.a20() as u32]),
        "image" => bytes(alloc, &keyboard.image()),
        "with" => numbers(alloc, &[changed(keyboard, line) as u32]),
        _ => Ok(Vec::new(alloc)),
    }
}
