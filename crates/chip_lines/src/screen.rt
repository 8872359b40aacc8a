//! Acts on the screen's registers: `new`, `write PORT BYTE`, `read PORT`, `register NUMBER`, `image`, and
//! `with PLACE BYTE ..`, the registers of their image with these bytes.

ghost use Rattle.std.specs.Prelude.{◌≡◌};
ghost use Rattle.mdl_dev.specs.Screen.{is_screen_port};

use crate::answers::{bytes, numbers};
use crate::line::Line;
use kbd_screen::Screen;
use std::alloc::{AllocError, Global};

fn is_port(port: u16) -> bool
    ensures { result ≡ is_screen_port port }
{
    port == 0x3D4 || port == 0x3D5
}

fn write(screen: &mut Screen, line: &Line) {
    let port = line.port();
    if is_port(port) {
        screen.output(port, line.byte(1));
    }
}

fn read(screen: &Screen, port: u16) -> Option<u8> {
    if is_port(port) {
        Some(screen.input(port))
    } else {
        None
    }
}

fn changed(screen: &mut Screen, line: &Line) -> bool {
    let mut image = screen.image();
    line.change(&mut image);
    match Screen::from_image(&image) {
        Some(other) => {
            *screen = other;
            true
        }
        None => false,
    }
}

pub fn answer(alloc: Global, screen: &mut Screen, line: &Line) -> Result<Vec<u32>, AllocError> {
    match line.act {
        "new" => *screen = Screen::new(),
        "write" => write(screen, line),
        "read" => {
            if let Some(byte) = read(screen, line.port()) {
                return numbers(alloc, &[u32::from(byte)]);
            }
        }
        "register" => return numbers(alloc, &[u32::from(screen.register(line.byte(0)))]),
        "image" => return bytes(alloc, &screen.image()),
        "with" => return numbers(alloc, &[changed(screen, line) as u32]),
        _ => {}
    }
    Ok(Vec::new(alloc))
}
