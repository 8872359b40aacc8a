//! Acts on the timer: `new`, `write PORT BYTE`, `read PORT`, `pulses COUNT` with whether OUT 0 rose in
//! them, `gate HIGH` of counter 2, `level COUNTER` of its OUT, `image`, and `with PLACE BYTE ..`, the
//! timer of its image with these bytes and with the gate high, or 0 where that is none.

use crate::answers::{bytes, numbers};
use crate::line::Line;
use pic_pit::Pit;
use std::alloc::{AllocError, Global};

fn level(pit: &Pit, counter: u8) -> bool {
    counter < 3 && pit.out(counter)
}

fn changed(pit: &mut Pit, line: &Line) -> bool {
    let mut image = pit.image();
    line.change(&mut image);
    match Pit::from_image(&image, true) {
        Some(other) => {
            *pit = other;
            true
        }
        None => false,
    }
}

pub fn answer(alloc: Global, pit: &mut Pit, line: &Line) -> Result<Vec<u32>, AllocError> {
    match line.act {
        "new" => *pit = Pit::new(),
        "write" => pit.output(line.port(), line.byte(1)),
        "gate" => pit.gate2(line.numbers[0] == 1),
        "read" => return numbers(alloc, &[u32::from(pit.input(line.port()))]),
        "pulses" => return numbers(alloc, &[pit.pulse(line.numbers[0]) as u32]),
        "level" => return numbers(alloc, &[level(pit, line.byte(0)) as u32]),
        "image" => return bytes(alloc, &pit.image()),
        "with" => return numbers(alloc, &[changed(pit, line) as u32]),
        _ => {}
    }
    Ok(Vec::new(alloc))
}
