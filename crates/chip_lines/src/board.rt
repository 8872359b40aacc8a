//! The chips, and which of them a line speaks to.

use crate::disk::Drive;
use crate::line::Line;
use crate::{disk, keyboard, pic, pit, screen};
use kbd_screen::{Kbd, Screen};
use pic_pit::{Pic, Pit};
use std::alloc::{AllocError, Global};

/// Each chip by itself.
#[derive(Drop)]
pub struct Board {
    pic: Pic,
    pit: Pit,
    keyboard: Kbd,
    screen: Screen,
    drive: Drive,
}

impl Board {
    pub fn new(alloc: Global) -> Result<Board, AllocError> {
        Ok(Board {
            pic: Pic::new(),
            pit: Pit::new(),
            keyboard: Kbd::new(),
            screen: Screen::new(),
            drive: Drive::new(alloc, 0)?,
        })
    }

    /// What the chip of a line answers; nothing to a line of no chip.
    pub fn answer(&mut self, alloc: Global, line: &Line) -> Result<Vec<u32>, AllocError> {
        match line.chip {
            "pic" => pic::answer(alloc, &mut self.pic, line),
            "pit" => pit::answer(alloc, &mut self.pit, line),
            "kbd" => keyboard::answer(alloc, &mut self.keyboard, line),
            "screen" => screen::answer(alloc, &mut self.screen, line),
            "disk" => disk::answer(alloc, &mut self.drive, line),
            _ => Ok(Vec::new(alloc)),
        }
    }
}
