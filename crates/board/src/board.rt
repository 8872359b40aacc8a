//! The chips together, their lines, and what happens to them from outside.

ghost use Rattle.std.specs.Prelude.{◌≡◌, ◌<◌, length, slice_index, true, false};
ghost use Rattle.mdl_dev.specs.PicPair.{IsLine};
ghost use Rattle.mdl_dev.specs.Screen.{register_of};
ghost use Rattle.mdl_dev.specs.Disk.{IsDiskLength};
ghost use Rattle.mdl_dev.specs.DiskImage.{sectors_of, disk_bytes};
ghost use Rattle.mdl_board.specs.Board.{board_at_boot, board_reset, raised, gate_of, key_pressed, pulsed};

use ata_disk::Disk;
use kbd_screen::{Kbd, Screen};
use mdl_board::{KEYBOARD_LINE, TIMER_LINE};
use pic_pit::{Pic, Pit};
use std::marker::Model;

/// The board, with all its chips.
#[derive(Drop)]
pub struct Board {
    pub(crate) pics: Pic,
    pub(crate) timer: Pit,
    pub(crate) speaker: bool,
    pub(crate) keyboard: Kbd,
    pub(crate) screen: Screen,
    pub(crate) disk: Disk,
    pub(crate) asks: bool,
}

impl Model for Board {
    ghost use Rattle.mdl_board.specs.Board.{BoardState};

    ghost Value = { BoardState };

    ghost view = { λ b. record { pics = b.pics; timer = b.timer; speaker = b.speaker; keyboard = b.keyboard; screen = b.screen; disk = b.disk; asks = b.asks } };
}

impl Board {
    /// The board when the machine is switched on, with a disk of these bytes. No bytes are no drive.
    #[tactic(auto, unfolding(mdl_board::specs::Board::board_at_boot))]
    pub fn new(disk: Vec<u8>) -> Board
        requires { IsDiskLength (length disk.items) }
        ensures board { result ≡ board_at_boot (sectors_of disk.items) }
        ensures a20 { gate_of result ≡ true }
        ensures asks { result.asks ≡ false }
    {
        Board {
            pics: Pic::new(),
            timer: Pit::new(),
            speaker: false,
            keyboard: Kbd::new(),
            screen: Screen::new(),
            disk: Disk::new(disk),
            asks: false,
        }
    }

    /// A device raises its line, where it does.
    pub(crate) fn raise_if(&mut self, line: u8, does: bool)
        requires { IsLine line }
        ensures { self.new ≡ raised line does self.old }
    {
        if does {
            self.pics.raise(line);
        }
    }

    /// So many pulses of the timer's clock. Where OUT 0 rises in one of them, the timer raises its
    /// line, once however often.
    #[tactic(auto, unfolding(mdl_board::specs::Board::pulsed))]
    pub fn pulses(&mut self, n: u32)
        ensures board { self.new ≡ pulsed self.old n }
        ensures a20 { gate_of self.new ≡ gate_of self.old }
        ensures asks { self.new.asks ≡ self.old.asks }
    {
        let rose = self.timer.pulse(n);
        self.raise_if(TIMER_LINE, rose);
    }

    /// The keyboard sends a byte.
    #[tactic(auto, unfolding(mdl_board::specs::Board::key_pressed))]
    pub fn key(&mut self, byte: u8)
        ensures board { self.new ≡ key_pressed self.old byte }
        ensures a20 { gate_of self.new ≡ gate_of self.old }
        ensures asks { self.new.asks ≡ self.old.asks }
    {
        let line = self.keyboard.key(byte);
        self.raise_if(KEYBOARD_LINE, line);
    }

    /// Every chip is as at first, A20 is on, and no reset of the processor is asked for. The disk
    /// keeps its sectors.
    #[tactic(auto, unfolding(mdl_board::specs::Board::board_reset, mdl_board::specs::Board::board_at_boot))]
    pub fn reset(&mut self)
        ensures board { self.new ≡ board_reset self.old }
        ensures a20 { gate_of self.new ≡ true }
        ensures asks { self.new.asks ≡ false }
    {
        self.pics = Pic::new();
        self.timer = Pit::new();
        self.speaker = false;
        self.keyboard = Kbd::new();
        self.screen = Screen::new();
        self.disk.reset();
        self.asks = false;
    }

    /// The screen register of a number; 0 outside 0Ch to 0Fh.
    pub fn crt(&self, number: u8) -> u8
        ensures { result ≡ register_of self.now.screen number }
    {
        self.screen.register(number)
    }

    /// How many bytes the disk has.
    pub fn disk_len(&self) -> u32
        ensures { result ≡ length (disk_bytes self.now.disk) }
    {
        self.disk.len()
    }

    /// The byte at a place of the disk.
    pub fn disk_byte(&self, at: u32) -> u8
        requires { at < length (disk_bytes self.now.disk) }
        ensures { result ≡ slice_index (disk_bytes self.now.disk) at }
    {
        self.disk.byte(at)
    }
}
