//! The pair of interrupt controllers.

ghost use Rattle.std.specs.Prelude.{◌≡◌, ◌<◌, ◌↔◌, Some, IsTrue, IsSome, IfSome};
ghost use Rattle.mdl_dev.specs.PicPair.{PicPair, boot_pair, second_request, cascaded, first_request, is_pic_port, input, after_input, output, IsLine, raise, wants, acknowledge, after_acknowledge};
ghost use Rattle.mdl_dev.specs.PicImage.{image, is_image, IsPair};

use crate::command_words::{end_read, read_command, read_data, write_command, write_data};
use crate::pic_image::{CHIP_BYTES, IMAGE_BYTES, chip_bytes, chip_image, chip_of, is_image};
use crate::priority::{LINES, request, serve, vector, with_line};
use mdl_dev::pic::{
    CASCADE, Chip, Controller, FIRST_COMMAND, FIRST_DATA, SECOND_COMMAND, Shown, Stage,
};
use std::marker::Model;

/// The interrupt controllers of the board, a pair of 8259A with 15 lines for devices (8259A data
/// sheet).
///
/// The first chip has lines 0 to 7 at ports 20h and 21h, the second lines 8 to 15 at A0h and A1h.
#[derive(Drop)]
pub struct Pic {
    first: Controller,
    second: Controller,
}

impl Model for Pic {
    ghost use Rattle.mdl_dev.specs.PicPair.{PicPair};
    ghost use Rattle.mdl_dev.specs.PicImage.{IsPair};

    ghost Value = { PicPair };

    ghost view = { λ pic. record { first = pic.first; second = pic.second } };

    ghost invariant = { λ pic. IsPair (record { first = pic.first; second = pic.second }) };
}

/// A chip at boot.
const BOOT: Controller = Controller {
    irr: 0,
    isr: 0,
    imr: 0,
    base: 0,
    lowest: LINES - 1,
    stage: Stage::Before,
    single: false,
    needs_icw4: false,
    automatic_eoi: false,
    rotates: false,
    special_mask: false,
    special_nested: false,
    shown: Shown::Irr,
    polled: false,
};

impl Pic {
    /// The pair at boot: no chip is initialized, and no line is masked.
    pub fn new() -> Pic
        ensures { result ≡ boot_pair }
    {
        Pic {
            first: BOOT,
            second: BOOT,
        }
    }

    /// What the second chip requests.
    #[tactic(auto, unfolding(mdl_dev::specs::PicPair::second_request))]
    fn second_request(&self) -> Option<u8>
        ensures line { result ≡ second_request self.now }
        ensures below { IfSome result (λ line. line < 8) }
    {
        request(Chip::Second, &self.second)
    }

    /// The first chip with the line of the second.
    #[tactic(auto, unfolding(mdl_dev::specs::PicPair::cascaded))]
    fn cascaded(&self) -> Controller
        ensures chip { result ≡ cascaded self.now }
        ensures lowest { result.lowest < 8 }
    {
        let mut chip = self.first;
        if self.second_request().is_some() {
            chip.irr = with_line(chip.irr, CASCADE);
        }
        chip
    }

    /// What the first chip requests.
    #[tactic(auto, unfolding(mdl_dev::specs::PicPair::first_request))]
    fn first_request(&self) -> Option<u8>
        ensures line { result ≡ first_request self.now }
        ensures below { IfSome result (λ line. line < 8) }
    {
        request(Chip::First, &self.cascaded())
    }

    /// What a port reads.
    #[tactic(auto, unfolding(mdl_dev::specs::PicPair::input))]
    fn seen_at(&self, port: u16) -> u8
        ensures { result ≡ input self.now port }
    {
        match port {
            FIRST_COMMAND => read_command(&self.cascaded(), self.first_request()),
            FIRST_DATA => read_data(&self.first, self.first_request()),
            SECOND_COMMAND => read_command(&self.second, self.second_request()),
            _ => read_data(&self.second, self.second_request()),
        }
    }

    /// A port was read.
    #[tactic(auto, unfolding(mdl_dev::specs::PicPair::after_input))]
    fn end_input(&mut self, port: u16)
        ensures { self.new ≡ after_input self.old port }
    {
        if port == FIRST_COMMAND || port == FIRST_DATA {
            let asked = self.first_request();
            end_read(&mut self.first, asked);
        } else {
            let asked = self.second_request();
            end_read(&mut self.second, asked);
        }
    }

    /// A read of a port of the pair. It is the answer to a poll where one waits, and acknowledges
    /// the line that it tells.
    pub fn input(&mut self, port: u16) -> u8
        requires { IsTrue (is_pic_port port) }
        ensures value { result ≡ input self.old port }
        ensures after { self.new ≡ after_input self.old port }
    {
        let value = self.seen_at(port);
        self.end_input(port);
        value
    }

    /// A write to a port of the pair: a command word, or the mask.
    #[tactic(auto, unfolding(mdl_dev::specs::PicPair::output))]
    pub fn output(&mut self, port: u16, value: u8)
        requires { IsTrue (is_pic_port port) }
        ensures { self.new ≡ output self.old port value }
    {
        match port {
            FIRST_COMMAND => write_command(&mut self.first, value),
            FIRST_DATA => write_data(&mut self.first, value),
            SECOND_COMMAND => write_command(&mut self.second, value),
            _ => write_data(&mut self.second, value),
        }
    }

    /// A device raises its line, one of 0 to 15 but for 2, which is the second chip's. The line
    /// asks until it is acknowledged, or its chip gets ICW1.
    #[tactic(auto, unfolding(mdl_dev::specs::PicPair::raise))]
    pub fn raise(&mut self, line: u8)
        requires { IsLine line }
        ensures { self.new ≡ raise self.old line }
    {
        if line < LINES {
            self.first.irr = with_line(self.first.irr, line);
        } else {
            self.second.irr = with_line(self.second.irr, line - LINES);
        }
    }

    /// Whether the processor is asked to take an interrupt.
    #[tactic(auto, unfolding(mdl_dev::specs::PicPair::wants))]
    pub fn wants(&self) -> bool
        ensures { result ≡ wants self.now }
    {
        self.first_request().is_some()
    }

    /// The processor takes an interrupt, and gets its vector. Where nothing is asked for any more,
    /// it is the vector of the first chip's line 7, which then is not in service.
    #[tactic(auto, unfolding(mdl_dev::specs::PicPair::acknowledge, mdl_dev::specs::PicPair::after_acknowledge))]
    pub fn acknowledge(&mut self) -> u8
        ensures vector { result ≡ acknowledge self.old }
        ensures after { self.new ≡ after_acknowledge self.old }
    {
        let asked = self.first_request();
        if asked != Some(CASCADE) {
            let vector = vector(&self.first, asked);
            serve(&mut self.first, asked);
            return vector;
        }
        let second = self.second_request();
        let vector = vector(&self.second, second);
        serve(&mut self.first, asked);
        serve(&mut self.second, second);
        vector
    }

    /// The state as bytes, 13 for each chip: IRR (without the line of the second chip), ISR, IMR,
    /// the vector of line 0, the lowest line, the stage of the initialization, bits 1 and 0 of
    /// ICW1, and six truth values.
    pub fn image(&self) -> [u8; IMAGE_BYTES]
        ensures image { result ≡ image self.now }
        ensures range { IsTrue (is_image result) }
    {
        let mut bytes = [0; IMAGE_BYTES];
        bytes[..CHIP_BYTES].copy_from_slice(&chip_image(&self.first));
        bytes[CHIP_BYTES..].copy_from_slice(&chip_image(&self.second));
        bytes
    }

    /// The pair that has this image; nothing where a byte is out of its range.
    pub fn from_image(bytes: &[u8; IMAGE_BYTES]) -> Option<Pic>
        ensures range { IsSome result ↔ IsTrue (is_image bytes.now) }
        ensures image { IfSome result (λ pic. image pic ≡ bytes.now) }
        ensures back { (pair : PicPair) → IsPair pair → bytes.now ≡ image pair → result ≡ Some pair }
    {
        if !is_image(bytes) {
            return None;
        }
        Some(Pic {
            first: chip_of(&chip_bytes(bytes, 0)),
            second: chip_of(&chip_bytes(bytes, CHIP_BYTES)),
        })
    }
}
