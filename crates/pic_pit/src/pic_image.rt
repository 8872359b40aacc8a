//! The state of the interrupt controllers as bytes.

ghost use Rattle.std.specs.Prelude.{◌≡◌, ◌<◌, ◌≤◌, IsTrue};
ghost use Rattle.std.specs.Int.{from_bool};
ghost use Rattle.mdl_dev.specs.PicImage.{stage_number, shown_number, chip_image, chip_bytes, are_flags, is_chip_image, is_image, IsController};

use crate::priority::{LINES, has};
use mdl_dev::pic::{CASCADE, Controller, IC4, SNGL, Shown, Stage};

/// How many bytes a chip has.
pub const CHIP_BYTES: usize = 13;
/// How many bytes the pair has.
pub const IMAGE_BYTES: usize = 2 * CHIP_BYTES;

/// Where a chip's image has the vector of line 0.
const BASE: usize = 3;

/// Where it has the line of the lowest priority.
const LOWEST: usize = 4;

/// Where it has the stage of the initialization.
const STAGE: usize = 5;

/// Where it has bits 1 and 0 of ICW1.
const ICW1: usize = 6;

/// Where its truth values begin.
const FLAGS: usize = 7;

fn stage_number(stage: Stage) -> u8
    ensures { result ≡ stage_number stage }
{
    match stage {
        Stage::Before => 0,
        Stage::Icw2 => 1,
        Stage::Icw3 => 2,
        Stage::Icw4 => 3,
        Stage::Ready => 4,
    }
}

/// The bytes of a chip.
pub fn chip_image(chip: &Controller) -> [u8; CHIP_BYTES]
    ensures { result ≡ chip_image chip.now }
{
    [
        chip.irr,
        chip.isr,
        chip.imr,
        chip.base,
        chip.lowest,
        stage_number(chip.stage),
        u8::from(chip.single) * 2 + u8::from(chip.needs_icw4),
        u8::from(chip.automatic_eoi),
        u8::from(chip.rotates),
        u8::from(chip.special_mask),
        u8::from(chip.special_nested),
        u8::from(chip.shown == Shown::Isr),
        u8::from(chip.polled),
    ]
}

fn stage_of(number: u8) -> Stage
    requires { number < 5 }
    ensures { stage_number result ≡ number }
{
    match number {
        0 => Stage::Before,
        1 => Stage::Icw2,
        2 => Stage::Icw3,
        3 => Stage::Icw4,
        _ => Stage::Ready,
    }
}

fn shown_of(number: u8) -> Shown
    requires { number < 2 }
    ensures { shown_number result ≡ number }
{
    match number {
        0 => Shown::Irr,
        _ => Shown::Isr,
    }
}

fn flag_of(number: u8) -> bool
    requires { number < 2 }
    ensures { from_bool result ≡ number }
{
    number == 1
}

/// Whether bytes are truth values.
#[tactic(auto, unfolding(mdl_dev::specs::PicImage::are_flags))]
fn are_flags(bytes: &[u8]) -> bool
    ensures { result ≡ are_flags bytes.now }
{
    bytes.iter().all(|&flag| flag < 2)
}

/// Whether these are some chip's bytes.
#[tactic(auto, unfolding(mdl_dev::specs::PicImage::is_chip_image))]
fn is_chip_image(bytes: &[u8; CHIP_BYTES]) -> bool
    ensures { result ≡ is_chip_image bytes.now }
{
    if bytes[BASE] % LINES != 0 {
        return false;
    }
    if bytes[LOWEST] >= LINES {
        return false;
    }
    if bytes[STAGE] > stage_number(Stage::Ready) {
        return false;
    }
    if bytes[ICW1] >= 1 << (SNGL + 1) {
        return false;
    }
    are_flags(&bytes[FLAGS..])
}

/// The chip that has these bytes.
pub fn chip_of(bytes: &[u8; CHIP_BYTES]) -> Controller
    requires { IsTrue (is_chip_image bytes.now) }
    ensures image { chip_image result ≡ bytes.now }
    ensures sound { IsController result }
{
    let [
        irr,
        isr,
        imr,
        base,
        lowest,
        stage,
        icw1,
        automatic_eoi,
        rotates,
        special_mask,
        special_nested,
        shown,
        polled,
    ] = *bytes;
    Controller {
        irr,
        isr,
        imr,
        base,
        lowest,
        stage: stage_of(stage),
        single: has(icw1, SNGL),
        needs_icw4: has(icw1, IC4),
        automatic_eoi: flag_of(automatic_eoi),
        rotates: flag_of(rotates),
        special_mask: flag_of(special_mask),
        special_nested: flag_of(special_nested),
        shown: shown_of(shown),
        polled: flag_of(polled),
    }
}

/// The bytes of one chip, from a place on.
pub fn chip_bytes(image: &[u8; IMAGE_BYTES], at: usize) -> [u8; CHIP_BYTES]
    requires { at ≤ CHIP_BYTES }
    ensures { result ≡ chip_bytes image.now at }
{
    let mut bytes = [0; CHIP_BYTES];
    bytes.copy_from_slice(&image[at..at + CHIP_BYTES]);
    bytes
}

/// Whether these are some pair's bytes.
#[tactic(auto, unfolding(mdl_dev::specs::PicImage::is_image))]
pub fn is_image(bytes: &[u8; IMAGE_BYTES]) -> bool
    ensures { result ≡ is_image bytes.now }
{
    if !is_chip_image(&chip_bytes(bytes, 0)) {
        return false;
    }
    if !is_chip_image(&chip_bytes(bytes, CHIP_BYTES)) {
        return false;
    }
    !has(bytes[0], CASCADE)
}
