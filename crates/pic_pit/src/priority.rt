//! The lines of a chip by their priority: what it requests, and what it serves.

ghost use Rattle.std.specs.Prelude.{◌≡◌, ◌≢◌, ◌<◌, ◌%◌, ℕ, false, find, IfSome};
ghost use Rattle.mdl_dev.specs.Pic.{has, with_line, without_line, order_of, asks, blocks, passes, is_held, is_ready, request, in_service, acknowledged, vector};
ghost use Rattle.mdl_dev.specs.PicImage.{IsController};

use mdl_dev::pic::{CASCADE, Chip, Controller, Stage};

/// How many lines a chip has.
pub const LINES: u8 = 8;

/// The line whose vector a chip gives where no request is left.
const SPURIOUS: u8 = 7;

/// Whether a bit of a register or a word is 1.
pub fn has(register: u8, bit: u8) -> bool
    requires { bit < 8 }
    ensures { result ≡ has register bit }
{
    (register >> bit) & 1 == 1
}

/// A register with the bit of a line.
#[tactic(auto, using(crate::proofs::Registers::set_other))]
pub fn with_line(register: u8, line: u8) -> u8
    requires { line < 8 }
    ensures register { result ≡ with_line register line }
    ensures cascade { line ≢ CASCADE → has result CASCADE ≡ has register CASCADE }
{
    register | 1 << line
}

/// A register without the bit of a line.
#[tactic(auto, using(crate::proofs::Registers::stays_clear))]
pub fn without_line(register: u8, line: u8) -> u8
    requires { line < 8 }
    ensures register { result ≡ without_line register line }
    ensures cascade { has register CASCADE ≡ false → has result CASCADE ≡ false }
{
    register & !(1 << line)
}

/// The first line in the order of priority that has its bit in a register.
fn first_line(register: u8, lowest: u8) -> Option<u8>
    requires { lowest < 8 }
    ensures line { result ≡ find (has register) (order_of lowest) }
    ensures below { IfSome result (λ line. line < 8) }
{
    let highest = (lowest + 1) % LINES;
    let turned = register.rotate_right(u32::from(highest));
    if turned == 0 {
        return None;
    }
    Some((highest + turned.trailing_zeros() as u8) % LINES)
}

/// The lines that block those below them.
#[tactic(auto, using(crate::proofs::Registers::has_and_not))]
fn blocking(chip: &Controller) -> u8
    ensures { (line : ℕ) → line < 8 → has result line ≡ blocks chip.now line }
{
    if chip.special_mask {
        chip.isr & !chip.imr
    } else {
        chip.isr
    }
}

/// Whether the line of the second chip does not block itself.
fn passes(which: Chip, chip: &Controller, line: u8) -> bool
    ensures { result ≡ passes which chip.now line }
{
    match which {
        Chip::First => chip.special_nested && line == CASCADE,
        Chip::Second => false,
    }
}

/// Whether a line asks: it has a request and is not masked.
fn asks(chip: &Controller, line: u8) -> bool
    requires { line < 8 }
    ensures { result ≡ asks chip.now line }
{
    has(chip.irr, line) && !has(chip.imr, line)
}

/// Whether a line is in service and holds itself back.
fn is_held(which: Chip, chip: &Controller, line: u8) -> bool
    requires { line < 8 }
    ensures { result ≡ is_held which chip.now line }
{
    has(blocking(chip), line) && !passes(which, chip, line)
}

/// Whether the initialization is complete.
fn is_ready(stage: Stage) -> bool
    ensures { result ≡ is_ready stage }
{
    match stage {
        Stage::Ready => true,
        Stage::Before | Stage::Icw2 | Stage::Icw3 | Stage::Icw4 => false,
    }
}

/// The line that a chip requests. The first line that asks or blocks decides.
#[tactic(auto, using(crate::proofs::Decides::request_unready))]
pub fn request(which: Chip, chip: &Controller) -> Option<u8>
    requires { chip.now.lowest < 8 }
    ensures line { result ≡ request which chip.now }
    ensures below { IfSome result (λ line. line < 8) }
{
    if !is_ready(chip.stage) {
        return None;
    }
    let counts = chip.irr & !chip.imr | blocking(chip);
    match first_line(counts, chip.lowest) {
        Some(line) if asks(chip, line) && !is_held(which, chip, line) => Some(line),
        Some(_) | None => None,
    }
}

/// The line that a plain end of interrupt ends.
#[tactic(auto, using(crate::proofs::Decides::service_found))]
pub fn in_service(chip: &Controller) -> Option<u8>
    requires { chip.now.lowest < 8 }
    ensures line { result ≡ in_service chip.now }
    ensures below { IfSome result (λ line. line < 8) }
{
    first_line(blocking(chip), chip.lowest)
}

/// A request is acknowledged.
pub fn serve(chip: &mut Controller, asked: Option<u8>)
    requires below { IfSome asked (λ line. line < 8) }
    requires sound { IsController chip.old }
    ensures chip { chip.new ≡ acknowledged chip.old asked }
    ensures sound { IsController chip.new }
    ensures cascade { has chip.old.irr CASCADE ≡ false → has chip.new.irr CASCADE ≡ false }
{
    if let Some(line) = asked {
        chip.irr = without_line(chip.irr, line);
        if !chip.automatic_eoi {
            chip.isr = with_line(chip.isr, line);
        } else if chip.rotates {
            chip.lowest = line;
        }
    }
}

/// The vector of a request; where none is left, that of line 7.
pub fn vector(chip: &Controller, asked: Option<u8>) -> u8
    requires base { chip.now.base % 8 ≡ 0 }
    requires below { IfSome asked (λ line. line < 8) }
    ensures { result ≡ vector chip.now asked }
{
    match asked {
        Some(line) => chip.base + line,
        None => chip.base + SPURIOUS,
    }
}
