//! The command words of a chip, and its registers as they are read.

ghost use Rattle.std.specs.Prelude.{◌≡◌, ◌<◌, false, IfSome};
ghost use Rattle.mdl_dev.specs.Pic.{has, rotated};
ghost use Rattle.mdl_dev.specs.PicCommands.{initialized, after_icw2, after_icw3, data_written, ocw2, ended, operated, ocw3_written, command_written, poll_answer, command_read, data_read, after_read};
ghost use Rattle.mdl_dev.specs.PicImage.{IsController};

use crate::priority::{LINES, has, in_service, serve, without_line};
use mdl_dev::pic::{
    AEOI, CASCADE, Controller, ESMM, IC4, IS_ICW1, IS_OCW3, Ocw2, POLL, RIS, RR, SFNM, SMM, SNGL,
    Shown, Stage,
};

/// The bit of a poll's answer that says that a line requests.
const POLLED: u8 = 0x80;

/// ICW1 begins an initialization.
fn initialize(chip: &mut Controller, word: u8)
    ensures { chip.new ≡ initialized chip.old word }
{
    let needs_icw4 = has(word, IC4);
    chip.irr = 0;
    chip.isr = 0;
    chip.imr = 0;
    chip.lowest = LINES - 1;
    chip.stage = Stage::Icw2;
    chip.single = has(word, SNGL);
    chip.needs_icw4 = needs_icw4;
    chip.automatic_eoi = chip.automatic_eoi && needs_icw4;
    chip.rotates = false;
    chip.special_mask = false;
    chip.special_nested = chip.special_nested && needs_icw4;
    chip.shown = Shown::Irr;
}

/// What comes after ICW3.
fn after_icw3(chip: &Controller) -> Stage
    ensures { result ≡ after_icw3 chip.now }
{
    if chip.needs_icw4 {
        Stage::Icw4
    } else {
        Stage::Ready
    }
}

/// What comes after ICW2.
fn after_icw2(chip: &Controller) -> Stage
    ensures { result ≡ after_icw2 chip.now }
{
    if chip.single {
        after_icw3(chip)
    } else {
        Stage::Icw3
    }
}

/// A write to the data port.
pub fn write_data(chip: &mut Controller, word: u8)
    requires { IsController chip.old }
    ensures chip { chip.new ≡ data_written chip.old.stage chip.old word }
    ensures sound { IsController chip.new }
    ensures irr { chip.new.irr ≡ chip.old.irr }
{
    match chip.stage {
        Stage::Icw2 => {
            chip.base = word / LINES * LINES;
            chip.stage = after_icw2(chip);
        }
        Stage::Icw3 => chip.stage = after_icw3(chip),
        Stage::Icw4 => {
            chip.automatic_eoi = has(word, AEOI);
            chip.special_nested = has(word, SFNM);
            chip.stage = Stage::Ready;
        }
        Stage::Before | Stage::Ready => chip.imr = word,
    }
}

/// The operation of OCW2.
#[rattlefmt::skip]
fn ocw2(word: u8) -> Ocw2
    ensures { result ≡ ocw2 word }
{
    match word >> 5 {
        0 => Ocw2::ClearRotateInAutomaticEoi,
        1 => Ocw2::NonSpecificEoi,
        2 => Ocw2::NoOperation,
        3 => Ocw2::SpecificEoi,
        4 => Ocw2::SetRotateInAutomaticEoi,
        5 => Ocw2::RotateOnNonSpecificEoi,
        6 => Ocw2::SetPriority,
        _ => Ocw2::RotateOnSpecificEoi,
    }
}

/// A line leaves service.
fn end(chip: &mut Controller, line: Option<u8>)
    requires { IfSome line (λ line. line < 8) }
    ensures { chip.new ≡ ended chip.old line }
{
    if let Some(line) = line {
        chip.isr = without_line(chip.isr, line);
    }
}

/// A line gets the lowest priority.
fn rotate(chip: &mut Controller, line: Option<u8>)
    ensures { chip.new ≡ rotated chip.old line }
{
    if let Some(line) = line {
        chip.lowest = line;
    }
}

/// OCW2 ends interrupts and turns the priorities.
fn operate(chip: &mut Controller, operation: Ocw2, line: u8)
    requires line { line < 8 }
    requires sound { IsController chip.old }
    ensures chip { chip.new ≡ operated operation chip.old line }
    ensures sound { IsController chip.new }
    ensures irr { chip.new.irr ≡ chip.old.irr }
{
    match operation {
        Ocw2::ClearRotateInAutomaticEoi => chip.rotates = false,
        Ocw2::NonSpecificEoi => {
            let served = in_service(chip);
            end(chip, served);
        }
        Ocw2::NoOperation => {}
        Ocw2::SpecificEoi => end(chip, Some(line)),
        Ocw2::SetRotateInAutomaticEoi => chip.rotates = true,
        Ocw2::RotateOnNonSpecificEoi => {
            let served = in_service(chip);
            end(chip, served);
            rotate(chip, served);
        }
        Ocw2::SetPriority => rotate(chip, Some(line)),
        Ocw2::RotateOnSpecificEoi => {
            end(chip, Some(line));
            rotate(chip, Some(line));
        }
    }
}

/// OCW3 chooses what is read, sets or clears special mask mode, and polls.
fn write_ocw3(chip: &mut Controller, word: u8)
    ensures { chip.new ≡ ocw3_written chip.old word }
{
    if has(word, ESMM) {
        chip.special_mask = has(word, SMM);
    }
    if has(word, RR) {
        chip.shown = if has(word, RIS) {
            Shown::Isr
        } else {
            Shown::Irr
        };
    }
    chip.polled = chip.polled || has(word, POLL);
}

/// A write to the command port.
pub fn write_command(chip: &mut Controller, word: u8)
    requires { IsController chip.old }
    ensures chip { chip.new ≡ command_written chip.old word }
    ensures sound { IsController chip.new }
    ensures cascade { has chip.old.irr CASCADE ≡ false → has chip.new.irr CASCADE ≡ false }
{
    if has(word, IS_ICW1) {
        initialize(chip, word);
    } else if has(word, IS_OCW3) {
        write_ocw3(chip, word);
    } else {
        operate(chip, ocw2(word), word % LINES);
    }
}

/// The answer to a poll.
fn poll_answer(asked: Option<u8>) -> u8
    requires { IfSome asked (λ line. line < 8) }
    ensures { result ≡ poll_answer asked }
{
    match asked {
        Some(line) => POLLED + line,
        None => 0,
    }
}

/// What the command port reads, with what the chip requests.
pub fn read_command(chip: &Controller, asked: Option<u8>) -> u8
    requires { IfSome asked (λ line. line < 8) }
    ensures { result ≡ command_read chip.now asked }
{
    if chip.polled {
        return poll_answer(asked);
    }
    match chip.shown {
        Shown::Irr => chip.irr,
        Shown::Isr => chip.isr,
    }
}

/// What the data port reads, with what the chip requests.
pub fn read_data(chip: &Controller, asked: Option<u8>) -> u8
    requires { IfSome asked (λ line. line < 8) }
    ensures { result ≡ data_read chip.now asked }
{
    if chip.polled {
        poll_answer(asked)
    } else {
        chip.imr
    }
}

/// A read of either port: the answer to a poll acknowledges.
pub fn end_read(chip: &mut Controller, asked: Option<u8>)
    requires below { IfSome asked (λ line. line < 8) }
    requires sound { IsController chip.old }
    ensures chip { chip.new ≡ after_read chip.old asked }
    ensures sound { IsController chip.new }
    ensures cascade { has chip.old.irr CASCADE ≡ false → has chip.new.irr CASCADE ≡ false }
{
    if chip.polled {
        chip.polled = false;
        serve(chip, asked);
    }
}
