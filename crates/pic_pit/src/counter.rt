//! One counter: its control word, the bytes of its counts, and latches.

ghost use Rattle.std.specs.Prelude.{◌≡◌, ◌<◌, ◌≤◌, IsTrue};
ghost use Rattle.mdl_dev.specs.Counter.{access_of, after_read, byte_of, byte_read, byte_written, count_latched, count_read, count_written, first_byte, flag, mode_of, set_up, stage_after_count, status_latched, status_of, word_read};
ghost use Rattle.mdl_dev.specs.Pit.{read_back};
ghost use Rattle.mdl_dev.specs.PitImage.{is_in_range};

use crate::control::{access_of, is_bcd, mode_of, starts_high};
use crate::counts::{count_of, word_of};
use mdl_dev::pit::{AccessForm, Counter, Mode, Stage};

/// A control word, of which the low six bits are handed in.
#[tactic(auto, unfolding(mdl_dev::specs::PitImage::is_in_range))]
pub(crate) fn set_up(counter: &mut Counter, control: u8)
    requires least { 16 ≤ control }
    requires most { control < 64 }
    requires range { IsTrue (is_in_range counter.old) }
    ensures new { counter.new ≡ set_up counter.old control }
    ensures range { IsTrue (is_in_range counter.new) }
{
    counter.control = control;
    counter.out = starts_high(mode_of(control));
    counter.null = true;
    counter.stage = Stage::Stopped;
    counter.low_written = false;
    counter.high_next = false;
    counter.count_latched = false;
    counter.status_latched = false;
    counter.written = 0;
}

/// The first byte of a count, or its only one.
#[tactic(auto, unfolding(mdl_dev::specs::PitImage::is_in_range))]
fn first_byte(counter: &mut Counter)
    ensures new { counter.new ≡ first_byte (mode_of counter.old.control) counter.old }
    ensures range { IsTrue (is_in_range counter.old) → IsTrue (is_in_range counter.new) }
{
    if mode_of(counter.control) == Mode::TerminalCount {
        counter.out = false;
        counter.stage = Stage::Stopped;
    }
}

/// What a whole count is followed by.
fn stage_after_count(mode: Mode, stage: Stage) -> Stage
    ensures { result ≡ stage_after_count mode stage }
{
    match (mode, stage) {
        (Mode::TerminalCount | Mode::SoftwareStrobe, _) => Stage::Loading,
        (Mode::RateGenerator | Mode::SquareWave, Stage::Stopped) => Stage::Loading,
        (Mode::OneShot | Mode::HardwareStrobe, Stage::Stopped) => Stage::Waiting,
        _ => stage,
    }
}

/// A whole count is written.
#[tactic(auto, using(crate::proofs::Ranges::count_stays))]
fn write_count(counter: &mut Counter, word: u16)
    ensures new { counter.new ≡ count_written counter.old word }
    ensures range { IsTrue (is_in_range counter.old) → IsTrue (is_in_range counter.new) }
{
    counter.null = true;
    counter.stage = stage_after_count(mode_of(counter.control), counter.stage);
    counter.written = count_of(is_bcd(counter.control), word);
}

/// A byte written to the counter's port.
#[tactic(auto, unfolding(mdl_dev::specs::PitImage::is_in_range))]
pub(crate) fn write_byte(counter: &mut Counter, byte: u8)
    ensures new { counter.new ≡ byte_written counter.old byte }
    ensures range { IsTrue (is_in_range counter.old) → IsTrue (is_in_range counter.new) }
{
    match access_of(counter.control) {
        AccessForm::LowByte => {
            first_byte(counter);
            write_count(counter, u16::from(byte));
        }
        AccessForm::HighByte => {
            first_byte(counter);
            write_count(counter, 256 * u16::from(byte));
        }
        AccessForm::LowThenHigh => {
            if counter.low_written {
                counter.low_written = false;
                write_count(counter, u16::from(counter.low) + 256 * u16::from(byte));
            } else {
                first_byte(counter);
                counter.low_written = true;
                counter.low = byte;
            }
        }
    }
}

fn flag(set: bool) -> u8
    ensures { result ≡ flag set }
{
    set as u8
}

/// OUT, null count, and the control word.
fn status_of(counter: &Counter) -> u8
    requires { counter.now.control < 64 }
    ensures { result ≡ status_of counter.now }
{
    128 * flag(counter.out) + 64 * flag(counter.null) + counter.control
}

/// The count is latched, where none waits to be read.
#[tactic(auto, unfolding(mdl_dev::specs::PitImage::is_in_range))]
pub(crate) fn latch_count(counter: &mut Counter)
    ensures new { counter.new ≡ count_latched counter.old }
    ensures range { IsTrue (is_in_range counter.old) → IsTrue (is_in_range counter.new) }
{
    if !counter.count_latched {
        counter.count_latched = true;
        counter.latched_count = word_of(is_bcd(counter.control), counter.value);
    }
}

/// The status is latched, where none waits to be read.
#[tactic(auto, unfolding(mdl_dev::specs::PitImage::is_in_range))]
pub(crate) fn latch_status(counter: &mut Counter)
    requires { IsTrue (is_in_range counter.old) }
    ensures new { counter.new ≡ status_latched counter.old }
    ensures range { IsTrue (is_in_range counter.new) }
{
    if !counter.status_latched {
        counter.status_latched = true;
        counter.latched_status = status_of(counter);
    }
}

/// A read-back that chooses the counter: bit 5 is 0 for its count, bit 4 for its status.
pub(crate) fn read_back(counter: &mut Counter, byte: u8)
    requires { IsTrue (is_in_range counter.old) }
    ensures new { counter.new ≡ read_back byte counter.old }
    ensures range { IsTrue (is_in_range counter.new) }
{
    if byte / 32 % 2 == 0 {
        latch_count(counter);
    }
    if byte / 16 % 2 == 0 {
        latch_status(counter);
    }
}

/// The count that is read: the latched one, else the one that runs.
fn word_read(counter: &Counter) -> u16
    ensures { result ≡ word_read counter.now }
{
    if counter.count_latched {
        counter.latched_count
    } else {
        word_of(is_bcd(counter.control), counter.value)
    }
}

/// The byte of a count that is read.
fn byte_of(access: AccessForm, high: bool, word: u16) -> u8
    ensures { result ≡ byte_of access high word }
{
    match (access, high) {
        (AccessForm::LowByte, _) | (AccessForm::LowThenHigh, false) => (word % 256) as u8,
        (AccessForm::HighByte, _) | (AccessForm::LowThenHigh, true) => (word / 256) as u8,
    }
}

/// A byte of the count is read.
#[tactic(auto, unfolding(mdl_dev::specs::PitImage::is_in_range))]
fn pass_byte(counter: &mut Counter)
    ensures new { counter.new ≡ count_read (access_of counter.old.control) counter.old }
    ensures range { IsTrue (is_in_range counter.old) → IsTrue (is_in_range counter.new) }
{
    match access_of(counter.control) {
        AccessForm::LowByte | AccessForm::HighByte => counter.count_latched = false,
        AccessForm::LowThenHigh => {
            if counter.high_next {
                counter.high_next = false;
                counter.count_latched = false;
            } else {
                counter.high_next = true;
            }
        }
    }
}

/// A read of the counter's port: a latched status, else the next byte of a count.
#[tactic(auto, unfolding(mdl_dev::specs::PitImage::is_in_range))]
pub(crate) fn read_byte(counter: &mut Counter) -> u8
    ensures value { result ≡ byte_read counter.old }
    ensures after { counter.new ≡ after_read counter.old }
    ensures range { IsTrue (is_in_range counter.old) → IsTrue (is_in_range counter.new) }
{
    if counter.status_latched {
        counter.status_latched = false;
        return counter.latched_status;
    }
    let word = word_read(counter);
    let byte = byte_of(access_of(counter.control), counter.high_next, word);
    pass_byte(counter);
    byte
}
