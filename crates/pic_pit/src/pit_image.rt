//! The timer as bytes, and back.

ghost use Rattle.std.specs.Prelude.{◌≡◌, ◌≤◌, ◌+◌, ◌/◌, ◌%◌, ◌∷◌, [], Some, IfSome};
ghost use Rattle.mdl_dev.specs.PitImage.{counter_at, counter_image, from_image, has_kinds, image, is_counter_image, is_in_period, is_in_range, is_in_stage, long_at, number_of, stage_of, word_at};

use crate::control::{is_bcd, mode_of, modulus_of};
use crate::pit::Pit;
use mdl_dev::pit::{Counter, Mode, Stage, Timer};

/// In modes 2 and 3 a running count stays inside its period.
fn is_in_period(mode: Mode, counter: &Counter) -> bool
    ensures { result ≡ is_in_period mode counter.now }
{
    match mode {
        Mode::RateGenerator => {
            2 <= counter.loaded && 1 <= counter.value && counter.value <= counter.loaded
        }
        Mode::SquareWave => {
            2 <= counter.loaded
                && counter.value % 2 == 0
                && counter.value <= counter.loaded
                && (1 <= counter.value || counter.loaded % 2 == 1 && counter.out)
        }
        _ => true,
    }
}

/// A counter that loads, counts or waits has a count.
fn is_in_stage(stage: Stage, mode: Mode, counter: &Counter) -> bool
    ensures { result ≡ is_in_stage stage mode counter.now }
{
    match stage {
        Stage::Stopped => true,
        Stage::Loading | Stage::Waiting => 1 <= counter.written,
        Stage::Counting => {
            let most = modulus_of(is_bcd(counter.control));
            1 <= counter.written
                && counter.loaded <= most
                && counter.value <= most
                && is_in_period(mode, counter)
        }
    }
}

/// Whether each number of a counter is in its range.
#[tactic(auto, unfolding(mdl_dev::specs::PitImage::is_in_range))]
fn is_in_range(counter: &Counter) -> bool
    ensures { result ≡ is_in_range counter.now }
{
    let most = modulus_of(is_bcd(counter.control));
    16 <= counter.control
        && counter.control < 64
        && counter.written <= most
        && counter.loaded <= 65_536
        && counter.value <= 65_536
        && is_in_stage(counter.stage, mode_of(counter.control), counter)
}

fn number_of(stage: Stage) -> u8
    ensures { result ≡ number_of stage }
{
    match stage {
        Stage::Stopped => 0,
        Stage::Loading => 1,
        Stage::Counting => 2,
        Stage::Waiting => 3,
    }
}

fn stage_of(n: u8) -> Stage
    ensures { result ≡ stage_of n }
{
    match n {
        0 => Stage::Stopped,
        1 => Stage::Loading,
        2 => Stage::Counting,
        _ => Stage::Waiting,
    }
}

/// The bytes of a number, the lowest first.
fn word_bytes(n: u16) -> [u8; 2]
    ensures { result ≡ n % 256 ∷ n / 256 ∷ [] }
{
    [(n % 256) as u8, (n / 256) as u8]
}

fn long_bytes(n: u32) -> [u8; 4]
    ensures { result ≡ n % 256 ∷ n / 256 % 256 ∷ n / 65536 % 256 ∷ n / 16777216 ∷ [] }
{
    [
        (n % 256) as u8,
        (n / 256 % 256) as u8,
        (n / 65_536 % 256) as u8,
        (n / 16_777_216) as u8,
    ]
}

fn counter_image(counter: &Counter) -> [u8; 24]
    ensures { result ≡ counter_image counter.now }
{
    let [count0, count1] = word_bytes(counter.latched_count);
    let [written0, written1, written2, written3] = long_bytes(counter.written);
    let [loaded0, loaded1, loaded2, loaded3] = long_bytes(counter.loaded);
    let [value0, value1, value2, value3] = long_bytes(counter.value);
    [
        counter.control,
        counter.out as u8,
        counter.null as u8,
        number_of(counter.stage),
        counter.low_written as u8,
        counter.low,
        counter.high_next as u8,
        counter.count_latched as u8,
        count0,
        count1,
        counter.status_latched as u8,
        counter.latched_status,
        written0,
        written1,
        written2,
        written3,
        loaded0,
        loaded1,
        loaded2,
        loaded3,
        value0,
        value1,
        value2,
        value3,
    ]
}

/// The number of two bytes from a place on.
fn word_at(bytes: &[u8; 72], at: usize) -> u16
    requires { at + 2 ≤ 72 }
    ensures { result ≡ word_at bytes.now at }
{
    u16::from(bytes[at]) + 256 * u16::from(bytes[at + 1])
}

/// The number of four bytes from a place on.
fn long_at(bytes: &[u8; 72], at: usize) -> u32
    requires { at + 4 ≤ 72 }
    ensures { result ≡ long_at bytes.now at }
{
    u32::from(word_at(bytes, at)) + 65_536 * u32::from(word_at(bytes, at + 2))
}

/// The counter whose bytes stand from a place on.
fn counter_at(bytes: &[u8; 72], at: usize) -> Counter
    requires { at + 24 ≤ 72 }
    ensures { result ≡ counter_at bytes.now at }
{
    Counter {
        control: bytes[at],
        out: bytes[at + 1] == 1,
        null: bytes[at + 2] == 1,
        stage: stage_of(bytes[at + 3]),
        low_written: bytes[at + 4] == 1,
        low: bytes[at + 5],
        high_next: bytes[at + 6] == 1,
        count_latched: bytes[at + 7] == 1,
        latched_count: word_at(bytes, at + 8),
        status_latched: bytes[at + 10] == 1,
        latched_status: bytes[at + 11],
        written: long_at(bytes, at + 12),
        loaded: long_at(bytes, at + 16),
        value: long_at(bytes, at + 20),
    }
}

/// Whether the stage is 0 to 3 and the flags are 0 or 1.
fn has_kinds(bytes: &[u8; 72], at: usize) -> bool
    requires { at + 24 ≤ 72 }
    ensures { result ≡ has_kinds bytes.now at }
{
    bytes[at + 1] < 2
        && bytes[at + 2] < 2
        && bytes[at + 3] < 4
        && bytes[at + 4] < 2
        && bytes[at + 6] < 2
        && bytes[at + 7] < 2
        && bytes[at + 10] < 2
}

/// Whether the bytes from a place on are a counter's.
fn is_counter_image(bytes: &[u8; 72], at: usize) -> bool
    requires { at + 24 ≤ 72 }
    ensures { result ≡ is_counter_image bytes.now at }
{
    has_kinds(bytes, at) && is_in_range(&counter_at(bytes, at))
}

fn timer_image(timer: &Timer) -> [u8; 72]
    ensures { result ≡ image timer.now }
{
    let mut bytes = [0; 72];
    bytes[..24].copy_from_slice(&counter_image(&timer.counter0));
    bytes[24..48].copy_from_slice(&counter_image(&timer.counter1));
    bytes[48..].copy_from_slice(&counter_image(&timer.counter2));
    bytes
}

impl Pit {
    /// The whole state but for the gate, as 24 bytes for each counter: control word, OUT, null
    /// count, stage, low byte written, that byte, high byte read next, count latched, that count
    /// (2 bytes), status latched, that status, and of 4 bytes each the written count, the loaded
    /// count and the value. Numbers have their low byte first.
    #[tactic(auto, using(crate::proofs::Images::bytes_back))]
    pub fn image(&self) -> [u8; 72]
        ensures image { result ≡ image self.now }
        ensures back { from_image result self.now.gate2 ≡ Some self.now }
    {
        timer_image(&self.timer)
    }

    /// The timer that has this image, with its gate handed in; none where a number is out of the
    /// range that it has in every timer.
    pub fn from_image(bytes: &[u8; 72], gate2: bool) -> Option<Pit>
        ensures timer { result ≡ from_image bytes.now gate2 }
        ensures image { IfSome result (λ pit. image pit ≡ bytes.now) }
        ensures gate { IfSome result (λ pit. pit.gate2 ≡ gate2) }
    {
        if is_counter_image(bytes, 0)
            && is_counter_image(bytes, 24)
            && is_counter_image(bytes, 48)
        {
            Some(Pit {
                timer: Timer {
                    counter0: counter_at(bytes, 0),
                    counter1: counter_at(bytes, 24),
                    counter2: counter_at(bytes, 48),
                    gate2,
                },
            })
        } else {
            None
        }
    }
}
