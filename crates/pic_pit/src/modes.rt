//! The six modes of a counter: a pulse of the clock, and a change of the gate.

ghost use Rattle.std.specs.Prelude.{◌≡◌, ◌≤◌, IsTrue};
ghost use Rattle.mdl_dev.specs.Counter.{mode_of};
ghost use Rattle.mdl_dev.specs.Modes.{counting, gate_falls, gate_rises, high_at_zero, last_of_half, loading, low_at_zero, lowered, out_at_load, period_of, pulsed, rate, reload, square, taken};
ghost use Rattle.mdl_dev.specs.PitImage.{is_in_range, is_within};
ghost use Rattle.mdl_dev.specs.declared.pit.Mode.TheVariants.{SquareWave};
ghost use Rattle.mdl_dev.specs.declared.pit.Stage.TheVariants.{Loading, Counting};

use crate::control::{is_bcd, mode_of, modulus_of};
use mdl_dev::pit::{Counter, Mode, Stage};

/// A period of modes 2 and 3 has at least two pulses.
fn period_of(count: u32) -> u32
    ensures { result ≡ period_of count }
{
    if count == 1 { 2 } else { count }
}

/// The counter takes the count that was written.
fn take(counter: &mut Counter, mode: Mode)
    ensures { counter.new ≡ taken mode counter.old }
{
    let count = match mode {
        Mode::RateGenerator | Mode::SquareWave => period_of(counter.written),
        _ => counter.written,
    };
    counter.null = false;
    counter.loaded = count;
    counter.value = match mode {
        Mode::SquareWave => count - count % 2,
        _ => count,
    };
}

fn out_at_load(mode: Mode, out: bool) -> bool
    ensures { result ≡ out_at_load mode out }
{
    match mode {
        Mode::OneShot => false,
        Mode::SoftwareStrobe | Mode::HardwareStrobe => true,
        _ => out,
    }
}

/// The pulse that loads.
#[tactic(auto, using(crate::proofs::Ranges::loading_stays))]
fn load(counter: &mut Counter, mode: Mode)
    requires stage { counter.old.stage ≡ Loading }
    requires range { IsTrue (is_within mode counter.old) }
    ensures new { counter.new ≡ loading mode counter.old }
    ensures range { IsTrue (is_within mode counter.new) }
    ensures control { counter.new.control ≡ counter.old.control }
{
    take(counter, mode);
    counter.stage = Stage::Counting;
    counter.out = out_at_load(mode, counter.out);
}

/// Down by one, and from 0 to the highest count.
fn lower(counter: &mut Counter)
    ensures { counter.new ≡ lowered counter.old }
{
    counter.value = if counter.value == 0 {
        modulus_of(is_bcd(counter.control)) - 1
    } else {
        counter.value - 1
    };
}

/// Modes 0 and 1: OUT rises at 0.
fn count_to_high(counter: &mut Counter)
    ensures { counter.new ≡ high_at_zero (lowered counter.old) }
{
    lower(counter);
    if counter.value == 0 {
        counter.out = true;
    }
}

/// Modes 4 and 5: OUT is low at 0, for one pulse.
fn count_to_strobe(counter: &mut Counter)
    ensures { counter.new ≡ low_at_zero (lowered counter.old) }
{
    lower(counter);
    counter.out = counter.value != 0;
}

/// Mode 2: OUT is low at 1, for one pulse, and then the next period begins.
fn count_rate(counter: &mut Counter)
    requires { 1 ≤ counter.old.value }
    ensures { counter.new ≡ rate counter.old }
{
    if counter.value == 1 {
        take(counter, Mode::RateGenerator);
        counter.out = true;
    } else {
        counter.out = counter.value != 2 && counter.out;
        counter.value -= 1;
    }
}

/// Mode 3: the last count of a half period.
pub(crate) fn last_of_half(counter: &Counter) -> u32
    ensures { result ≡ last_of_half counter.now }
{
    if counter.loaded % 2 == 1 && counter.out {
        0
    } else {
        2
    }
}

/// Mode 3: down by two, and OUT changes after each half period.
#[tactic(auto, using(crate::proofs::Ranges::square_stays))]
fn count_square(counter: &mut Counter)
    requires stage { counter.old.stage ≡ Counting }
    requires range { IsTrue (is_within SquareWave counter.old) }
    ensures new { counter.new ≡ square counter.old }
    ensures range { IsTrue (is_within SquareWave counter.new) }
{
    if counter.value == last_of_half(counter) {
        take(counter, Mode::SquareWave);
        counter.out = !counter.out;
    } else {
        counter.value -= 2;
    }
}

/// A pulse of a counter that is loaded.
fn count(counter: &mut Counter, mode: Mode, gate: bool)
    requires stage { counter.old.stage ≡ Counting }
    requires range { IsTrue (is_within mode counter.old) }
    ensures new { counter.new ≡ counting mode gate counter.old }
    ensures range { IsTrue (is_within mode counter.new) }
    ensures control { counter.new.control ≡ counter.old.control }
{
    match mode {
        Mode::OneShot => count_to_high(counter),
        Mode::HardwareStrobe => count_to_strobe(counter),
        Mode::TerminalCount => {
            if gate {
                count_to_high(counter);
            }
        }
        Mode::RateGenerator => {
            if gate {
                count_rate(counter);
            }
        }
        Mode::SquareWave => {
            if gate {
                count_square(counter);
            }
        }
        Mode::SoftwareStrobe => {
            if gate {
                count_to_strobe(counter);
            } else {
                counter.out = true;
            }
        }
    }
}

/// One pulse of the clock.
#[tactic(auto, using(crate::proofs::Ranges::range_by_mode), unfolding(mdl_dev::specs::PitImage::is_in_range))]
pub(crate) fn pulse_counter(counter: &mut Counter, gate: bool)
    requires { IsTrue (is_in_range counter.old) }
    ensures new { counter.new ≡ pulsed gate counter.old }
    ensures range { IsTrue (is_in_range counter.new) }
{
    let mode = mode_of(counter.control);
    match counter.stage {
        Stage::Stopped | Stage::Waiting => {}
        Stage::Loading => load(counter, mode),
        Stage::Counting => count(counter, mode, gate),
    }
}

/// A rise of the gate has the count loaded again, where there is one.
fn reload(stage: Stage) -> Stage
    ensures { result ≡ reload stage }
{
    match stage {
        Stage::Stopped => Stage::Stopped,
        _ => Stage::Loading,
    }
}

/// The gate rises.
#[tactic(auto, unfolding(mdl_dev::specs::PitImage::is_in_range))]
pub(crate) fn raise_gate(counter: &mut Counter)
    ensures new { counter.new ≡ gate_rises (mode_of counter.old.control) counter.old }
    ensures range { IsTrue (is_in_range counter.old) → IsTrue (is_in_range counter.new) }
{
    match mode_of(counter.control) {
        Mode::TerminalCount | Mode::SoftwareStrobe => {}
        _ => counter.stage = reload(counter.stage),
    }
}

/// The gate falls.
#[tactic(auto, unfolding(mdl_dev::specs::PitImage::is_in_range))]
pub(crate) fn drop_gate(counter: &mut Counter)
    ensures new { counter.new ≡ gate_falls (mode_of counter.old.control) counter.old }
    ensures range { IsTrue (is_in_range counter.old) → IsTrue (is_in_range counter.new) }
{
    match mode_of(counter.control) {
        Mode::RateGenerator | Mode::SquareWave => counter.out = true,
        _ => {}
    }
}
