//! Many pulses of one counter at once, from one pulse that does more than lower the value to the next.

ghost use Rattle.std.specs.Prelude.{◌≡◌, ◌≤◌, true, false, IsTrue};
ghost use Rattle.mdl_dev.specs.PitImage.{is_in_range};
ghost use Rattle.mdl_dev.specs.declared.pit.Stage.TheVariants.{Counting};
ghost use Rattle.pic_pit.specs.Bursts.{counter_has_risen, counter_pulses, quiet_floor, step_of};

use crate::control::mode_of;
use crate::modes::{last_of_half, pulse_counter};
use mdl_dev::pit::{Counter, Mode, Stage};

/// Pulses that were made, and whether OUT rose in one of them.
#[derive(Drop)]
struct Stretch {
    pulses: u32,
    rose: bool,
}

/// By how much a pulse lowers the value.
fn step_of(mode: Mode) -> u32
    ensures value { result ≡ step_of mode }
    ensures some { 1 ≤ result }
{
    if mode == Mode::SquareWave { 2 } else { 1 }
}

/// The value down to which pulses do nothing but lower it.
fn quiet_floor(counter: &Counter, mode: Mode) -> u32
    ensures { result ≡ quiet_floor mode counter.now }
{
    match mode {
        Mode::TerminalCount | Mode::OneShot => 1,
        Mode::RateGenerator => 2,
        Mode::SquareWave => last_of_half(counter),
        Mode::SoftwareStrobe | Mode::HardwareStrobe => {
            if counter.out { 1 } else { counter.value }
        }
    }
}

/// Passes at once over pulses that do nothing but lower the value of a loaded counter whose gate is
/// high, and tells how many they were.
fn lower_quietly(counter: &mut Counter, most: u32) -> u32
    requires stage { counter.old.stage ≡ Counting }
    requires range { IsTrue (is_in_range counter.old) }
    ensures most { result ≤ most }
    ensures quiet { counter_has_risen true result counter.old ≡ false }
    ensures new { counter.new ≡ counter_pulses true result counter.old }
    ensures range { IsTrue (is_in_range counter.new) }
{
    let mode = mode_of(counter.control);
    let floor = quiet_floor(counter, mode);
    if counter.value < floor {
        return 0;
    }
    let step = step_of(mode);
    let passed = ((counter.value - floor) / step).min(most);
    counter.value -= step * passed;
    passed
}

/// The same for any counter: none of one that is not loaded, or whose gate is low.
#[tactic(auto, using(crate::proofs::Periods::no_pulses, crate::proofs::Quiet::none_quiet))]
fn pass_quiet(counter: &mut Counter, gate: bool, most: u32) -> u32
    requires { IsTrue (is_in_range counter.old) }
    ensures most { result ≤ most }
    ensures quiet { counter_has_risen gate result counter.old ≡ false }
    ensures new { counter.new ≡ counter_pulses gate result counter.old }
    ensures range { IsTrue (is_in_range counter.new) }
{
    match (counter.stage, gate) {
        (Stage::Counting, true) => lower_quietly(counter, most),
        _ => 0,
    }
}

/// Makes at least one pulse and at most so many.
#[tactic(auto, using(crate::proofs::Quiet::pulse_behind, crate::proofs::Quiet::risen_behind))]
fn run_on(counter: &mut Counter, gate: bool, most: u32) -> Stretch
    requires some { 1 ≤ most }
    requires range { IsTrue (is_in_range counter.old) }
    ensures least { 1 ≤ result.pulses }
    ensures most { result.pulses ≤ most }
    ensures rose { result.rose ≡ counter_has_risen gate result.pulses counter.old }
    ensures new { counter.new ≡ counter_pulses gate result.pulses counter.old }
    ensures range { IsTrue (is_in_range counter.new) }
{
    let quiet = pass_quiet(counter, gate, most - 1);
    let before = counter.out;
    pulse_counter(counter, gate);
    Stretch {
        pulses: quiet + 1,
        rose: !before && counter.out,
    }
}

/// Whether two counters are alike in all their registers.
fn is_same(a: &Counter, b: &Counter) -> bool
    ensures { result ≡ true → a.now ≡ b.now }
{
    *a == *b
}

/// So many pulses, and whether OUT rose in one of them. A counter whose gate stays as it is comes
/// back to where it was, after at most 65,536 pulses once its count is loaded; of the pulses that
/// are left then, whole periods are dropped.
pub(crate) fn pulse_many(counter: &mut Counter, gate: bool, n: u32) -> bool
    requires { IsTrue (is_in_range counter.old) }
    ensures rose { result ≡ counter_has_risen gate n counter.old }
    ensures new { counter.new ≡ counter_pulses gate n counter.old }
    ensures range { IsTrue (is_in_range counter.new) }
{
    let mut rose = false;
    let mut left = n;
    // The counter as it was so many pulses before.
    let mut earlier = *counter;
    let mut since = 0;
    let mut span: u32 = 1;
    while left > 0 {
        let made = run_on(counter, gate, left);
        rose |= made.rose;
        left -= made.pulses;
        since += made.pulses;
        if is_same(counter, &earlier) {
            left %= since;
        } else if since >= span {
            earlier = *counter;
            since = 0;
            span = span.saturating_mul(2);
        }
    }
    rose
}
