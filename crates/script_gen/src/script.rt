//! The script of a run, read from the bytes of its file.

ghost use Rattle.std.specs.Prelude.{◌≡◌, ◌<◌, ◌≤◌, ◌^◌, ℕ, ◌≢◌, length, IfOk, IfSome, IfNone};
ghost use Rattle.mdl_state.specs.declared.Event as written;
ghost use Rattle.mdl_text.specs.Script.{Script, IsFirstBad};
ghost use Rattle.mdl_text.specs.ScriptLaws.{Follows, count_after};
ghost use Rattle.script_gen.specs.declared.script.ScriptError.TheVariants.{Line};

use crate::cuts::{first_line, is_skipped};
use crate::events::event_of;
use mdl_state::Event;
use std::alloc::Global;

/// The most events of a script.
const MOST_EVENTS: usize = 65_536;

/// Why a script was not read.
#[derive(Clone, Copy, Debug, PartialEq, Eq)]
pub enum ScriptError {
    /// Memory was wanting.
    Memory,
    /// The line of this number is the first bad one; the file's first line has the number 1.
    Line(u32),
}

/// The count of the last event, or 0 where there is none.
fn last_count(events: &[Event]) -> u64
    ensures { result ≡ count_after 0 events.now }
{
    match events.split_last() {
        Some((last, _)) => last.at,
        None => 0,
    }
}

/// The event of a line that may follow these.
fn next_event(events: &[Event], line: &[u8]) -> Option<Event>
    ensures some { IfSome result (λ event. Follows events.now line.now event) }
    ensures none { IfNone result ((event : written.Event) → ¬ (Follows events.now line.now event)) }
{
    let event = event_of(line)?;
    if event.at < last_count(events) || events.len() >= MOST_EVENTS {
        return None;
    }
    Some(event)
}

/// The events of a script.
pub fn read_script(alloc: Global, bytes: &[u8]) -> Result<Vec<Event>, ScriptError>
    requires { length bytes.now < 2 ^ 32 }
    ensures script { IfOk result (λ events. Script bytes.now events.items) }
    ensures line { (n : ℕ) → result ≡ Err (Line n) → IsFirstBad bytes.now n }
{
    let mut events = Vec::new(alloc);
    let mut rest = bytes;
    let mut number = 0;
    while let Some((line, behind)) = first_line(rest) {
        number += 1;
        rest = behind;
        if is_skipped(line) {
            continue;
        }
        let Some(event) = next_event(&events, line) else {
            return Err(ScriptError::Line(number));
        };
        if events.push(event).is_err() {
            return Err(ScriptError::Memory);
        }
    }
    Ok(events)
}
