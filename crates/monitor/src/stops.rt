//! The breakpoints of a session.

ghost use Rattle.std.specs.Prelude.{◌≡◌};
ghost use Rattle.monitor.specs.Stops.{place_of, with_stop, add_text, without_stop, drop_text};

use arrayvec::ArrayVec;

/// The linear addresses where `c` stops.
pub type Breaks = ArrayVec<u32, 16>;

/// Where the first of them has this address.
pub(crate) fn place_of(breaks: &Breaks, at: u32) -> Option<usize>
    ensures { result ≡ place_of breaks.now.items at }
{
    breaks.as_slice().iter().position(|stop| *stop == at)
}

/// Adds a breakpoint, and answers whether it is there.
pub(crate) fn add(breaks: &mut Breaks, at: u32) -> &'static [u8]
    ensures stops { breaks.new.items ≡ with_stop breaks.old.items at }
    ensures text { result.now ≡ add_text breaks.old.items at }
{
    if place_of(breaks, at).is_some() {
        b"ok\n"
    } else if breaks.is_full() {
        b"full\n"
    } else {
        breaks.push(at);
        b"ok\n"
    }
}

/// Removes a breakpoint, and answers whether it was there.
pub(crate) fn drop(breaks: &mut Breaks, at: u32) -> &'static [u8]
    ensures stops { breaks.new.items ≡ without_stop breaks.old.items at }
    ensures text { result.now ≡ drop_text breaks.old.items at }
{
    match place_of(breaks, at) {
        Some(place) => {
            breaks.remove(place);
            b"ok\n"
        }
        None => b"none\n",
    }
}
