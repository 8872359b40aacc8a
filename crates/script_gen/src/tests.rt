//! Scripts as a user writes them, and the first bytes of a demo guest.

ghost use Rattle.std.specs.Prelude.{◌<◌, ◌^◌, length};

use crate::{ScriptError, make_guest, read_script};
use EventKind::{Key, Nmi, Pulse, Reset};
use mdl_state::{Event, EventKind};
use std::alloc::Global;
use std::test::Fail;

/// Whether a text is a script of these events.
fn is_read(alloc: Global, text: &[u8], events: &[Event]) -> bool
    requires { length text.now < 2 ^ 32 }
{
    match read_script(alloc, text) {
        Ok(read) => read.as_slice() == events,
        Err(_) => false,
    }
}

/// Whether a line of a text is the first bad one.
fn is_refused(alloc: Global, text: &[u8], line: u32) -> bool
    requires { length text.now < 2 ^ 32 }
{
    match read_script(alloc, text) {
        Ok(_) => false,
        Err(error) => error == ScriptError::Line(line),
    }
}

fn event(at: u64, kind: EventKind) -> Event {
    Event { at, kind }
}

#[test]
fn lines_state_events(rt: HostRuntime) {
    let early = [event(0, Key(0x1E)), event(7, Key(0xAB))];
    let same = [event(5, Nmi), event(5, Reset)];
    let most = [event(1_000_000_000_000_000, Pulse(4_294_967_295))];
    let one = [event(10, Pulse(1))];
    for (text, events) in [
        (b"".as_slice(), [].as_slice()),
        (b"\n# 1 nmi\r\n\r\n#", &[]),
        (b"0 key 1e\r\n7 key Ab\n", &early),
        (b"5 nmi\n\n5 reset", &same),
        (b"1000000000000000 pulse 4294967295\r\n", &most),
        (b"#\xFF\n10 pulse 1", &one),
    ] {
        assert!(rt; text.len() < 64);
        assert!(rt; is_read(rt.alloc(), text, events));
    }
}

#[test]
fn the_first_bad_line_is_told(rt: HostRuntime) {
    for (text, line) in [
        (b"5 nmi\n4 nmi\n1 nmi\n".as_slice(), 2),
        (b"1 pulse 0", 1),
        (b"01 nmi", 1),
        (b"1  nmi", 1),
        (b" 1 nmi", 1),
        (b"+1 nmi", 1),
        (b"1 key 1", 1),
        (b"1 key 1g", 1),
        (b"1 pulse 4294967296", 1),
        (b"1000000000000001 nmi", 1),
        (b"1 NMI", 1),
        (b"1 nmi\r", 1),
        (b"\r\n\r", 2),
        (b"# one\n\n3 nmi\r\n3 nmi \n", 4),
        (b"3\xFF nmi", 1),
    ] {
        assert!(rt; text.len() < 64);
        assert!(rt; is_refused(rt.alloc(), text, line));
    }
}

#[test]
fn the_65537th_event_is_bad(rt: HostRuntime) -> Result<(), Fail> {
    let mut text = Vec::new(rt.alloc());
    for _ in 0..65_536 {
        text.extend_from_slice(b"9 nmi\n")?;
    }
    text.extend_from_slice(b"# the last but one\n")?;
    assert!(rt; text.len() == 393_235);
    assert!(rt; read_script(rt.alloc(), &text).is_ok());
    text.extend_from_slice(b"9 nmi\n")?;
    assert!(rt; is_refused(rt.alloc(), &text, 65_538));
    Ok(())
}

// By hand: the first six draws of 0 are 3C6Eh, 4750h, D1CCh, AAF9h, 6252h and 9F2Eh.
#[test]
fn the_demo_guest_of_0_begins_with_these_items(rt: HostRuntime) -> Result<(), Fail> {
    let rom = make_guest(rt.alloc(), 0)?;
    assert_eq!(rt; rom.len(), 0x10000);
    for (at, bytes) in [
        (0, [0x31, 0xC0, 0x8E, 0xD8, 0x8E].as_slice()),
        (
            0x0E,
            &[
                0xB9, 0x0C, 0x00, 0xF3, 0xA4, 0x09, 0xD2, 0xB9, 0x3D, 0x00, 0xF3, 0xA4,
            ],
        ),
        (0xFFEF, &[0xF4, 0xEA, 0x00, 0x00, 0x00, 0xF0, 0xF4]),
        (0xFFFF, &[0xF4]),
    ] {
        assert!(rt; at + bytes.len() <= rom.len());
        assert_eq!(rt; &rom[at..at + bytes.len()], bytes);
    }
    Ok(())
}
