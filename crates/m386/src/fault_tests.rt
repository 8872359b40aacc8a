//! What the clauses do not say of failing hosts: which slot is told, that the line is tried behind a
//! failure of the report itself, and that a report does not depend on how a host cuts its pieces.

use crate::status::Status;
use crate::top::m386;
use host_io::{InSlot, MemHost, OutSlot};
use std::alloc::{AllocError, Global};
use std::test::Fail;

/// More than the bytes of a report.
const ROOM: u32 = 4096;

/// A host with a ROM of 4,096 of these bytes.
fn host_with(alloc: Global, byte: u8) -> Result<MemHost, AllocError> {
    let mut host = MemHost::new(alloc);
    host.put(InSlot::Rom, vec![in alloc; byte; 4096]?);
    host.make_room(OutSlot::Report, ROOM)?;
    Ok(host)
}

/// A host with a ROM of F4h, which is HLT.
fn host(alloc: Global) -> Result<MemHost, AllocError> {
    host_with(alloc, 0xF4)
}

/// Runs the ROM of a host for so many steps.
fn run(alloc: Global, host: &mut MemHost, steps: &str) -> Status {
    m386(alloc, &["run", "--rom", "rom.bin", "--steps", steps], host)
}

/// Lists the ROM of a host.
fn list(alloc: Global, host: &mut MemHost) -> Status {
    m386(alloc, &["dis", "--rom", "rom.bin"], host)
}

/// The bytes of a mebibyte.
const MEBIBYTE: u32 = 0x100000;

/// How many bytes of RAM are written in a call.
const PIECE: usize = 0x10000;

/// A run with all options.
const ALL: [&str; 15] = [
    "run", "--rom", "rom.bin", "--disk", "disk.bin", "--script", "keys", "--ram", "1", "--steps",
    "1", "--mem", "mem.bin", "--save", "save.bin",
];

/// A host with an input for each option of a run, and room for each output.
fn full_host(alloc: Global) -> Result<MemHost, AllocError> {
    let mut host = host(alloc)?;
    host.put(InSlot::Disk, vec![in alloc; 0xA5; 512]?);
    host.put(InSlot::Script, vec![in alloc; b'#'; 8]?);
    host.make_room(OutSlot::Mem, MEBIBYTE)?;
    host.make_room(OutSlot::Save, 512)?;
    Ok(host)
}

const ROM_LINE: &str = "m386: host fault at rom\n";

const REPORT_LINE: &str = "m386: host fault at report\n";

/// Whether a text is a prefix of the whole, of so many lines, and then the line.
fn is_cut(text: &[u8], whole: &[u8], lines: usize, line: &str) -> bool {
    match text.strip_suffix(line.as_bytes()) {
        Some(cut) => {
            whole.starts_with(cut) && cut.iter().filter(|byte| **byte == b'\n').count() == lines
        }
        None => false,
    }
}

// The opening, two reads, the opening of the report, and its two pieces: 17 lines and 25.
#[test]
fn a_failing_call_is_told_behind_what_the_report_has(rt: HostRuntime) -> Result<(), Fail> {
    let mut whole = host(rt.alloc())?;
    whole.fail_at(7)?;
    assert_eq!(rt; run(rt.alloc(), &mut whole, "1"), Status::Done);
    for (call, lines, line) in [
        (1, 0, ROM_LINE),
        (2, 0, ROM_LINE),
        (3, 0, ROM_LINE),
        (4, 0, REPORT_LINE),
        (5, 0, REPORT_LINE),
        (6, 17, REPORT_LINE),
    ] {
        let mut host = host(rt.alloc())?;
        host.fail_at(call)?;
        assert_eq!(rt;
            run(rt.alloc(), &mut host, "1"),
            Status::HostFault,
            "call {call}"
        );
        assert!(rt;
            is_cut(
                host.taken(OutSlot::Report),
                whole.taken(OutSlot::Report),
                lines,
                line
            ),
            "call {call}"
        );
    }
    Ok(())
}

/// How many bytes of RAM are written before a call, where the first are written in the 14th.
fn bytes_before(call: u64) -> usize {
    PIECE * call.saturating_sub(14).min(16) as usize
}

// Three calls on each input, three on the report, one and 16 on RAM, and two on the disk.
#[test]
fn each_failing_call_of_a_run_is_told_with_its_slot(rt: HostRuntime) -> Result<(), Fail> {
    let mut whole = full_host(rt.alloc())?;
    assert_eq!(rt; m386(rt.alloc(), &ALL, &mut whole), Status::Done);
    assert_eq!(rt; whole.taken(OutSlot::Save).len(), 512);
    for (first, behind, lines, line) in [
        (1, 4, 0, "m386: host fault at rom\n"),
        (4, 7, 0, "m386: host fault at disk\n"),
        (7, 10, 0, "m386: host fault at script\n"),
        (10, 12, 0, "m386: host fault at report\n"),
        (12, 13, 17, "m386: host fault at report\n"),
        (13, 30, 42, "m386: host fault at mem\n"),
        (30, 32, 42, "m386: host fault at save\n"),
    ] {
        for call in first..behind {
            let mut host = full_host(rt.alloc())?;
            host.fail_at(call)?;
            assert_eq!(rt;
                m386(rt.alloc(), &ALL, &mut host),
                Status::HostFault,
                "call {call}"
            );
            assert!(rt;
                is_cut(
                    host.taken(OutSlot::Report),
                    whole.taken(OutSlot::Report),
                    lines,
                    line
                ),
                "call {call}"
            );
            assert_eq!(rt;
                host.taken(OutSlot::Mem).len(),
                bytes_before(call),
                "call {call}"
            );
            assert!(rt; host.taken(OutSlot::Save).is_empty(), "call {call}");
        }
    }
    Ok(())
}

// The first call fails, then the opening for the line, or the line itself.
#[test]
fn a_line_that_fails_is_tried_once_and_leaves_the_status(rt: HostRuntime) -> Result<(), Fail> {
    for call in [2, 3] {
        let mut rom = host(rt.alloc())?;
        rom.fail_at(1)?;
        rom.fail_at(call)?;
        assert_eq!(rt;
            run(rt.alloc(), &mut rom, "1"),
            Status::HostFault,
            "call {call}"
        );
        assert!(rt; rom.taken(OutSlot::Report).is_empty(), "call {call}");
        let mut words = host(rt.alloc())?;
        words.fail_at(call - 1)?;
        assert_eq!(rt; m386(rt.alloc(), &[], &mut words), Status::Usage);
        assert!(rt; words.taken(OutSlot::Report).is_empty(), "call {call}");
    }
    Ok(())
}

#[test]
fn a_full_output_takes_the_first_bytes_of_a_line(rt: HostRuntime) -> Result<(), Fail> {
    let mut host = MemHost::new(rt.alloc());
    host.make_room(OutSlot::Report, 6)?;
    assert_eq!(rt; m386(rt.alloc(), &["halt"], &mut host), Status::Usage);
    assert_eq!(rt; host.taken(OutSlot::Report), "m386: ".as_bytes());
    Ok(())
}

#[test]
fn a_host_that_hands_over_single_bytes_takes_the_same_report(rt: HostRuntime) -> Result<(), Fail> {
    let mut whole = host(rt.alloc())?;
    assert_eq!(rt; run(rt.alloc(), &mut whole, "1"), Status::Done);
    let mut single = host(rt.alloc())?;
    single.set_piece(1);
    assert_eq!(rt; run(rt.alloc(), &mut single, "1"), Status::Done);
    assert_eq!(rt; single.taken(OutSlot::Report), whole.taken(OutSlot::Report));
    Ok(())
}

// Two lines fit into the output, and the third only in part.
#[test]
fn a_full_output_takes_the_first_bytes_of_a_listing(rt: HostRuntime) -> Result<(), Fail> {
    let alloc = rt.alloc();
    let mut host = MemHost::new(alloc);
    host.put(InSlot::Rom, vec![in alloc; 0x90; 4096]?);
    host.make_room(OutSlot::Report, 40)?;
    assert_eq!(rt; list(alloc, &mut host), Status::HostFault);
    assert_eq!(rt;
        host.taken(OutSlot::Report),
        "00000000 90 nop\n00000001 90 nop\n00000002".as_bytes()
    );
    Ok(())
}

// The opening, two reads, the opening of the report, and a line.
#[test]
fn a_line_that_fails_is_told_behind_those_before(rt: HostRuntime) -> Result<(), Fail> {
    let mut host = host_with(rt.alloc(), 0x90)?;
    host.fail_at(6)?;
    assert_eq!(rt; list(rt.alloc(), &mut host), Status::HostFault);
    assert_eq!(rt;
        host.taken(OutSlot::Report),
        "00000000 90 nop\nm386: host fault at report\n".as_bytes()
    );
    Ok(())
}

/// A host whose commands are two lines, of which the first is none, and which fails at a call.
fn session_host(alloc: Global, failing: u64) -> Result<MemHost, AllocError> {
    let mut host = host(alloc)?;
    host.put(InSlot::Commands, Vec::from_slice(alloc, b"x\ns\n")?);
    host.fail_at(failing)?;
    Ok(host)
}

// Three calls on the ROM, the openings of the commands and of the report, a read of both lines, their
// answers, and the read of the end.
#[test]
fn a_failing_call_of_a_session_is_told_behind_its_answers(rt: HostRuntime) -> Result<(), Fail> {
    for (call, status, said) in [
        (1, Status::HostFault, "m386: host fault at rom\n"),
        (4, Status::HostFault, "m386: host fault at commands\n"),
        (5, Status::HostFault, "m386: host fault at report\n"),
        (6, Status::HostFault, "m386: host fault at commands\n"),
        (7, Status::HostFault, "m386: host fault at report\n"),
        (8, Status::HostFault, "?\nm386: host fault at report\n"),
        (
            9,
            Status::HostFault,
            "?\n1 f000:0000fff1 halted\nm386: host fault at commands\n",
        ),
        (10, Status::Done, "?\n1 f000:0000fff1 halted\n"),
    ] {
        let mut host = session_host(rt.alloc(), call)?;
        let words = ["monitor", "--rom", "rom.bin"];
        assert_eq!(rt; m386(rt.alloc(), &words, &mut host), status, "call {call}");
        assert_eq!(rt; host.taken(OutSlot::Report), said.as_bytes(), "call {call}");
    }
    Ok(())
}

#[test]
fn an_output_with_just_enough_room_takes_its_text(rt: HostRuntime) -> Result<(), Fail> {
    let mut whole = host(rt.alloc())?;
    assert_eq!(rt; run(rt.alloc(), &mut whole, "1"), Status::Done);
    let enough = whole.taken(OutSlot::Report).len().min(4096) as u32;
    for (room, status) in [
        (enough, Status::Done),
        (enough.saturating_sub(1), Status::HostFault),
    ] {
        let mut host = MemHost::new(rt.alloc());
        host.put(InSlot::Rom, vec![in rt.alloc(); 0xF4; 4096]?);
        host.make_room(OutSlot::Report, room)?;
        assert_eq!(rt; run(rt.alloc(), &mut host, "1"), status, "room {room}");
    }
    Ok(())
}
