//! What a user sees of a session on the whole machine, by values that are worked out by hand.

ghost use Rattle.std.specs.Prelude.{◌≡◌, ◌≤◌};

use crate::Guest;
use host_io::{Host, InSlot, MemHost, OutSlot};
use monitor::{Broken, converse};
use pc_machine::Pc;
use std::alloc::{AllocError, Global};
use std::test::Fail;

/// HLT.
const HALT: u8 = 0xF4;

/// A host with these commands, which hands over pieces of a length, and fails at a call.
fn host(alloc: Global, input: &[u8], piece: u32, failing: u64) -> Result<MemHost, AllocError>
    requires { 1 ≤ piece }
{
    let mut host = MemHost::new(alloc);
    host.put(InSlot::Commands, Vec::from_slice(alloc, input)?);
    host.make_room(OutSlot::Report, 4096)?;
    host.set_piece(piece);
    host.fail_at(failing)?;
    Ok(host)
}

/// A session on a machine of one mebibyte whose ROM has HLT everywhere.
fn talk(alloc: Global, host: &mut MemHost) -> Result<Result<(), Broken>, AllocError> {
    let rom = vec![in alloc; HALT; 4096]?;
    let Ok(pc) = Pc::new(alloc, 1, rom, Vec::new(alloc)) else {
        return Err(AllocError);
    };
    let mut guest = Guest::new(pc, Vec::new(alloc));
    Ok(converse(&mut guest, host))
}

#[test]
fn each_line_up_to_q_or_the_end_is_answered(rt: HostRuntime) -> Result<(), Fail> {
    let sessions: [(&[u8], &[u8]); 6] = [
        (b"", b""),
        (
            b"s\nx\nb fff1\nd fff2\nq\ns\n",
            b"1 f000:0000fff1 halted\n?\nok\nnone\n",
        ),
        (b"s\r\n\r\n\n", b"1 f000:0000fff1 halted\n?\n?\n"),
        (b"x\ns", b"?\n1 f000:0000fff1 halted\n"),
        (b"x\nq", b"?\n"),
        (
            b"s                                                                \nq\n",
            b"?\n",
        ),
    ];
    for (input, said) in sessions {
        for piece in [1, 2, 4096] {
            let mut host = host(rt.alloc(), input, piece, 0)?;
            assert_eq!(rt; talk(rt.alloc(), &mut host)?, Ok(()));
            assert_eq!(rt; host.taken(OutSlot::Report), said);
        }
    }
    Ok(())
}

// Pieces of one byte: two reads for the first line, and its answer; then two reads and an answer in two bytes.
#[test]
fn an_answer_comes_before_the_next_line_is_read(rt: HostRuntime) -> Result<(), Fail> {
    for (failing, said, broken) in [
        (2, &b""[..], Broken::Commands),
        (3, &b""[..], Broken::Report),
        (4, &b"?"[..], Broken::Report),
        (5, &b"?\n"[..], Broken::Commands),
    ] {
        let mut host = host(rt.alloc(), b"x\ny\n", 1, failing)?;
        assert_eq!(rt; talk(rt.alloc(), &mut host)?, Err(broken));
        assert_eq!(rt; host.taken(OutSlot::Report), said);
    }
    Ok(())
}
