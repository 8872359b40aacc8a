use crate::{Command, LineBuffer, NotACommand, read_line};
use std::alloc::{AllocError, Global};
use std::test::Fail;

// Each row of the monitor's table with its least and its greatest operands.
#[test]
fn a_line_is_the_command_of_its_row(rt: HostRuntime) {
    let rows: [(&[u8], Command); 22] = [
        (b"s", Command::Steps(1)),
        (b"s 0", Command::Steps(0)),
        (b"s 1000000000000000", Command::Steps(1_000_000_000_000_000)),
        (b"t 1", Command::Trace(1)),
        (b"t 1000", Command::Trace(1000)),
        (b"g 0", Command::Go(0)),
        (b"g 1000000000000000", Command::Go(1_000_000_000_000_000)),
        (b"c", Command::Continue),
        (b"b 0", Command::AddStop(0)),
        (b"b 10", Command::AddStop(0x10)),
        (b"b 0000fff1", Command::AddStop(0xFFF1)),
        (b"b aBcDeF", Command::AddStop(0xABCDEF)),
        (b"d ffffffff", Command::DropStop(0xFFFFFFFF)),
        (b"d FFFFFFFF", Command::DropStop(0xFFFFFFFF)),
        (b"r", Command::Registers),
        (b"p", Command::Screen),
        (b"m 10 1", Command::Bytes(0x10, 1)),
        (b"m B8000 4096", Command::Bytes(0xB8000, 4096)),
        (b"u 7c00 1", Command::List(0x7C00, 1)),
        (b"u 0 99", Command::List(0, 99)),
        (b"u fffffff0 100", Command::List(0xFFFFFFF0, 100)),
        (b"q", Command::Quit),
    ];
    for (line, command) in rows {
        assert_eq!(rt; read_line(line), Ok(command));
    }
}

// Beside these: an empty line, a comment, a space before or behind, a carriage return, a tab, a sign, a
// leading zero, a number past the range or past 64 bits, nine digits, no digits, and 65 bytes.
#[test]
fn another_line_is_no_command(rt: HostRuntime) {
    let lines: [&[u8]; 37] = [
        b"",
        b" ",
        b"x",
        b"S",
        b"ss",
        b"# steps",
        b" s",
        b"s ",
        b"s 1 ",
        b"s  1",
        b"s\t1",
        b"s\r",
        b"s 01",
        b"s +1",
        b"s -1",
        b"s 1000000000000001",
        b"s 18446744073709551617",
        b"s \xFF",
        b"t",
        b"t 0",
        b"t 1001",
        b"g",
        b"c 1",
        b"b",
        b"b ",
        b"b +1",
        b"b 0x1",
        b"b fffg",
        b"d 000000001",
        b"r 1",
        b"m 0",
        b"m 0 0",
        b"m 0 4097",
        b"m 0 1 1",
        b"u 0 101",
        b"u 0 0a",
        b"b 0000000000000000000000000000000000000000000000000000000000000000",
    ];
    for line in lines {
        assert_eq!(rt; read_line(line), Err(NotACommand));
    }
}

/// What the lines of an input ask for, where it comes byte by byte.
fn answers(alloc: Global, input: &[u8]) -> Result<Vec<Result<Command, NotACommand>>, AllocError> {
    let mut line = LineBuffer::new();
    let mut answers = Vec::new(alloc);
    for byte in input {
        if line.take(&[*byte]).is_some() {
            answers.push(read_line(line.line()))?;
            line.clear();
        }
    }
    if !line.is_empty() {
        answers.push(read_line(line.line()))?;
    }
    Ok(answers)
}

// A line feed ends a line, and one carriage return before it or before the end of the input belongs to
// the end. An empty line is one, also at the end where a carriage return is all of it.
#[test]
fn an_input_is_answered_line_by_line(rt: HostRuntime) -> Result<(), Fail> {
    let inputs: [(&[u8], &[Result<Command, NotACommand>]); 6] = [
        (b"", &[]),
        (b"s\nq\n", &[Ok(Command::Steps(1)), Ok(Command::Quit)]),
        (
            b"s\r\n\nq",
            &[Ok(Command::Steps(1)), Err(NotACommand), Ok(Command::Quit)],
        ),
        (b"s\r\r\nc\r", &[Err(NotACommand), Ok(Command::Continue)]),
        (b"\r", &[Err(NotACommand)]),
        (
            b"c                                                                \nc\n",
            &[Err(NotACommand), Ok(Command::Continue)],
        ),
    ];
    for (input, wanted) in inputs {
        let got = answers(rt.alloc(), input)?;
        assert_eq!(rt; got.as_slice(), wanted);
    }
    Ok(())
}

// A piece is taken as far as its first line feed.
#[test]
fn a_piece_is_taken_line_by_line(rt: HostRuntime) {
    let mut line = LineBuffer::new();
    assert_eq!(rt; line.take(b"s "), None);
    assert_eq!(rt; line.take(b"12\r\nc"), Some(3));
    assert_eq!(rt; read_line(line.line()), Ok(Command::Steps(12)));
    line.clear();
    assert_eq!(rt; line.take(b"c"), None);
    assert_eq!(rt; read_line(line.line()), Ok(Command::Continue));
}
