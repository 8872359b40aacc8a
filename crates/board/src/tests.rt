//! What a guest sees of the board, by values that are worked out by hand.

ghost use Rattle.std.specs.Prelude.{◌≡◌, ◌*◌, length, IfOk};
ghost use Rattle.mdl_dev.specs.Disk.{IsDiskLength};

use crate::Board;
use mdl_state::Size;
use mem_iface::Ports;
use std::alloc::{AllocError, Global};
use std::test::Fail;

/// What is done to the board, and what it answers.
#[derive(Clone, Copy)]
enum Act {
    Out(u16, u8),
    In(u16, u8),
    OutWide(u16, Size, u32),
    InWide(u16, Size, u32),
    Key(u8),
    Pulses(u32),
    Reset,
    /// The vector of the interrupt that is then taken.
    Takes(Option<u8>),
    A20(bool),
    /// Whether a reset was asked for, which then no longer is.
    Asks(bool),
    Crt(u8, u8),
    /// A byte of the disk.
    Byte(u32, u8),
}

use Act::{A20, Asks, Byte, Crt, In, InWide, Key, Out, OutWide, Pulses, Reset, Takes};

/// What a PC's firmware writes: vectors 08h and 70h, and an end of interrupt for each line.
const INITIALIZED: [Act; 8] = [
    Out(0x20, 0x11),
    Out(0x21, 0x08),
    Out(0x21, 0x04),
    Out(0x21, 0x01),
    Out(0xA0, 0x11),
    Out(0xA1, 0x70),
    Out(0xA1, 0x02),
    Out(0xA1, 0x01),
];

/// A board with a disk of one sector, whose bytes count from 0.
fn board(alloc: Global) -> Result<Board, AllocError> {
    let mut bytes = vec![in alloc; 0; 512]?;
    for at in 0..512usize {
        bytes[at] = (at % 256) as u8;
    }
    Ok(Board::new(bytes))
}

/// The vector of the interrupt that is asked for, which is then in service.
fn taken(board: &mut Board) -> Option<u8> {
    if board.wants_interrupt() {
        Some(board.acknowledge())
    } else {
        None
    }
}

/// A byte of the disk, if it has it.
fn byte(board: &Board, at: u32) -> Option<u8> {
    if at < board.disk_len() {
        Some(board.disk_byte(at))
    } else {
        None
    }
}

/// Does something to the board.
fn perform(board: &mut Board, act: Act) {
    match act {
        Out(port, byte) => board.output(port, Size::B1, u32::from(byte)),
        OutWide(port, size, value) => board.output(port, size, value),
        Key(byte) => board.key(byte),
        Pulses(n) => board.pulses(n),
        Reset => board.reset(),
        _ => {}
    }
}

/// Whether the board answers so.
fn answers(board: &mut Board, asked: Act) -> bool {
    match asked {
        In(port, byte) => board.input(port, Size::B1) == u32::from(byte),
        InWide(port, size, value) => board.input(port, size) == value,
        Takes(vector) => taken(board) == vector,
        A20(on) => board.a20() == on,
        Asks(asks) => board.take_reset() == asks,
        Crt(number, value) => board.crt(number) == value,
        Byte(at, value) => byte(board, at) == Some(value),
        _ => true,
    }
}

/// The first of these that is answered otherwise.
fn first_wrong(board: &mut Board, acts: &[Act]) -> Option<usize> {
    for (at, &step) in acts.iter().enumerate() {
        perform(board, step);
        if !answers(board, step) {
            return Some(at);
        }
    }
    None
}

// A diagnosis raises the disk's line. Two ends of interrupt are wanted, one for each chip.
#[test]
fn line_14_goes_to_the_second_chip(rt: HostRuntime) -> Result<(), Fail> {
    let mut board = board(rt.alloc())?;
    first_wrong(&mut board, &INITIALIZED);
    let acts = [
        Out(0x1F7, 0x90),
        Takes(Some(0x76)),
        Out(0x20, 0x0B),
        Out(0xA0, 0x0B),
        In(0x20, 0x04),
        In(0xA0, 0x40),
        Out(0x20, 0x20),
        In(0x20, 0x00),
        In(0xA0, 0x40),
        Key(0x1E),
        Takes(Some(0x09)),
    ];
    assert_eq!(rt; first_wrong(&mut board, &acts), None);
    Ok(())
}

// Mode 0 leaves OUT low and mode 2 high. With a count of 2, OUT rises at every second pulse behind
// the one that loads.
#[test]
fn the_timer_raises_its_line_by_pulses_alone(rt: HostRuntime) -> Result<(), Fail> {
    let mut board = board(rt.alloc())?;
    first_wrong(&mut board, &INITIALIZED);
    let acts = [
        Out(0x43, 0x30),
        Out(0x43, 0x34),
        In(0x20, 0x00),
        Out(0x40, 0x02),
        Out(0x40, 0x00),
        Pulses(2),
        Takes(None),
        Pulses(1),
        Takes(Some(0x08)),
        Out(0x20, 0x20),
        Takes(None),
        Pulses(4),
        Takes(Some(0x08)),
        Out(0x20, 0x20),
        Takes(None),
    ];
    assert_eq!(rt; first_wrong(&mut board, &acts), None);
    Ok(())
}

// The disk's data port gives as many bytes of its block as the size has; through another port it
// gives one. 1F1h is the error register, which has 1.
#[test]
fn a_word_at_the_data_port_is_one_access(rt: HostRuntime) -> Result<(), Fail> {
    let mut board = board(rt.alloc())?;
    let acts = [
        InWide(0x1F0, Size::B2, 0xFFFF),
        Out(0x1F2, 0x01),
        OutWide(0x1F3, Size::B4, 0xE000_0000),
        Out(0x1F7, 0x20),
        InWide(0x1F0, Size::B2, 0x0100),
        InWide(0x1EF, Size::B2, 0x02FF),
        InWide(0x1F0, Size::B4, 0x0605_0403),
        InWide(0x1EE, Size::B4, 0x0107_FFFF),
        In(0x1F0, 0x08),
        Byte(511, 0xFF),
    ];
    assert_eq!(rt; first_wrong(&mut board, &acts), None);
    Ok(())
}

// Index and register; a key and port 61h; a poll and the mask. No device is at FFFFh.
#[test]
fn a_word_is_two_bytes_in_order(rt: HostRuntime) -> Result<(), Fail> {
    let mut board = board(rt.alloc())?;
    first_wrong(&mut board, &INITIALIZED);
    let acts = [
        OutWide(0x3D4, Size::B2, 0x120E),
        Crt(0x0E, 0x12),
        InWide(0x3D4, Size::B2, 0x120E),
        Key(0x1E),
        Out(0x61, 0x03),
        InWide(0x60, Size::B2, 0x031E),
        OutWide(0x20, Size::B2, 0xFD0C),
        InWide(0x20, Size::B2, 0xFD81),
        InWide(0xFFFF, Size::B4, 0xFFFF_FFFF),
    ];
    assert_eq!(rt; first_wrong(&mut board, &acts), None);
    Ok(())
}

// Counter 2 in mode 2 with a count of 2: OUT 2 is low behind two pulses, and high when its gate
// falls. A control word makes OUT 1 high.
#[test]
fn port_61h_sets_the_gate_at_once_and_shows_the_outputs(rt: HostRuntime) -> Result<(), Fail> {
    let mut board = board(rt.alloc())?;
    let acts = [
        Out(0x43, 0xB4),
        In(0x61, 0x20),
        Out(0x42, 0x02),
        Out(0x42, 0x00),
        Out(0x61, 0x03),
        Pulses(2),
        In(0x61, 0x03),
        Out(0x61, 0x02),
        In(0x61, 0x22),
        Out(0x43, 0x74),
        Out(0x61, 0xFF),
        In(0x61, 0x33),
    ];
    assert_eq!(rt; first_wrong(&mut board, &acts), None);
    Ok(())
}

// The output port 00h: a reset is asked for, and A20 is off.
#[test]
fn d1h_00h_asks_for_a_reset_and_turns_a20_off(rt: HostRuntime) -> Result<(), Fail> {
    let mut board = board(rt.alloc())?;
    let acts = [
        A20(true),
        Out(0x64, 0xD1),
        Out(0x60, 0x00),
        A20(false),
        Asks(true),
        Asks(false),
        A20(false),
        Out(0x64, 0xFE),
        Asks(true),
    ];
    assert_eq!(rt; first_wrong(&mut board, &acts), None);
    Ok(())
}

#[test]
fn a_reset_puts_the_chips_at_boot(rt: HostRuntime) -> Result<(), Fail> {
    let mut board = board(rt.alloc())?;
    first_wrong(&mut board, &INITIALIZED);
    let acts = [
        Out(0x21, 0xFD),
        Out(0x43, 0xB4),
        Out(0x61, 0x03),
        Key(0x1E),
        Out(0x64, 0xD1),
        Out(0x60, 0x00),
        OutWide(0x3D4, Size::B2, 0x120E),
        OutWide(0x1F6, Size::B2, 0x2040),
        Reset,
        Takes(None),
        In(0x21, 0x00),
        In(0x61, 0x00),
        In(0x64, 0x14),
        A20(true),
        Asks(false),
        In(0x3D4, 0x00),
        Crt(0x0E, 0x00),
        In(0x1F7, 0x50),
        Byte(3, 0x03),
    ];
    assert_eq!(rt; first_wrong(&mut board, &acts), None);
    Ok(())
}
