//! The demo guest: a ROM of instructions that a number chooses.

ghost use Rattle.std.specs.Prelude.{◌≡◌, ◌<◌, ◌++◌, ◌-◌, ◌+◌, ◌≤◌, length, IfOk, OnOk};
ghost use Rattle.mdl_text.specs.Demo as demo;
ghost use Rattle.mdl_text.specs.Demo.{Demo, item_of_kind, items, set_up, jump_back};

use crate::draws::{after_draw, drawn};
use std::alloc::{AllocError, Global};

/// How many items the code has.
const ITEMS: u32 = 8192;

/// The bytes of the ROM.
const ROM_BYTES: usize = 0x10000;

/// The place in the ROM where the processor begins.
const ENTRY: usize = 0xFFF0;

const HLT: u8 = 0xF4;

/// XOR AX,AX; MOV DS,AX; MOV SS,AX; MOV SP,7000h; MOV AX,B800h; MOV ES,AX.
const SET_UP: [u8; 14] = [
    0x31, 0xC0, 0x8E, 0xD8, 0x8E, 0xD0, 0xBC, 0x00, 0x70, 0xB8, 0x00, 0xB8, 0x8E, 0xC0,
];

/// JMP F000h:0000h.
const FIRST_JUMP: [u8; 5] = [0xEA, 0x00, 0x00, 0x00, 0xF0];

/// The bytes of a near jump.
const JUMP_BYTES: usize = 3;

/// A register by its number, where that of SP stands for AX.
fn register(number: u16) -> u8
    ensures value { result ≡ demo.register number }
    ensures range { result < 8 }
{
    let register = (number % 8) as u8;
    if register == 4 { 0 } else { register }
}

/// Adds an item: arithmetic with an immediate, or with two registers; a store or a load of AX; a push
/// and a pop; a rotation; a copy of bytes; a byte for the screen memory.
#[rattlefmt::skip]
fn push_item(rom: &mut Vec<u8>, kind: u16, second: u16, third: u16) -> Result<(), AllocError>
    ensures { OnOk result (rom.new.items ≡ rom.old.items ++ item_of_kind kind second third) }
{
    let operation = (second / 64 % 8) as u8;
    let low = register(second);
    let high = register(second / 8);
    let [byte, page] = third.to_le_bytes();
    match kind {
        0 => rom.extend_from_slice(&[0x81, 0xC0 + 8 * operation + low, byte, page]),
        1 => rom.extend_from_slice(&[0x01 + 8 * operation, 0xC0 + 8 * high + low]),
        2 => rom.extend_from_slice(&[0xA3, byte, 0x10 + page % 16]),
        3 => rom.extend_from_slice(&[0xA1, byte, 0x10 + page % 16]),
        4 => rom.extend_from_slice(&[0x50 + low, 0x58 + high]),
        5 => rom.extend_from_slice(&[0xD1, 0xC0 + 8 * (operation % 4) + low]),
        6 => rom.extend_from_slice(&[0xB9, (third % 64) as u8, 0x00, 0xF3, 0xA4]),
        _ => rom.extend_from_slice(&[0x26, 0xC6, 0x06, byte, page % 16, 0x20 + (second % 95) as u8]),
    }
}

/// Adds so many items, drawn from a number.
fn push_items(rom: &mut Vec<u8>, count: u32, number: u32) -> Result<(), AllocError>
    ensures { OnOk result (rom.new.items ≡ rom.old.items ++ items count number) }
{
    let mut number = number;
    for _ in 0..count {
        let first = after_draw(number);
        let second = after_draw(first);
        let third = after_draw(second);
        push_item(rom, drawn(first) % 8, drawn(second), drawn(third))?;
        number = third;
    }
    Ok(())
}

/// Adds the jump back over so many bytes, and over itself.
fn push_jump(rom: &mut Vec<u8>, bytes: usize) -> Result<(), AllocError>
    requires { bytes + 3 < 65536 }
    ensures { OnOk result (rom.new.items ≡ rom.old.items ++ jump_back bytes) }
{
    let distance = (ROM_BYTES - (bytes + JUMP_BYTES)) as u16;
    let [low, high] = distance.to_le_bytes();
    rom.extend_from_slice(&[0xE9, low, high])
}

/// The code of a number: what sets up, the items, and the jump back to the first of them.
fn code_of(alloc: Global, number: u32) -> Result<Vec<u8>, AllocError>
    ensures { IfOk result (λ code. code.items ≡ demo.code_of (items 8192 number)) }
{
    let mut code = Vec::with_capacity(alloc, ROM_BYTES)?;
    code.extend_from_slice(&SET_UP)?;
    push_items(&mut code, ITEMS, number)?;
    let bytes = code.len() - SET_UP.len();
    push_jump(&mut code, bytes)?;
    Ok(code)
}

/// The demo guest of a number.
pub fn make_guest(alloc: Global, number: u32) -> Result<Vec<u8>, AllocError>
    ensures rom { IfOk result (λ rom. rom.items ≡ Demo number) }
    ensures size { IfOk result (λ rom. length rom.items ≡ 65536) }
{
    let mut rom = code_of(alloc, number)?;
    rom.resize(ENTRY, HLT)?;
    rom.extend_from_slice(&FIRST_JUMP)?;
    rom.resize(ROM_BYTES, HLT)?;
    Ok(rom)
}
