//! The keyboard controller: its state, and what its ports read.

ghost use Rattle.std.specs.Prelude.{◌≡◌, IsTrue};
ghost use Rattle.mdl_dev.specs.Keyboard.{boot_keyboard, is_keyboard_port, has, is_a20_on, front, raises};
ghost use Rattle.mdl_dev.specs.Keyboard.{status_of, without_front, data_of, input_byte, input_line, after_input};

use arrayvec::ArrayVec;
use mdl_dev::keyboard::{
    A20_GATE, Awaited, BOOT_COMMAND_BYTE, BOOT_OUTPUT_PORT, COMMAND_LAST, DATA_PORT, INTERRUPT,
    KEYBOARD_OFF, OUTPUT_FULL, QUEUE, SYSTEM_FLAG, UNLOCKED,
};
use std::marker::Model;

/// The bytes of the keyboard that wait, the oldest first.
pub(crate) type Queue = ArrayVec<u8, QUEUE>;

/// The keyboard controller, and the bytes of the keyboard that wait in it.
///
/// An 8042 as in the PC/AT. Its ports are 60h and 64h, of one byte each. Its line is line 1 of the
/// interrupt controllers, and bit 1 of its output port is the line A20.
#[derive(Drop)]
pub struct Kbd {
    pub(crate) command_byte: u8,
    pub(crate) output_port: u8,
    pub(crate) awaited: Awaited,
    pub(crate) command_last: bool,
    pub(crate) given: u8,
    pub(crate) replies: bool,
    pub(crate) reply: u8,
    pub(crate) queue: Queue,
}

impl Model for Kbd {
    ghost use Rattle.mdl_dev.specs.Keyboard.{Keyboard};

    ghost Value = { Keyboard };

    ghost view = { λ k. record { command_byte = k.command_byte; output_port = k.output_port; awaited = k.awaited; command_last = k.command_last; given = k.given; replies = k.replies; reply = k.reply; queue = k.queue.items } };
}

/// Whether a bit of a byte is 1.
pub(crate) fn has(byte: u8, bit: u8) -> bool
    ensures { result ≡ has byte bit }
{
    byte & bit != 0
}

impl Kbd {
    /// The controller at boot: its test passed, its line on, A20 on, and nothing there.
    pub fn new() -> Kbd
        ensures { result ≡ boot_keyboard }
    {
        Kbd {
            command_byte: BOOT_COMMAND_BYTE,
            output_port: BOOT_OUTPUT_PORT,
            awaited: Awaited::Nothing,
            command_last: false,
            given: 0,
            replies: false,
            reply: 0,
            queue: Queue::new(),
        }
    }

    /// Whether the line A20 is on.
    pub fn a20(&self) -> bool
        ensures { result ≡ is_a20_on self.now }
    {
        has(self.output_port, A20_GATE)
    }

    /// The byte that a read takes.
    pub(crate) fn front(&self) -> Option<u8>
        ensures { result ≡ front self.now }
    {
        if self.replies {
            return Some(self.reply);
        }
        if has(self.command_byte, KEYBOARD_OFF) {
            return None;
        }
        self.queue.as_slice().first().copied()
    }

    /// Whether a byte that comes to the front now raises the line.
    pub(crate) fn raises(&self) -> bool
        ensures { result ≡ raises self.now }
    {
        self.front().is_some() && has(self.command_byte, INTERRUPT)
    }

    fn status(&self) -> u8
        ensures { result ≡ status_of self.now }
    {
        let full = if self.front().is_some() {
            OUTPUT_FULL
        } else {
            0
        };
        let last = if self.command_last { COMMAND_LAST } else { 0 };
        full | self.command_byte & SYSTEM_FLAG | last | UNLOCKED
    }

    fn take_front(&mut self)
        ensures { self.new ≡ without_front self.old }
    {
        if self.replies {
            self.replies = false;
            return;
        }
        if !has(self.command_byte, KEYBOARD_OFF) && !self.queue.is_empty() {
            self.queue.remove(0);
        }
    }

    /// A read of one of its ports: the byte, and whether the line was raised.
    ///
    /// Port 60h takes the byte at the front, or repeats the last one that it gave; where another
    /// byte then comes to the front, the line may rise. Port 64h gives the status and changes
    /// nothing.
    pub fn input(&mut self, port: u16) -> (u8, bool)
        requires { IsTrue (is_keyboard_port port) }
        ensures byte { result.0 ≡ input_byte self.old port }
        ensures line { result.1 ≡ input_line self.old port }
        ensures state { self.new ≡ after_input self.old port }
    {
        if port != DATA_PORT {
            return (self.status(), false);
        }
        let Some(byte) = self.front() else {
            return (self.given, false);
        };
        self.take_front();
        self.given = byte;
        (byte, self.raises())
    }
}
