//! The screen registers.

ghost use Rattle.std.specs.Prelude.{◌≡◌, IsTrue, IfSome, IsSome};
ghost use Rattle.mdl_dev.specs.Screen.{boot_screen, is_screen_port, register_of, with_register, screen_input, screen_output, screen_image};
ghost use Rattle.mdl_dev.specs.Screen as written;

use mdl_dev::screen::{CURSOR_HIGH, CURSOR_LOW, INDEX_PORT, START_HIGH, START_LOW};
use std::marker::Model;

/// The screen registers: the index, and the four of a 6845's that are kept.
///
/// The ports are 3D4h and 3D5h, of one byte each.
#[derive(Drop)]
pub struct Screen {
    index: u8,
    start_high: u8,
    start_low: u8,
    cursor_high: u8,
    cursor_low: u8,
}

impl Model for Screen {
    ghost use Rattle.mdl_dev.specs.Screen.{Screen as Registers};

    ghost Value = { Registers };

    ghost view = { λ s. record { index = s.index; start_high = s.start_high; start_low = s.start_low; cursor_high = s.cursor_high; cursor_low = s.cursor_low } };
}

impl Screen {
    /// The registers at boot, all 0.
    pub fn new() -> Screen
        ensures { result ≡ boot_screen }
    {
        Screen {
            index: 0,
            start_high: 0,
            start_low: 0,
            cursor_high: 0,
            cursor_low: 0,
        }
    }

    /// The register of a number. One that is not kept reads 0.
    pub fn register(&self, number: u8) -> u8
        ensures { result ≡ register_of self.now number }
    {
        match number {
            START_HIGH => self.start_high,
            START_LOW => self.start_low,
            CURSOR_HIGH => self.cursor_high,
            CURSOR_LOW => self.cursor_low,
            _ => 0,
        }
    }

    fn set_register(&mut self, number: u8, value: u8)
        ensures { self.new ≡ with_register self.old number value }
    {
        match number {
            START_HIGH => self.start_high = value,
            START_LOW => self.start_low = value,
            CURSOR_HIGH => self.cursor_high = value,
            CURSOR_LOW => self.cursor_low = value,
            _ => {}
        }
    }

    /// A read of one of its ports: port 3D4h gives the index as it was written, port 3D5h the
    /// register that it chooses.
    pub fn input(&self, port: u16) -> u8
        requires { IsTrue (is_screen_port port) }
        ensures { result ≡ screen_input self.now port }
    {
        if port == INDEX_PORT {
            self.index
        } else {
            self.register(self.index)
        }
    }

    /// A write to one of its ports: port 3D4h takes the index, port 3D5h a byte for the register
    /// that it chooses, which is lost where that one is not kept.
    pub fn output(&mut self, port: u16, value: u8)
        requires { IsTrue (is_screen_port port) }
        ensures { self.new ≡ screen_output self.old port value }
    {
        if port == INDEX_PORT {
            self.index = value;
        } else {
            self.set_register(self.index, value);
        }
    }

    /// The registers as bytes: the index, then registers 0Ch to 0Fh.
    pub fn image(&self) -> [u8; 5]
        ensures { result ≡ screen_image self.now }
    {
        [
            self.index,
            self.start_high,
            self.start_low,
            self.cursor_high,
            self.cursor_low,
        ]
    }

    /// The registers that have this image. Every five bytes are one.
    pub fn from_image(image: &[u8; 5]) -> Option<Screen>
        ensures some { IsSome result }
        ensures image { IfSome result (λ s. screen_image s ≡ image.now) }
        ensures same { (s : written.Screen) → screen_image s ≡ image.now → result ≡ Some s }
    {
        let [index, start_high, start_low, cursor_high, cursor_low] = *image;
        Some(Screen {
            index,
            start_high,
            start_low,
            cursor_high,
            cursor_low,
        })
    }
}
