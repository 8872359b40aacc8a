//! RAM as a list of bytes.

ghost use Rattle.std.specs.Prelude.{◌≡◌, ℕ, ◌+◌, ◌/◌, ◌%◌, ◌^◌, ◌≤◌, ◌<◌, length, replicate, slice_index, slice_set, IfOk};
ghost use Rattle.mdl_state.specs.Bytes.{bytes_of, bound_of, little, bytes_at, number_at, little_bytes, with_bytes};

use crate::block::{Bytes, Shell, emptied, refilled};
use mdl_state::Size;
use std::alloc::{AllocError, Global};
use std::marker::Model;

/// RAM, seen as the list of its bytes.
pub struct Ram {
    start: *mut u8,
    size: u32,
    bytes: Bytes,
    shell: Shell<Global>,
}

impl Model for Ram {
    ghost use Rattle.std.specs.Prelude.{ℕ, ◌≡◌, List, length};

    ghost Value = { List ℕ };

    ghost view = { λ ram. ram.bytes.list };

    ghost invariant = { λ ram. (ram.start ≡ ram.bytes.at) × (ram.shell.at ≡ ram.bytes.at) × (ram.shell.count ≡ length ram.bytes.list) × (ram.size ≡ length ram.bytes.list) };
}

impl Drop for Ram {
    fn drop(self) {
        let Ram {
            start: _,
            size: _,
            bytes,
            shell,
        } = self;
        drop(refilled(bytes, shell));
    }
}

impl Ram {
    /// RAM of so many bytes, all zero.
    pub fn new(alloc: Global, bytes: u32) -> Result<Ram, AllocError>
        ensures { IfOk result (λ ram. ram ≡ replicate bytes 0) }
    {
        let mut zeros = vec![in alloc; 0; bytes as usize]?;
        let start = zeros.as_mut_ptr();
        let (list, shell) = emptied(zeros);
        Ok(Ram {
            start,
            size: bytes,
            bytes: list,
            shell,
        })
    }

    /// How many bytes it has.
    pub fn size(&self) -> u32
        ensures { result ≡ length self.now }
    {
        self.size
    }

    /// The byte at an address.
    #[inline(always)]
    fn byte(&self, at: usize) -> u8
        requires { at < length self.now }
        ensures { result ≡ slice_index self.now at }
    {
        *self.bytes.get(self.start, at)
    }

    /// The number of a size at an address, little endian, at any alignment.
    pub fn load(&self, at: u32, size: Size) -> u32
        requires { at + bytes_of size ≤ length self.now }
        ensures value { result ≡ number_at self.now at size }
        ensures bound { result < bound_of size }
    {
        let at = at as usize;
        match size {
            Size::B1 => u32::from(self.byte(at)),
            Size::B2 => u32::from(u16::from_le_bytes([self.byte(at), self.byte(at + 1)])),
            Size::B4 => u32::from_le_bytes([
                self.byte(at),
                self.byte(at + 1),
                self.byte(at + 2),
                self.byte(at + 3),
            ]),
        }
    }

    /// The eight bytes from an address on, as one number, little endian, at any alignment.
    #[tactic(auto, using(crate::proofs::Eight::byte_of_eight))]
    pub fn load_eight(&self, at: u32) -> u64
        requires { at + 8 ≤ length self.now }
        ensures value { result ≡ little (bytes_at self.now at 8) }
        ensures bytes { (i : ℕ) → i < 8 → slice_index self.now (at + i) ≡ result / 256 ^ i % 256 }
    {
        let at = at as usize;
        u64::from_le_bytes([
            self.byte(at),
            self.byte(at + 1),
            self.byte(at + 2),
            self.byte(at + 3),
            self.byte(at + 4),
            self.byte(at + 5),
            self.byte(at + 6),
            self.byte(at + 7),
        ])
    }

    /// Puts the number of a size at an address, little endian, at any alignment.
    pub fn store(&mut self, at: u32, size: Size, value: u32)
        requires inside { at + bytes_of size ≤ length self.old }
        requires bound { value < bound_of size }
        ensures bytes { self.new ≡ with_bytes self.old at (little_bytes (bytes_of size) value) }
        ensures length { length self.new ≡ length self.old }
    {
        let at = at as usize;
        let start = self.start;
        let [first, second, third, fourth] = value.to_le_bytes();
        match size {
            Size::B1 => self.bytes.set(start, at, first),
            Size::B2 => {
                self.bytes.set(start, at, first);
                self.bytes.set(start, at + 1, second);
            }
            Size::B4 => {
                self.bytes.set(start, at, first);
                self.bytes.set(start, at + 1, second);
                self.bytes.set(start, at + 2, third);
                self.bytes.set(start, at + 3, fourth);
            }
        }
    }
}
