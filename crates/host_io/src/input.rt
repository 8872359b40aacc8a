//! An input of a host in memory.

ghost use Rattle.std.specs.Prelude.{◌≡◌, ◌≤◌, ◌++◌, min, length, take, vec_len};

use crate::history::History;
use std::alloc::Global;

/// An input: its bytes, how many of them were read, and whether it was put.
#[derive(Drop)]
pub struct Input {
    pub history: History,
    pub is_put: bool,
    pub bytes: Vec<u8>,
    pub at: usize,
    ghost within: { at ≤ vec_len bytes },
}

impl Input {
    ghost use Rattle.std.specs.Prelude.{[], true, false};
    ghost use Rattle.host_io.specs.Inputs.{bytes_left};
    ghost use Rattle.host_io.specs.History.{IsUnused};

    /// An input that was not put.
    pub fn new(alloc: Global) -> Input
        ensures history { IsUnused result.history }
        ensures is_put { result.is_put ≡ false }
        ensures left { bytes_left result ≡ [] }
    {
        Input {
            history: History::new(),
            is_put: false,
            bytes: Vec::new(alloc),
            at: 0,
        }
    }

    /// Puts these bytes in place of the old ones.
    pub fn put(&mut self, bytes: Vec<u8>)
        ensures left { bytes_left self.new ≡ bytes.items }
        ensures is_put { self.new.is_put ≡ true }
        ensures history { self.new.history ≡ self.old.history }
    {
        self.at = 0;
        self.bytes = bytes;
        self.is_put = true;
    }

    /// Reads what is left into a buffer, as far as it has room.
    pub fn read(&mut self, buffer: &mut [u8]) -> usize
        ensures count { result ≡ min (length buffer.old) (length (bytes_left self.old)) }
        ensures bytes { bytes_left self.old ≡ take result buffer.new ++ bytes_left self.new }
        ensures history { self.new.history ≡ self.old.history }
        ensures is_put { self.new.is_put ≡ self.old.is_put }
    {
        let count = buffer.len().min(self.bytes.len() - self.at);
        buffer[..count].copy_from_slice(&self.bytes[self.at..self.at + count]);
        self.at += count;
        count
    }
}
