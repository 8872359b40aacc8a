//! An output of a host in memory.

ghost use Rattle.std.specs.Prelude.{◌≡◌, [], ◌+◌, ◌-◌, ◌≤◌, ◌++◌, min, max, length, take, vec_len, vec_capacity, OnOk, OnErr};

use crate::history::History;
use std::alloc::{AllocError, Global};

/// An output: the bytes that it took, and how many more it takes.
#[derive(Drop)]
pub struct Output {
    pub history: History,
    pub bytes: Vec<u8>,
    pub room: usize,
    ghost has_room: { vec_len bytes + room ≤ vec_capacity bytes },
}

impl Output {
    ghost use Rattle.host_io.specs.History.{IsUnused};

    /// An output with no room.
    pub fn new(alloc: Global) -> Output
        ensures history { IsUnused result.history }
        ensures bytes { result.bytes.items ≡ [] }
        ensures room { result.room ≡ 0 }
    {
        Output {
            history: History::new(),
            bytes: Vec::new(alloc),
            room: 0,
        }
    }

    /// Takes the first bytes of a piece, as many as there is room for.
    pub fn write(&mut self, bytes: &[u8]) -> usize
        ensures count { result ≡ min (length bytes.now) self.old.room }
        ensures bytes { self.new.bytes.items ≡ self.old.bytes.items ++ take result bytes.now }
        ensures room { self.new.room ≡ self.old.room - result }
        ensures history { self.new.history ≡ self.old.history }
    {
        // The room was made before, so this takes no memory and cannot fail.
        let count = bytes.len().min(self.room);
        if self.bytes.extend_from_slice(&bytes[..count]).is_err() {
            return 0;
        }
        self.room -= count;
        count
    }

    /// Makes room for so many bytes, where there is not yet room for more.
    pub fn make_room(&mut self, bytes: usize) -> Result<(), AllocError>
        ensures ok { OnOk result (self.new.room ≡ max self.old.room bytes) }
        ensures err { OnErr result (self.new.room ≡ self.old.room) }
        ensures bytes { self.new.bytes.items ≡ self.old.bytes.items }
        ensures history { self.new.history ≡ self.old.history }
    {
        self.bytes.reserve_exact(bytes)?;
        self.room = self.room.max(bytes);
        Ok(())
    }
}
