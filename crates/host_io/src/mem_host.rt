//! A host in memory, whose calls can be made to fail.

ghost use Rattle.std.specs.Prelude.{◌≡◌, ◌<◌, ◌≤◌, ◌-◌, ◌++◌, ◌∷◌, ◌||◌, ◌==◌, [], Some, true, not, nat_lt, min, max, length, take, is_err, IfOk, OnOk, OnErr};
ghost use Rattle.std.specs.Borrow.{sem};
ghost use Rattle.host_io.specs.Causes.{HasCause, count_after};
ghost use Rattle.host_io.specs.Openings.{opened_once};
ghost use Rattle.host_io.specs.MemHost.{IsNew, IsNextCall, LendsInput, LendsOutput, SameEnds, SameHistory, SamePlan, faults_of, input_of, is_listed, left_of, listed_of, next_call, output_of, openings_of, piece_of, promise_of, room_of, took_of, was_put};
ghost use Rattle.host_io.specs.Slots.{Same, SameBut};

use crate::host::{Failed, Host, InSlot, OutSlot, Slot};
use crate::input::Input;
use crate::output::Output;
use std::alloc::{AllocError, Global};
use std::num::NonZeroU32;

/// A host in memory.
///
/// Its inputs are the bytes that were put, and its outputs take as many bytes as room was made for.
/// The calls of `Host` are numbered from 1, and those that are listed fail.
#[derive(Drop)]
pub struct MemHost {
    rom: Input,
    disk: Input,
    script: Input,
    commands: Input,
    report: Output,
    mem: Output,
    save: Output,
    calls: u64,
    failing: Vec<u64>,
    piece: NonZeroU32,
}

impl MemHost {
    /// A host with nothing put, no room and no call listed, which hands over pieces of up to
    /// `u32::MAX` bytes.
    pub fn new(alloc: Global) -> MemHost
        ensures { IsNew result }
    {
        MemHost {
            rom: Input::new(alloc),
            disk: Input::new(alloc),
            script: Input::new(alloc),
            commands: Input::new(alloc),
            report: Output::new(alloc),
            mem: Output::new(alloc),
            save: Output::new(alloc),
            calls: 0,
            failing: Vec::new(alloc),
            piece: NonZeroU32::MAX,
        }
    }

    /// Puts the bytes of an input, in place of those that it had.
    pub fn put(&mut self, slot: InSlot, bytes: Vec<u8>)
        ensures left { left_of self.new slot ≡ bytes.items }
        ensures put { was_put self.new slot ≡ true }
        ensures lefts { SameBut slot (left_of self.old) (left_of self.new) }
        ensures puts { SameBut slot (was_put self.old) (was_put self.new) }
        ensures room { Same (room_of self.old) (room_of self.new) }
        ensures history { SameHistory self.old self.new }
        ensures plan { SamePlan self.old self.new }
    {
        self.input(slot).put(bytes);
    }

    /// Makes room in an output for so many more bytes, where there is not yet room for more.
    pub fn make_room(&mut self, slot: OutSlot, bytes: u32) -> Result<(), AllocError>
        ensures ok { OnOk result (room_of self.new slot ≡ max (room_of self.old slot) bytes) }
        ensures err { OnErr result (room_of self.new slot ≡ room_of self.old slot) }
        ensures rooms { SameBut slot (room_of self.old) (room_of self.new) }
        ensures left { Same (left_of self.old) (left_of self.new) }
        ensures put { Same (was_put self.old) (was_put self.new) }
        ensures history { SameHistory self.old self.new }
        ensures plan { SamePlan self.old self.new }
    {
        self.output(slot).make_room(bytes as usize)
    }

    /// Lists a call of `Host` as failing, by its number from 1 on.
    pub fn fail_at(&mut self, call: u64) -> Result<(), AllocError>
        ensures ok { OnOk result (listed_of self.new ≡ listed_of self.old ++ call ∷ []) }
        ensures err { OnErr result (listed_of self.new ≡ listed_of self.old) }
        ensures piece { piece_of self.new ≡ piece_of self.old }
        ensures ends { SameEnds self.old self.new }
        ensures history { SameHistory self.old self.new }
    {
        self.failing.push(call)?;
        Ok(())
    }

    /// Sets how many bytes a read or a write hands over at most.
    pub fn set_piece(&mut self, most: u32)
        requires { 1 ≤ most }
        ensures piece { piece_of self.new ≡ most }
        ensures listed { listed_of self.new ≡ listed_of self.old }
        ensures ends { SameEnds self.old self.new }
        ensures history { SameHistory self.old self.new }
    {
        if let Some(piece) = NonZeroU32::new(most) {
            self.piece = piece;
        }
    }

    /// What an output took.
    pub fn taken(&self, slot: OutSlot) -> &[u8]
        ensures { result.now ≡ took_of self.now slot }
    {
        match slot {
            OutSlot::Report => self.report.bytes.as_slice(),
            OutSlot::Mem => self.mem.bytes.as_slice(),
            OutSlot::Save => self.save.bytes.as_slice(),
        }
    }

    fn input(&mut self, slot: InSlot) -> &mut Input
        ensures* lends { sem 𝓛 (LendsInput self.entry slot result) }
        ensures value { result.now ≡ input_of self.old slot }
    {
        match slot {
            InSlot::Rom => &mut self.rom,
            InSlot::Disk => &mut self.disk,
            InSlot::Script => &mut self.script,
            InSlot::Commands => &mut self.commands,
        }
    }

    fn output(&mut self, slot: OutSlot) -> &mut Output
        ensures* lends { sem 𝓛 (LendsOutput self.entry slot result) }
        ensures value { result.now ≡ output_of self.old slot }
    {
        match slot {
            OutSlot::Report => &mut self.report,
            OutSlot::Mem => &mut self.mem,
            OutSlot::Save => &mut self.save,
        }
    }

    /// Counts a call of `Host`, and answers whether it is listed.
    fn count_call(&mut self) -> bool
        ensures listed { result ≡ is_listed self.old }
        ensures counted { self.new ≡ record self.old { calls = next_call self.old } }
    {
        self.calls = self.calls.saturating_add(1);
        self.failing.contains(&self.calls)
    }
}

impl Host for MemHost {
    ghost left = { λ h slot. Some (left_of h slot) };

    ghost took = { λ h slot. Some (took_of h slot) };

    ghost path = { λ h slot. Some (openings_of h slot) };

    ghost faults = { faults_of };

    ghost promise = { promise_of };

    fn open_in(&mut self, slot: InSlot, name: &str) -> Result<(), Failed>
        ensures fails { is_err result ≡ (is_listed self.old || not (was_put self.old slot) || nat_lt 255 (length name.now)) }
        ensures opened { OnOk result (openings_of self.new (Slot.In slot) ≡ opened_once (openings_of self.old (Slot.In slot)) name.now) }
        ensures kept { OnErr result (openings_of self.new (Slot.In slot) ≡ openings_of self.old (Slot.In slot)) }
        ensures paths { SameBut (Slot.In slot) (openings_of self.old) (openings_of self.new) }
        ensures left { Same (left_of self.old) (left_of self.new) }
        ensures took { Same (took_of self.old) (took_of self.new) }
        ensures room { Same (room_of self.old) (room_of self.new) }
        ensures faults { faults_of self.new (Slot.In slot) ≡ count_after (faults_of self.old (Slot.In slot)) result }
        ensures cause { HasCause (faults_of self.old) (faults_of self.new) (Slot.In slot) result }
        ensures next { IsNextCall self.old self.new }
    {
        let is_listed = self.count_call();
        let input = self.input(slot);
        if is_listed || !input.is_put {
            return Err(input.history.failed());
        }
        input.history.open(name)
    }

    fn read(&mut self, slot: InSlot, buffer: &mut [u8]) -> Result<usize, Failed>
        ensures fails { is_err result ≡ is_listed self.old }
        ensures count { IfOk result (λ n. n ≡ min (min (length buffer.old) (piece_of self.old)) (length (left_of self.old slot))) }
        ensures bytes { IfOk result (λ n. left_of self.old slot ≡ take n buffer.new ++ left_of self.new slot) }
        ensures end { IfOk result (λ n. n ≡ 0 → 0 < length buffer.new → left_of self.new slot ≡ []) }
        ensures kept { OnErr result (left_of self.new slot ≡ left_of self.old slot) }
        ensures lefts { SameBut slot (left_of self.old) (left_of self.new) }
        ensures took { Same (took_of self.old) (took_of self.new) }
        ensures room { Same (room_of self.old) (room_of self.new) }
        ensures paths { Same (openings_of self.old) (openings_of self.new) }
        ensures faults { faults_of self.new (Slot.In slot) ≡ count_after (faults_of self.old (Slot.In slot)) result }
        ensures cause { HasCause (faults_of self.old) (faults_of self.new) (Slot.In slot) result }
        ensures next { IsNextCall self.old self.new }
    {
        let is_listed = self.count_call();
        let most = buffer.len().min(self.piece.get() as usize);
        let input = self.input(slot);
        if is_listed {
            return Err(input.history.failed());
        }
        Ok(input.read(&mut buffer[..most]))
    }

    fn open_out(&mut self, slot: OutSlot, name: &str) -> Result<(), Failed>
        ensures fails { is_err result ≡ (is_listed self.old || nat_lt 255 (length name.now)) }
        ensures opened { OnOk result (openings_of self.new (Slot.Out slot) ≡ opened_once (openings_of self.old (Slot.Out slot)) name.now) }
        ensures kept { OnErr result (openings_of self.new (Slot.Out slot) ≡ openings_of self.old (Slot.Out slot)) }
        ensures paths { SameBut (Slot.Out slot) (openings_of self.old) (openings_of self.new) }
        ensures left { Same (left_of self.old) (left_of self.new) }
        ensures took { Same (took_of self.old) (took_of self.new) }
        ensures room { Same (room_of self.old) (room_of self.new) }
        ensures faults { faults_of self.new (Slot.Out slot) ≡ count_after (faults_of self.old (Slot.Out slot)) result }
        ensures cause { HasCause (faults_of self.old) (faults_of self.new) (Slot.Out slot) result }
        ensures next { IsNextCall self.old self.new }
    {
        let is_listed = self.count_call();
        let output = self.output(slot);
        if is_listed {
            return Err(output.history.failed());
        }
        output.history.open(name)
    }

    fn write(&mut self, slot: OutSlot, bytes: &[u8]) -> Result<usize, Failed>
        ensures fails { is_err result ≡ (is_listed self.old || (room_of self.old slot == 0)) }
        ensures count { IfOk result (λ n. n ≡ min (min (length bytes.now) (piece_of self.old)) (room_of self.old slot)) }
        ensures some { 0 < length bytes.now → IfOk result (λ n. 0 < n) }
        ensures bytes { IfOk result (λ n. took_of self.new slot ≡ took_of self.old slot ++ take n bytes.now) }
        ensures room { IfOk result (λ n. room_of self.new slot ≡ room_of self.old slot - n) }
        ensures kept { OnErr result (took_of self.new slot ≡ took_of self.old slot) }
        ensures kept_room { OnErr result (room_of self.new slot ≡ room_of self.old slot) }
        ensures tooks { SameBut slot (took_of self.old) (took_of self.new) }
        ensures rooms { SameBut slot (room_of self.old) (room_of self.new) }
        ensures left { Same (left_of self.old) (left_of self.new) }
        ensures paths { Same (openings_of self.old) (openings_of self.new) }
        ensures faults { faults_of self.new (Slot.Out slot) ≡ count_after (faults_of self.old (Slot.Out slot)) result }
        ensures cause { HasCause (faults_of self.old) (faults_of self.new) (Slot.Out slot) result }
        ensures next { IsNextCall self.old self.new }
    {
        let is_listed = self.count_call();
        let most = bytes.len().min(self.piece.get() as usize);
        let output = self.output(slot);
        if is_listed || output.room == 0 {
            return Err(output.history.failed());
        }
        Ok(output.write(&bytes[..most]))
    }
}
