//! Memory by linear addresses.

ghost use Rattle.std.specs.Prelude.{◌≡◌, ℕ, ◌+◌, ◌-◌, ◌/◌, ◌%◌, ◌^◌, ◌<◌, ◌≤◌, [], length, OnOk, OnErr, IfOk, IfSome};
ghost use Rattle.std.specs.FinMap.{empty};
ghost use Rattle.mdl_state.specs.declared.Size.TheVariants.{B1};
ghost use Rattle.mdl_state.specs.State.{Mem};
ghost use Rattle.mdl_state.specs.Bytes.{bytes_of, bound_of};
ghost use Rattle.mdl_state.specs.Serving.{Pick, Policy, Passed, by_pick, outcome};
ghost use Rattle.mdl_state.specs.Accesses.{translated, got, held_at, read_at, written_at, committed, discarded, with_a20, held_room, Keeps, IsPlace, HasRoom};
ghost use Rattle.mdl_state.specs.Choices.{Meets};

use mdl_state::{Access, Fault, Place, Size, Who};

/// Memory by linear addresses, with writes that are held until they are committed.
///
/// The first clause of each call is its meaning. The others follow from it, and stand for callers
/// that know nothing but the trait.
pub trait Linear {
    /// What it is seen as.
    ghost seen: { Self → Mem };

    /// The item that serves a page, from what is seen.
    ghost pick: { Pick };

    /// Its policy: a test that each such item meets.
    ghost policy: { Policy };

    /// Where an access lies, with its pages served, the lower one first.
    fn translate(&mut self, lin: u32, size: Size, access: Access) -> Result<Place, Fault>
        ensures place { (outcome result, seen self.new) ≡ translated (by_pick pick) (seen self.old) lin size access }
        ensures form { IfOk result (λ place. IsPlace place size) }
        ensures keeps { Keeps (seen self.old) (seen self.new) }
        ensures held { (seen self.new).held ≡ (seen self.old).held };

    /// What is seen at a place, under the held writes.
    fn get(&self, place: Place, size: Size) -> u32
        requires { IsPlace place size }
        ensures value { result ≡ got (seen self.now) place size }
        ensures bound { result < bound_of size };

    /// Holds a write.
    fn hold(&mut self, place: Place, size: Size, value: u32)
        requires form { IsPlace place size }
        requires bound { value < bound_of size }
        requires room { HasRoom (seen self.old) (bytes_of size) }
        ensures held { seen self.new ≡ held_at (seen self.old) place size value }
        ensures keeps { Keeps (seen self.old) (seen self.new) }
        ensures room { length (seen self.new).held ≡ length (seen self.old).held + bytes_of size };

    /// `translate`, and then `get`.
    fn read(&mut self, lin: u32, size: Size, who: Who) -> Result<u32, Fault>
        ensures value { (outcome result, seen self.new) ≡ read_at (by_pick pick) (seen self.old) lin size who }
        ensures bound { IfOk result (λ value. value < bound_of size) }
        ensures keeps { Keeps (seen self.old) (seen self.new) }
        ensures held { (seen self.new).held ≡ (seen self.old).held };

    /// Eight bytes at successive addresses, the lowest first, where they are at hand: reading each of
    /// them gives it, and changes nothing. No answer says nothing.
    fn near(&self, lin: u32, who: Who) -> Option<u64>
        ensures { IfSome result (λ word. (i : ℕ) → i < 8 → (Passed (word / 256 ^ i % 256), seen self.now) ≡ read_at (by_pick pick) (seen self.now) ((lin + i) % 2 ^ 32) B1 who) };

    /// `translate`, and then `hold`.
    fn write(&mut self, lin: u32, size: Size, value: u32, who: Who) -> Result<(), Fault>
        requires bound { value < bound_of size }
        requires room { HasRoom (seen self.old) (bytes_of size) }
        ensures done { (outcome result, seen self.new) ≡ written_at (by_pick pick) (seen self.old) lin size value who }
        ensures keeps { Keeps (seen self.old) (seen self.new) }
        ensures room { OnOk result (length (seen self.new).held ≡ length (seen self.old).held + bytes_of size) }
        ensures refused { OnErr result ((seen self.new).held ≡ (seen self.old).held) };

    /// How many bytes more may be held.
    fn room(&self) -> u16
        ensures { result ≡ held_room - length (seen self.now).held };

    /// Places what is held, in order.
    fn commit(&mut self)
        ensures placed { seen self.new ≡ committed (seen self.old) }
        ensures keeps { Keeps (seen self.old) (seen self.new) }
        ensures held { (seen self.new).held ≡ [] };

    /// Drops what is held.
    fn discard(&mut self)
        ensures dropped { seen self.new ≡ discarded (seen self.old) }
        ensures keeps { Keeps (seen self.old) (seen self.new) }
        ensures held { (seen self.new).held ≡ [] };

    /// Sets CR3, by which the cached entries go.
    fn load_cr3(&mut self, value: u32)
        ensures { seen self.new ≡ record (seen self.old) { cr3 = value; cache = empty } };

    /// Sets whether paging is on.
    fn set_paging(&mut self, on: bool)
        ensures { seen self.new ≡ record (seen self.old) { paging = on } };

    /// Sets the line A20.
    fn set_a20(&mut self, on: bool)
        ensures { seen self.new ≡ with_a20 on (seen self.old) };

    /// The number of walks that were made, up to the last number.
    fn walks(&self) -> u64
        ensures { result ≡ (seen self.now).walks };

    // Below the last call a ghost member is a law, which each implementation proves.
    ghost meets: { Meets pick policy };
}
