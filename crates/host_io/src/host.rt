//! The slots of a run, and the trait of a host.

ghost use Rattle.std.specs.Prelude.{◌≡◌, ◌<◌, ◌≤◌, ℕ, List, Option, length, IfOk, OnOk, OnErr};
ghost use Rattle.std.specs.Io.KnownBytes.{ReadConsumes, WriteAppends};
ghost use Rattle.host_io.specs.declared.host.InSlot.{InSlot};
ghost use Rattle.host_io.specs.declared.host.OutSlot.{OutSlot};
ghost use Rattle.host_io.specs.declared.host.Slot.{Slot};
ghost use Rattle.host_io.specs.Causes.{HasCause};
ghost use Rattle.host_io.specs.Openings.{Openings, OpenedOnce};
ghost use Rattle.host_io.specs.Promises.{Promise, IsSure, Opens, IsFull};
ghost use Rattle.host_io.specs.Slots.{Same, SameBut, TellsAlike};

/// What a run reads.
#[derive(Clone, Copy, Debug, PartialEq, Eq)]
pub enum InSlot {
    Rom,
    Disk,
    Script,
    Commands,
}

/// What a run writes.
#[derive(Clone, Copy, Debug, PartialEq, Eq)]
pub enum OutSlot {
    Report,
    Mem,
    Save,
}

/// An input or an output.
#[derive(Clone, Copy, Debug, PartialEq, Eq)]
pub enum Slot {
    In(InSlot),
    Out(OutSlot),
}

/// A call of a host failed.
#[derive(Clone, Copy, Debug, PartialEq, Eq)]
pub struct Failed;

/// Where images come from and outputs go.
///
/// A host tells what its inputs have left, what its outputs took and the paths of its openings, or it
/// tells nothing of them. Which of both is so never changes.
pub trait Host {
    /// What each input has left, where the host tells.
    ghost left: { Self → InSlot → Option (List ℕ) };

    /// What each output took, where the host tells.
    ghost took: { Self → OutSlot → Option (List ℕ) };

    /// How often each slot was opened, and the path of the last time, where the host tells. An opening that fails is none.
    ghost path: { Self → Slot → Option Openings };

    /// How often the calls on each slot failed, up to `u64::MAX`.
    ghost faults: { Self → Slot → ℕ };

    /// What the host promises of its calls, none of which changes it.
    ghost promise: { Self → Promise };

    /// Opens an input. What it has left is what reading it from here gives.
    fn open_in(&mut self, slot: InSlot, name: &str) -> Result<(), Failed>
        ensures opened { OnOk result (OpenedOnce (path self.old (Slot.In slot)) (path self.new (Slot.In slot)) name.now) }
        ensures failed { OnErr result (path self.new (Slot.In slot) ≡ path self.old (Slot.In slot)) }
        ensures tells { TellsAlike (path self.old (Slot.In slot)) (path self.new (Slot.In slot)) }
        ensures paths { SameBut (Slot.In slot) (path self.old) (path self.new) }
        ensures left { Same (left self.old) (left self.new) }
        ensures took { Same (took self.old) (took self.new) }
        ensures cause { HasCause (faults self.old) (faults self.new) (Slot.In slot) result }
        ensures promise { promise self.new ≡ promise self.old }
        ensures sure { OnErr result (¬ (Opens (promise self.old) (Slot.In slot) name.now)) };

    /// Reads the next bytes of an input. None into a buffer with room is its end.
    fn read(&mut self, slot: InSlot, buffer: &mut [u8]) -> Result<usize, Failed>
        ensures bound { IfOk result (λ n. n ≤ length buffer.old) }
        ensures bytes { ReadConsumes (left self.old slot) (left self.new slot) result buffer.new }
        ensures tells { TellsAlike (left self.old slot) (left self.new slot) }
        ensures inputs { SameBut slot (left self.old) (left self.new) }
        ensures took { Same (took self.old) (took self.new) }
        ensures paths { Same (path self.old) (path self.new) }
        ensures cause { HasCause (faults self.old) (faults self.new) (Slot.In slot) result }
        ensures promise { promise self.new ≡ promise self.old }
        ensures sure { OnErr result (¬ (IsSure (promise self.old) (Slot.In slot))) };

    /// Opens an output. What it took before stands.
    fn open_out(&mut self, slot: OutSlot, name: &str) -> Result<(), Failed>
        ensures opened { OnOk result (OpenedOnce (path self.old (Slot.Out slot)) (path self.new (Slot.Out slot)) name.now) }
        ensures failed { OnErr result (path self.new (Slot.Out slot) ≡ path self.old (Slot.Out slot)) }
        ensures tells { TellsAlike (path self.old (Slot.Out slot)) (path self.new (Slot.Out slot)) }
        ensures paths { SameBut (Slot.Out slot) (path self.old) (path self.new) }
        ensures left { Same (left self.old) (left self.new) }
        ensures took { Same (took self.old) (took self.new) }
        ensures cause { HasCause (faults self.old) (faults self.new) (Slot.Out slot) result }
        ensures promise { promise self.new ≡ promise self.old }
        ensures sure { OnErr result (¬ (Opens (promise self.old) (Slot.Out slot) name.now)) };

    /// Writes the first bytes of a piece, and of one that is not empty at least one byte.
    fn write(&mut self, slot: OutSlot, bytes: &[u8]) -> Result<usize, Failed>
        ensures bound { IfOk result (λ n. n ≤ length bytes.now) }
        ensures some { 0 < length bytes.now → IfOk result (λ n. 0 < n) }
        ensures bytes { WriteAppends (took self.old slot) (took self.new slot) result bytes.now }
        ensures tells { TellsAlike (took self.old slot) (took self.new slot) }
        ensures outputs { SameBut slot (took self.old) (took self.new) }
        ensures left { Same (left self.old) (left self.new) }
        ensures paths { Same (path self.old) (path self.new) }
        ensures cause { HasCause (faults self.old) (faults self.new) (Slot.Out slot) result }
        ensures promise { promise self.new ≡ promise self.old }
        ensures sure { OnErr result (IsSure (promise self.old) (Slot.Out slot) → IsFull (promise self.old) slot (took self.new slot)) };
}
