//! What a host in memory keeps of each slot: how often it was opened, the last path, and how often its calls failed.

ghost use Rattle.std.specs.Prelude.{◌≡◌, ◌≤◌, Some, is_err, nat_lt, length, OnOk, OnErr};
ghost use Rattle.host_io.specs.Causes.{risen};
ghost use Rattle.host_io.specs.Openings.{opened_once};
ghost use Rattle.host_io.specs.History.{IsUnused, openings_in};

use crate::host::Failed;
use arrayvec::ArrayString;

/// The count of openings, the last path and the count of failures of a slot.
#[derive(Drop)]
pub struct History {
    pub openings: u64,
    pub path: Option<ArrayString<255>>,
    pub faults: u64,
}

impl History {
    /// Of a slot that was never opened.
    pub fn new() -> History
        ensures { IsUnused result }
    {
        History {
            openings: 0,
            path: None,
            faults: 0,
        }
    }

    /// Opens the slot, which fails where the path has no room.
    pub fn open(&mut self, name: &str) -> Result<(), Failed>
        ensures refused { is_err result ≡ nat_lt 255 (length name.now) }
        ensures opened { OnOk result (openings_in self.new ≡ opened_once (openings_in self.old) name.now) }
        ensures kept { OnOk result (self.new.faults ≡ self.old.faults) }
        ensures same { OnErr result (openings_in self.new ≡ openings_in self.old) }
        ensures risen { OnErr result (self.new.faults ≡ risen self.old.faults) }
        ensures later { self.old.faults ≤ self.new.faults }
    {
        let mut path = ArrayString::new();
        if path.try_push_str(name).is_err() {
            return Err(self.failed());
        }
        self.path = Some(path);
        self.openings = self.openings.saturating_add(1);
        Ok(())
    }

    /// Counts a call that fails.
    pub fn failed(&mut self) -> Failed
        ensures faults { self.new.faults ≡ risen self.old.faults }
        ensures later { self.old.faults ≤ self.new.faults }
        ensures openings { self.new.openings ≡ self.old.openings }
        ensures path { self.new.path ≡ self.old.path }
    {
        self.faults = self.faults.saturating_add(1);
        Failed
    }
}
