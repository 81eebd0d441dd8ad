//! The calls on an object in memory, of which one may be told to fail. The objects themselves are in
//! `memory_source.rt`, `memory_sink.rt` and `memory_store.rt`.
ghost use Rattle.std.specs.Prelude.{◌≡◌, ◌≤◌, ℕ, Some, None, OnOk, OnErr};
ghost use Rattle.store_model.specs.Calls.{counted, passed, failed, IsToFail};

use crate::Failed;

/// How many calls there were, which one is to fail, and how many failed.
#[derive(Clone, Copy)]
pub struct Calls {
    pub made: u64,
    pub failing: Option<u64>,
    pub faults: u64,
}

impl Calls {
    pub const NONE: Calls = Calls {
        made: 0,
        failing: None,
        faults: 0,
    };

    /// One call more. It fails if it is the one that is to fail.
    pub fn begin(&mut self) -> Result<(), Failed>
        ensures passed { OnOk result (self.new ≡ passed self.old) }
        ensures passed_only { OnOk result (IsToFail self.old → ⊥) }
        ensures failed { OnErr result (self.new ≡ failed self.old) }
        ensures failed_only { OnErr result (IsToFail self.old) }
        ensures never_falls { self.old.faults ≤ self.new.faults }
    {
        self.made = self.made.saturating_add(1);
        if self.failing == Some(self.made) {
            self.failing = None;
            return Err(self.fault());
        }
        Ok(())
    }

    /// One fault more.
    pub fn fault(&mut self) -> Failed
        ensures counted { self.new ≡ record self.old { faults = counted self.old.faults } }
        ensures never_falls { self.old.faults ≤ self.new.faults }
    {
        self.faults = self.faults.saturating_add(1);
        Failed
    }
}
