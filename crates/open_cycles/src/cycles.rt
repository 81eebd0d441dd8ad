//! The open commit cycles and the slot changes that they made.
ghost use Rattle.std.specs.Prelude.{◌≡◌, ◌∷◌, ◌++◌, [], None, true, OnOk};
ghost use Rattle.std.specs.Option.{option_copied, option_map};
ghost use Rattle.std.specs.List.{filter, list_all};
ghost use Rattle.journal_model.specs.Replay.{is_not_in, is_other, before_of};
ghost use Rattle.journal_model.specs.Replayable.{is_one_of};
ghost use Rattle.journal_replay.specs.Open.{none_open};
ghost use Rattle.journal_replay.specs.Tests.{is_touched, is_apart, first_before};
ghost use Rattle.open_cycles.specs.Kept.{is_restored_by, last_of, live, without_last};

use crate::changes::OpenChange;
use crate::kept::Changes;
use crate::restored::HasSlots;
use std::alloc::{AllocError, Global};
use std::marker::Model;

/// The open commit cycles in the order of their beginnings, and their changes.
#[derive(Drop)]
pub struct OpenCycles {
    alloc: Global,
    cycles: Vec<u64>,
    changes: Changes,
}

impl Model for OpenCycles {
    ghost use Rattle.journal_replay.specs.Open.{Open};

    ghost Value = { Open };

    ghost view = { λ o. record { cycles = o.cycles.items; undos = o.changes } };
}

impl OpenCycles {
    /// None.
    pub fn new(alloc: Global) -> OpenCycles
        ensures { result ≡ none_open }
    {
        OpenCycles {
            alloc,
            cycles: Vec::new(alloc),
            changes: Changes::new(alloc),
        }
    }

    /// The commit cycles in the order of their beginnings.
    pub fn cycles(&self) -> &[u64]
        ensures { result.now ≡ self.now.cycles }
    {
        self.cycles.as_slice()
    }

    /// The changes of the open commit cycles at their places, the last one behind the others. Where a commit cycle has ended, its
    /// places are empty.
    pub fn changes(&self) -> &[Option<OpenChange>]
        ensures { live result.now ≡ self.now.undos }
    {
        self.changes.kept()
    }

    /// Whether the commit cycle is open. It looks at each open commit cycle; a job has at most one.
    pub fn is_open(&self, cycle: u64) -> bool
        ensures { result ≡ is_one_of self.now.cycles cycle }
    {
        for open in &self.cycles {
            if *open == cycle {
                return true;
            }
        }
        false
    }

    /// Whether an open commit cycle has changed the member.
    pub fn has_member(&self, member: u32) -> bool
        ensures { result ≡ is_touched member self.now.undos }
    {
        self.changes.has_member(member)
    }

    /// Whether no other commit cycle has changed the record.
    pub fn are_apart(&self, member: u32, place: u32, cycle: Option<u64>) -> bool
        ensures { result ≡ list_all (is_apart member place cycle) self.now.undos }
    {
        self.changes.are_apart(member, place, cycle)
    }

    /// The first change of the record by the commit cycle.
    pub fn first_of(&self, cycle: u64, member: u32, place: u32) -> Option<&OpenChange>
        ensures { option_map (λ change. before_of change.change) (option_copied result) ≡ first_before cycle member place self.now.undos None }
    {
        self.changes.first_of(cycle, member, place)
    }

    /// Whether each record that the commit cycle changed is again as before its first change of it.
    pub fn are_restored<M: HasSlots>(&self, cycle: u64, members: &M) -> bool
        ensures { result ≡ list_all (is_restored_by cycle self.now.undos (M.slots members.now)) self.now.undos }
    {
        self.changes.are_restored(cycle, members)
    }

    /// A commit cycle begins.
    pub fn begin(&mut self, cycle: u64) -> Result<(), AllocError>
        ensures cycles { OnOk result (self.new.cycles ≡ self.old.cycles ++ cycle ∷ []) }
        ensures undos { self.new.undos ≡ self.old.undos }
    {
        self.cycles.push(cycle)?;
        Ok(())
    }

    /// A commit cycle ends, and its changes are no longer open.
    pub fn end(&mut self, cycle: u64)
        ensures cycles { self.new.cycles ≡ filter (is_other cycle) self.old.cycles }
        ensures undos { self.new.undos ≡ filter (λ c. is_not_in cycle c.change) self.old.undos }
    {
        self.cycles.retain(|open| *open != cycle);
        self.changes.end(cycle);
    }

    /// One change more, which is the last one. Its record is changed by no other commit cycle.
    pub fn note(&mut self, change: OpenChange) -> Result<(), AllocError>
        requires { list_all (is_apart change.member change.change.place change.change.cycle) self.old.undos ≡ true }
        ensures cycles { self.new.cycles ≡ self.old.cycles }
        ensures undos { OnOk result (self.new.undos ≡ change ∷ self.old.undos) }
    {
        self.changes.note(self.alloc, change)?;
        Ok(())
    }

    /// Takes the last change of the commit cycle out, to be undone.
    pub fn take_last(&mut self, cycle: u64) -> Option<OpenChange>
        ensures change { result ≡ last_of cycle self.old.undos }
        ensures cycles { self.new.cycles ≡ self.old.cycles }
        ensures undos { self.new.undos ≡ without_last cycle self.old.undos }
    {
        self.changes.take_last(cycle)
    }
}
