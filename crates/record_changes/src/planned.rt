//! What the plans of these requests come to: a slot to change, or a record to unlock, through an open.
ghost use Rattle.std.specs.Prelude.{◌≡◌};
ghost use Rattle.library_steps.specs.Locking.{holder_of, record_of};
ghost use Rattle.record_changes.specs.Opens.{bare};

use library_parts::job_table::OpenAt;
use lock_table::{Holder, RecordId};
use member_slots::slot::Slot;
use path_set::moves::Moves;
use std::marker::Model;

/// What effects read of the open through which a call is made.
#[derive(Drop)]
pub(crate) struct Through {
    number: u32,
    member: u32,
    commit: bool,
}

impl Model for Through {
    ghost use Rattle.library_steps.specs.State.{OpenState};
    ghost use Rattle.record_changes.specs.Opens.{through};

    ghost Value = { OpenState };

    ghost view = { λ t. through t.number t.member t.commit };
}

impl Through {
    pub(crate) fn of(opened: &OpenAt<'_>) -> Through
        ensures { result ≡ bare opened.now.state }
    {
        Through {
            number: opened.number(),
            member: opened.member(),
            commit: opened.commit(),
        }
    }

    /// Its number among the opens of the job.
    pub(crate) fn number(&self) -> u32
        ensures { result ≡ self.now.number }
    {
        self.number
    }

    pub(crate) fn member(&self) -> u32
        ensures { result ≡ self.now.member }
    {
        self.member
    }

    /// Whether it is under commitment control.
    pub(crate) fn commit(&self) -> bool
        ensures { result ≡ self.now.commit }
    {
        self.commit
    }

    /// By whom records are locked through it.
    pub(crate) fn holder(&self, job: u32) -> Holder
        ensures { result ≡ holder_of job self.now }
    {
        Holder {
            job,
            opened: self.number,
        }
    }

    /// A record of its member.
    pub(crate) fn record_at(&self, rrn: u32) -> RecordId
        ensures { result ≡ record_of self.now rrn }
    {
        RecordId {
            member: self.member,
            rrn,
        }
    }
}

/// A slot of the open's member, and what it is to hold.
#[derive(Drop)]
pub(crate) struct PlannedSlot {
    pub(crate) opened: Through,
    pub(crate) rrn: u32,
    pub(crate) slot: Slot,
}

/// The slots of a change as its commit cycle keeps it. The moves that take it back come from the change itself.
#[derive(Drop)]
pub(crate) struct UndoSlots {
    /// The sequence of the entry with which the commit cycle began.
    pub(crate) cycle: u64,
    pub(crate) before: Slot,
    /// The slot before once more, for the entry that tells that it was put back.
    pub(crate) again: Slot,
    pub(crate) after: Slot,
}

/// What a change wants besides, so that it takes no memory.
#[derive(Drop)]
pub(crate) struct Prepared {
    /// The new slot once more, for its entry, where the member is journaled.
    pub(crate) again: Slot,
    /// The slots that the commit cycle keeps, where the open is under commitment control.
    pub(crate) undo: Option<UndoSlots>,
    /// What the change moves in the access paths.
    pub(crate) moves: Moves,
}

/// The record that the open read last, which is locked.
#[derive(Drop)]
pub(crate) struct LockedRead {
    pub(crate) opened: Through,
    pub(crate) rrn: u32,
}
