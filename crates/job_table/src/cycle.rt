//! The open commit cycle of a job, and the room for its changes.
ghost use Rattle.std.specs.Prelude.{◌≡◌, ◌+◌, ◌≤◌, Some, None, [], ◌∷◌, OnOk, option_map};
ghost use Rattle.lawful_states.below.library_steps.specs.declared.limits.TheConstants.{MOST_GROUP_BYTES};
ghost use Rattle.lawful_states.specs.Uses.{changes_in};
ghost use Rattle.lawful_states.specs.SlotChange.{change_bytes, noted};
ghost use Rattle.job_table.specs.Changes.{HasRoom, bytes_of};
ghost use Rattle.lawful_states.specs.Jobs.{cycle_from};

use crate::changes::{Undo, Undos};
use std::alloc::{AllocError, Global};
use std::marker::Model;
use std::mem;

/// The commit cycle of a job, where one is open.
#[derive(Drop)]
pub struct Cycle {
    started: Option<u64>,
    undos: Undos,
}

impl Model for Cycle {
    ghost use Rattle.job_table.specs.Changes.{RoomyCycle, cycle_of, IsOfCycle};

    ghost Value = { RoomyCycle };

    ghost view = { λ c. record { cycle = cycle_of c.started c.undos.changes; moves = c.undos.moves; room = c.undos.room } };

    ghost invariant = { λ c. IsOfCycle c.started c.undos.changes };
}

impl Cycle {
    /// No cycle is open.
    pub fn new(alloc: Global) -> Cycle
        ensures cycle { result.cycle ≡ None }
        ensures moves { result.moves ≡ [] }
    {
        Cycle {
            started: None,
            undos: Undos::new(alloc),
        }
    }

    /// The sequence of the entry with which it began.
    pub fn sequence(&self) -> Option<u64>
        ensures { result ≡ option_map (λ cycle. cycle.sequence) self.now.cycle }
    {
        self.started
    }

    /// Its changes.
    pub fn undos(&self) -> &Undos
        ensures changes { result.now.changes ≡ changes_in self.now.cycle }
        ensures moves { result.now.moves ≡ self.now.moves }
        ensures room { result.now.room ≡ self.now.room }
    {
        &self.undos
    }

    /// Makes room for one change more.
    pub fn reserve(&mut self) -> Result<(), AllocError>
        ensures cycle { self.new.cycle ≡ self.old.cycle }
        ensures moves { self.new.moves ≡ self.old.moves }
        ensures room { OnOk result (HasRoom (changes_in self.new.cycle) self.new.room) }
    {
        self.undos.reserve()
    }

    /// Keeps a change. Where no cycle is open, one begins with the entry of that sequence.
    pub fn note(&mut self, sequence: u64, undo: Undo)
        requires room { HasRoom (changes_in self.old.cycle) self.old.room }
        requires few { bytes_of (changes_in self.old.cycle) + change_bytes undo.change ≤ MOST_GROUP_BYTES }
        ensures cycle { self.new.cycle ≡ Some (noted undo.change (cycle_from sequence self.old.cycle)) }
        ensures moves { self.new.moves ≡ undo.moves ∷ self.old.moves }
        ensures room { self.new.room ≡ self.old.room }
    {
        self.started = Some(self.started.unwrap_or(sequence));
        self.undos.note(undo);
    }

    /// Ends it, and hands its changes out.
    pub fn end(&mut self, alloc: Global) -> Undos
        ensures changes { result.changes ≡ changes_in self.old.cycle }
        ensures moves { result.moves ≡ self.old.moves }
        ensures ended { self.new.cycle ≡ None }
        ensures emptied { self.new.moves ≡ [] }
    {
        self.started = None;
        mem::replace(&mut self.undos, Undos::new(alloc))
    }
}
