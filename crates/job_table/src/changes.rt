//! Changes of a commit cycle, as they are kept to be taken back.
ghost use Rattle.std.specs.Prelude.{◌≡◌, ◌+◌, ◌≤◌, Some, [], ◌∷◌, length, slice_get, option_map, option_copied, OnOk, MatchOption};
ghost use Rattle.std.specs.List.{list_any};
ghost use Rattle.journal_model.specs.Replay.{before_of};
ghost use Rattle.lawful_states.below.library_steps.specs.declared.limits.TheConstants.{MOST_GROUP_BYTES};
ghost use Rattle.lawful_states.specs.SlotChange.{image_bytes, change_bytes};
ghost use Rattle.job_table.specs.Changes.{HasRoom, bytes_of, change_of, is_of_member, is_of_record};

use member_slots::slot::Slot;
use path_set::moves::Moves;
use std::alloc::{AllocError, Global};
use std::collections::VecDeque;
use std::marker::Model;

/// A change of a record under commitment control, with the slot before it and after it, and with the moves that take it back in
/// all access paths.
#[derive(Drop)]
pub struct Undo {
    member: u32,
    rrn: u32,
    cycle: u64,
    before: Slot,
    /// The slot before once more, for the entry that tells that it was put back.
    again: Slot,
    after: Slot,
    moves: Moves,
}

/// A change that is taken back: the slot before it twice, the one after it, and the moves in all access paths.
#[derive(Drop)]
pub struct UndoParts {
    pub before: Slot,
    pub again: Slot,
    pub after: Slot,
    pub moves: Moves,
}

impl Model for Undo {
    ghost use Rattle.std.specs.Prelude.{◌≡◌, ◌≤◌};
    ghost use Rattle.job_table.specs.Changes.{KeptUndo, change_of};

    ghost Value = { KeptUndo };

    ghost view = { λ u. record { change = change_of u.member u.rrn u.cycle u.before u.after; moves = u.moves } };

    ghost invariant = { λ u. (1 ≤ u.rrn) × (u.again ≡ u.before) };
}

impl Undo {
    /// A change of the record with that number, in the commit cycle that began with the entry of that sequence. The slot
    /// before comes twice, so that taking the change back needs no memory.
    pub fn new(
        member: u32,
        rrn: u32,
        cycle: u64,
        before: Slot,
        again: Slot,
        after: Slot,
        moves: Moves,
    ) -> Undo
        requires numbered { 1 ≤ rrn }
        requires alike { again ≡ before }
        ensures { result ≡ record { change = change_of member rrn cycle before after; moves = moves } }
    {
        Undo {
            member,
            rrn,
            cycle,
            before,
            again,
            after,
            moves,
        }
    }

    /// The number of the member.
    pub fn member(&self) -> u32
        ensures { result ≡ self.now.change.member }
    {
        self.member
    }

    /// The relative record number, one more than the place.
    pub fn rrn(&self) -> u32
        ensures { result ≡ self.now.change.change.place + 1 }
    {
        self.rrn
    }

    /// The sequence of the entry with which the commit cycle began.
    pub fn cycle(&self) -> u64
        ensures { self.now.change.change.cycle ≡ Some result }
    {
        self.cycle
    }

    /// The slot before the change.
    pub fn before(&self) -> &Slot
        ensures before { result.now ≡ before_of self.now.change.change }
        ensures told { self.now.change.change.before ≡ Some result.now }
    {
        &self.before
    }

    /// The slot after it.
    pub fn after(&self) -> &Slot
        ensures { result.now ≡ self.now.change.change.after }
    {
        &self.after
    }

    /// Its slots, to be put back and told of, and its moves, to be made.
    pub fn into_parts(self) -> UndoParts
        ensures before { result.before ≡ before_of self.change.change }
        ensures again { result.again ≡ before_of self.change.change }
        ensures after { result.after ≡ self.change.change.after }
        ensures moves { result.moves ≡ self.moves }
    {
        UndoParts {
            before: self.before,
            again: self.again,
            after: self.after,
            moves: self.moves,
        }
    }

    /// The bytes of images in the entries that take the change back.
    pub fn bytes(&self) -> u64
        requires { change_bytes self.now.change ≤ MOST_GROUP_BYTES }
        ensures { result ≡ change_bytes self.now.change }
    {
        image_bytes(&self.before) + image_bytes(&self.after)
    }
}

fn image_bytes(slot: &Slot) -> u64
    ensures { result ≡ image_bytes slot.now }
{
    match slot {
        Slot::Live(image) => image.as_bytes().len() as u64,
        Slot::Deleted => 0,
    }
}

/// Changes, the last one first. Beside them, contracts see the moves of each, and for how many there is room in all.
#[derive(Drop)]
pub struct Undos {
    changes: VecDeque<Undo>,
    bytes: u64,
}

impl Model for Undos {
    ghost use Rattle.std.specs.VecDeque.{deque_capacity};
    ghost use Rattle.job_table.specs.Changes.{RoomyChanges, AreWeighed, changes_of, moves_of};

    ghost Value = { RoomyChanges };

    ghost view = { λ u. record { changes = changes_of u.changes.items; moves = moves_of u.changes.items; room = deque_capacity u.changes } };

    ghost invariant = { λ u. AreWeighed (changes_of u.changes.items) u.bytes };
}

impl Undos {
    /// No changes.
    pub fn new(alloc: Global) -> Undos
        ensures changes { result.changes ≡ [] }
        ensures moves { result.moves ≡ [] }
    {
        Undos {
            changes: VecDeque::new(alloc),
            bytes: 0,
        }
    }

    /// How many there are.
    pub fn len(&self) -> usize
        ensures { result ≡ length self.now.changes }
    {
        self.changes.len()
    }

    /// The bytes of images in the entries that take them back.
    pub fn bytes(&self) -> u64
        ensures { result ≡ bytes_of self.now.changes }
    {
        self.bytes
    }

    /// The change at a place, the last one at 0.
    pub fn get(&self, place: usize) -> Option<&Undo>
        ensures change { option_map (λ undo. undo.change) (option_copied result) ≡ slice_get self.now.changes place }
        ensures moves { option_map (λ undo. undo.moves) (option_copied result) ≡ slice_get self.now.moves place }
    {
        self.changes.get(place)
    }

    /// Whether one of them is of the member.
    pub fn have_member(&self, member: u32) -> bool
        ensures { result ≡ list_any (is_of_member member) self.now.changes }
    {
        for undo in self.changes.iter() {
            if undo.member() == member {
                return true;
            }
        }
        false
    }

    /// Whether one of them is of the record.
    pub fn have_record(&self, member: u32, rrn: u32) -> bool
        ensures { result ≡ list_any (is_of_record member rrn) self.now.changes }
    {
        for undo in self.changes.iter() {
            if undo.member() == member && undo.rrn() == rrn {
                return true;
            }
        }
        false
    }

    /// Takes the last change out.
    pub fn pop(&mut self) -> Option<Undo>
        ensures changes { MatchOption result ((self.old.changes ≡ []) × (self.new.changes ≡ [])) (λ undo. self.old.changes ≡ undo.change ∷ self.new.changes) }
        ensures moves { MatchOption result ((self.old.moves ≡ []) × (self.new.moves ≡ [])) (λ undo. self.old.moves ≡ undo.moves ∷ self.new.moves) }
    {
        let Some(undo) = self.changes.pop_front() else {
            return None;
        };
        self.bytes -= undo.bytes();
        Some(undo)
    }

    /// Makes room for one change more.
    pub(crate) fn reserve(&mut self) -> Result<(), AllocError>
        ensures changes { self.new.changes ≡ self.old.changes }
        ensures moves { self.new.moves ≡ self.old.moves }
        ensures room { OnOk result (HasRoom self.new.changes self.new.room) }
    {
        self.changes.reserve(1)
    }

    /// Keeps a change.
    pub(crate) fn note(&mut self, undo: Undo)
        requires room { HasRoom self.old.changes self.old.room }
        requires few { bytes_of self.old.changes + change_bytes undo.change ≤ MOST_GROUP_BYTES }
        ensures changes { self.new.changes ≡ undo.change ∷ self.old.changes }
        ensures moves { self.new.moves ≡ undo.moves ∷ self.old.moves }
        ensures room { self.new.room ≡ self.old.room }
    {
        self.bytes += undo.bytes();
        self.changes.push_front_reserved(undo);
    }
}
