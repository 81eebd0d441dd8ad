//! What a journal's entries leave, read one after another, or the first that can't follow. What is tested is in
//! `judge.rt`, what becomes of it in `moves.rt`.
ghost use Rattle.std.specs.Prelude.{◌≡◌, ℕ, ◌+◌, ◌↔◌, true, false, is_none, IsTrue, IfOk};
ghost use Rattle.journal_model.specs.Journal.{Journal};
ghost use Rattle.journal_replay.specs.SoFar.{CanReplaySoFar, with_entry};
ghost use Rattle.journal_replay.specs.Standing.{standing_after};
ghost use Rattle.journal_replay.specs.Left.{IsLeft, empty_journal, empty_standing};
ghost use Rattle.replay_step.specs.Saved.{IsSaved, at_checkpoint, saved_standing};
ghost use Rattle.journal_replay.specs.MemberActs.{act_of};
ghost use Rattle.journal_replay.specs.Tests.{may_stand_next, member_act};
ghost use Rattle.journal_model.specs.Catalogue.{Descriptions};

use entry_codec::Entry;
use journal_replay::{MemberAct, read_act};
use open_cycles::OpenCycles;
use replay_files::{Describe, Files};
use replay_members::Members;
use std::alloc::{AllocError, Global};
use std::marker::Model;

/// What the entries read so far leave: the catalogue, the members' slots, and the open commit cycles with their changes.
#[derive(Drop)]
pub struct Replay {
    pub(crate) alloc: Global,
    /// The sequence of the last entry.
    pub(crate) last: u64,
    /// The last entry, where it begins a pair of images.
    pub(crate) begun: Option<Entry>,
    pub(crate) files: Files,
    pub(crate) members: Members,
    pub(crate) open_cycles: OpenCycles,
}

impl Model for Replay {
    ghost use Rattle.std.specs.Prelude.{◌+◌};
    ghost use Rattle.journal_replay.specs.Standing.{Standing};

    ghost Value = { Standing };

    ghost view = { λ r. record { next = r.last + 1; begun = r.begun; files = r.files; members = r.members.members; next_member = r.members.next; cycles = r.open_cycles.cycles; undos = r.open_cycles.undos } };
}

impl Replay {
    /// What the empty journal leaves.
    pub fn new(alloc: Global) -> Replay
        ensures standing { result ≡ empty_standing }
        ensures journal { (d : Descriptions) → IsLeft d (λ _. 0) empty_journal result }
    {
        Replay {
            alloc,
            last: 0,
            begun: None,
            files: Files::new(alloc),
            members: Members::new(alloc, 1),
            open_cycles: OpenCycles::new(alloc),
        }
    }

    /// What a checkpoint saved: the sequence of the last entry before it, that entry, where it begins a pair of images, the
    /// files, and the members with their slots and last breaks. No commit cycle is open there.
    pub fn from_saved(
        alloc: Global,
        last: u64,
        begun: Option<Entry>,
        files: Files,
        members: Members,
    ) -> Replay
        ensures standing { result ≡ saved_standing last begun files members }
        ensures journal { (d : Descriptions) → (breaks : ℕ → ℕ) → (j : Journal) → IsSaved d breaks j (saved_standing last begun files members) → IsLeft d breaks (at_checkpoint j) result }
    {
        Replay {
            alloc,
            last,
            begun,
            files,
            members,
            open_cycles: OpenCycles::new(alloc),
        }
    }

    /// Reads one entry more: whether the journal with it can be replayed so far. Where it can't, nothing changes. Where
    /// memory runs out, what was read is not to be used again.
    pub fn step<D: Describe>(&mut self, by: &D, entry: &Entry) -> Result<bool, AllocError>
        ensures answer { IfOk result (λ b. b ≡ may_stand_next (D.rules by.now) self.old entry.now) }
        ensures moved { IfOk result (λ b. b ≡ true → self.new ≡ standing_after entry.now self.old) }
        ensures refused { IfOk result (λ b. b ≡ false → self.new ≡ self.old) }
    {
        let act = self.read(entry)?;
        if !self.may_come(by, entry, &act)? {
            return Ok(false);
        }
        self.move_on(entry, act)?;
        Ok(true)
    }

    fn read(&self, entry: &Entry) -> Result<MemberAct, AllocError>
        ensures { IfOk result (λ act. act_of act ≡ member_act entry.now.kind self.now.begun entry.now) }
    {
        read_act(self.alloc, &self.begun, entry)
    }

    /// The sequence of the last entry.
    pub fn last(&self) -> u64
        ensures { result + 1 ≡ self.now.next }
    {
        self.last
    }

    /// Whether no pair of images waits for its second entry.
    pub fn is_whole(&self) -> bool
        ensures { result ≡ is_none self.now.begun }
    {
        self.begun.is_none()
    }

    /// The files in order of creation.
    pub fn files(&self) -> &Files
        ensures { result.now ≡ self.now.files }
    {
        &self.files
    }

    /// The members in order of creation.
    pub fn members(&self) -> &Members
        ensures members { result.now.members ≡ self.now.members }
        ensures next { result.now.next ≡ self.now.next_member }
    {
        &self.members
    }

    /// The open commit cycles and their changes.
    pub fn open_cycles(&self) -> &OpenCycles
        ensures cycles { result.now.cycles ≡ self.now.cycles }
        ensures undos { result.now.undos ≡ self.now.undos }
    {
        &self.open_cycles
    }

    /// The files, the members and the open commit cycles.
    pub fn into_parts(self) -> (Files, Members, OpenCycles)
        ensures files { result.0 ≡ self.files }
        ensures members { result.1.members ≡ self.members }
        ensures cycles { result.2.cycles ≡ self.cycles }
        ensures undos { result.2.undos ≡ self.undos }
    {
        (self.files, self.members, self.open_cycles)
    }
}
