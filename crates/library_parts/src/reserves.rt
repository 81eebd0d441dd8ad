//! Room for what an effect needs, made before it; and what the journal gets.
ghost use Rattle.std.specs.Prelude.{◌≡◌, ◌+◌, ◌≤◌, [], ◌∷◌, ◌++◌, IsSome, IsTrue, OnOk};
ghost use Rattle.member_slots.specs.Members.{member_at};
ghost use Rattle.library_steps.specs.Change.{deposited};
ghost use Rattle.library_steps.specs.State.{memory_of, job_at};
ghost use Rattle.library_steps.specs.History.{is_running};
ghost use Rattle.parts_model.below.memory_journal.specs.declared.journal.TheConstants.{LAST_BEFORE_DEPOSIT};
ghost use Rattle.parts_model.specs.Locks.{HasLockRoom};
ghost use Rattle.parts_model.specs.Rooms.{HasFileRoom, HasMemberRoom, HasSlotRoom, HasUndoRoom, spare_slots};

use crate::contents::Contents;
use entry_codec::Draft;
use lock_table::MOST_LOCKS;
use std::alloc::AllocError;

impl Contents {
    /// Makes room for so many entries more, with so many bytes, besides those that boundaries may still deposit.
    pub fn reserve_entries(&mut self, entries: u32, bytes: u64) -> Result<(), AllocError>
        ensures state { self.new.state ≡ self.old.state }
        ensures others { self.new.room ≡ record self.old.room { entries = self.new.room.entries } }
        ensures room { OnOk result (entries ≤ self.new.room.entries) }
    {
        self.journal.reserve(u64::from(entries) + self.due, bytes)
    }

    /// Makes room for one slot more in the member.
    pub fn reserve_slot(&mut self, member: u32) -> Result<(), AllocError>
        requires { IsSome (member_at member self.old.state.members) }
        ensures state { self.new.state ≡ self.old.state }
        ensures others { self.new.room ≡ record self.old.room { spares = self.new.room.spares } }
        ensures room { OnOk result (HasSlotRoom self.new.room member) }
    {
        self.members.reserve(member, 1)
    }

    /// Makes room for so many slots more in the member.
    pub fn reserve_slots(&mut self, member: u32, more: u32) -> Result<(), AllocError>
        requires { IsSome (member_at member self.old.state.members) }
        ensures state { self.new.state ≡ self.old.state }
        ensures others { self.new.room ≡ record self.old.room { spares = self.new.room.spares } }
        ensures room { OnOk result (more ≤ spare_slots self.new.room member) }
    {
        self.members.reserve(member, more)
    }

    /// Makes room for one lock more, where one more may be held.
    pub fn reserve_lock(&mut self) -> Result<(), AllocError>
        ensures state { self.new.state ≡ self.old.state }
        ensures others { self.new.room ≡ record self.old.room { locks = self.new.room.locks } }
        ensures room { OnOk result (HasLockRoom self.new.state self.new.room) }
    {
        let more = u32::from(self.locks.count() < MOST_LOCKS);
        match self.locks.reserve(more) {
            Ok(()) => Ok(()),
            Err(_) => Err(AllocError),
        }
    }

    /// Makes room for one change more in the commit cycle of the job.
    pub fn reserve_undo(&mut self, job: u32) -> Result<(), AllocError>
        requires { IsTrue (is_running (job_at job self.old.state.jobs)) }
        ensures state { self.new.state ≡ self.old.state }
        ensures others { self.new.room ≡ record self.old.room { undos = self.new.room.undos } }
        ensures room { OnOk result (HasUndoRoom job self.new) }
    {
        self.jobs.reserve_undo(job)
    }

    /// Makes room for one file more, with one member.
    pub fn reserve_file(&mut self) -> Result<(), AllocError>
        ensures state { self.new.state ≡ self.old.state }
        ensures others { self.new.room ≡ record self.old.room { files = self.new.room.files; member_names = self.new.room.member_names; members = self.new.room.members } }
        ensures room { OnOk result (HasFileRoom self.new.room) }
    {
        self.catalogue.make_room()?;
        self.members.make_room()
    }

    /// Makes room for one member more in a file.
    pub fn reserve_member(&mut self) -> Result<(), AllocError>
        ensures state { self.new.state ≡ self.old.state }
        ensures others { self.new.room ≡ record self.old.room { files = self.new.room.files; member_names = self.new.room.member_names; members = self.new.room.members } }
        ensures room { OnOk result (HasMemberRoom self.new.room) }
    {
        self.catalogue.make_member_room()?;
        self.members.make_room()
    }

    /// Gives the draft the next sequence, and answers it.
    pub fn deposit(&mut self, draft: Draft) -> u64
        requires room { 1 ≤ self.old.room.entries }
        requires left { (memory_of self.old.state).last_entry ≤ LAST_BEFORE_DEPOSIT }
        ensures sequence { result ≡ (memory_of self.old.state).last_entry + 1 }
        ensures state { self.new.state ≡ record self.old.state { entries = self.old.state.entries ++ deposited (memory_of self.old.state) (draft ∷ []) } }
        ensures room { self.old.room.entries ≤ self.new.room.entries + 1 }
        ensures others { self.new.room ≡ record self.old.room { entries = self.new.room.entries } }
    {
        self.journal.deposit(draft)
    }
}
