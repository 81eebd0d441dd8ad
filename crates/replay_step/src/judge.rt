//! Which entry may come next.
ghost use Rattle.std.specs.Prelude.{◌≡◌, ◌==◌, ◌&&◌, IfOk};
ghost use Rattle.journal_model.specs.Replayable.{is_open};
ghost use Rattle.journal_model.specs.Rollback.{named};
ghost use Rattle.journal_replay.specs.MemberActs.{act_of};
ghost use Rattle.journal_replay.specs.Standing.{catalogue_in};
ghost use Rattle.journal_replay.specs.Tests.{is_next_member, makes_member, may_create, may_delete, may_add_member, is_of_member, may_enter, frees_deleted, may_act, member_act, follows_by, names_open, ends_pair, are_records_of, may_stand_next};

use crate::moves::cycle_of;
use crate::replay::Replay;
use entry_codec::{Entry, EntryKind, FileKind};
use field_types::names::Name;
use field_types::texts::SourceText;
use journal_model::LAST_MEMBER;
use journal_replay::{MemberAct, ends_pair};
use replay_files::Describe;
use replay_members::{fits, has_place};
use std::alloc::AllocError;

impl Replay {
    /// Whether the entry may come next.
    pub(crate) fn may_come<D: Describe>(
        &self,
        by: &D,
        entry: &Entry,
        act: &MemberAct,
    ) -> Result<bool, AllocError>
        requires { act_of act.now ≡ member_act entry.now.kind self.now.begun entry.now }
        ensures { IfOk result (λ b. b ≡ may_stand_next (D.rules by.now) self.now entry.now) }
    {
        if !self.comes_in_order(entry) {
            return Ok(false);
        }
        if !self.may_enter(by, entry)? {
            return Ok(false);
        }
        if !self.follows(entry, act) {
            return Ok(false);
        }
        self.has_records(by, entry)
    }

    /// Its sequence, its pair and its commit cycle, and that no open commit cycle has changed what it deletes.
    fn comes_in_order(&self, entry: &Entry) -> bool
        ensures { result ≡ ((entry.now.sequence == self.now.next) && ends_pair self.now.begun entry.now && names_open entry.now.kind self.now.cycles entry.now.group && frees_deleted entry.now.kind self.now) }
    {
        self.is_next(entry.sequence)
            && ends_pair(&self.begun, entry)
            && self.names_open(entry)
            && self.frees_deleted(&entry.kind)
    }

    fn is_next(&self, sequence: u64) -> bool
        ensures { result ≡ (sequence == self.now.next) }
    {
        sequence > self.last && sequence - self.last == 1
    }

    fn is_open(&self, cycle: Option<u64>) -> bool
        ensures { result ≡ is_open self.now.cycles cycle }
    {
        match cycle {
            None => true,
            Some(cycle) => self.open_cycles.is_open(cycle),
        }
    }

    fn names_open(&self, entry: &Entry) -> bool
        ensures { result ≡ names_open entry.now.kind self.now.cycles entry.now.group }
    {
        match &entry.kind {
            EntryKind::FileCreated { .. } => self.is_open(entry.group),
            EntryKind::FileDeleted { .. } => self.is_open(entry.group),
            EntryKind::MemberAdded { .. } => self.is_open(entry.group),
            EntryKind::JournalingStarted { .. } => self.is_open(entry.group),
            EntryKind::InitialSlot { .. } => self.is_open(entry.group),
            EntryKind::JournalingEnded => self.is_open(entry.group),
            EntryKind::MemberCleared => self.is_open(entry.group),
            EntryKind::MemberReorganized => self.is_open(entry.group),
            EntryKind::ChangesApplied { .. } => self.is_open(entry.group),
            EntryKind::ChangesRemoved { .. } => self.is_open(entry.group),
            EntryKind::RecordAdded { .. } => self.is_open(entry.group),
            EntryKind::RecordAddedAtNumber { .. } => self.is_open(entry.group),
            EntryKind::BeforeImage { .. } => self.is_open(entry.group),
            EntryKind::AfterImage { .. } => self.is_open(entry.group),
            EntryKind::RecordDeleted { .. } => self.is_open(entry.group),
            EntryKind::UndoBeforeImage { .. } => self.is_open(entry.group),
            EntryKind::UndoAfterImage { .. } => self.is_open(entry.group),
            EntryKind::UndoDelete { .. } => self.is_open(entry.group),
            EntryKind::CommitmentStarted { .. } => self.is_open(entry.group),
            EntryKind::CommitCycleStarted => true,
            EntryKind::CommitCycleCommitted => self.is_open(entry.group),
            EntryKind::CommitCycleRolledBack => self.is_open(entry.group),
            EntryKind::CommitmentEnded => self.is_open(entry.group),
            EntryKind::AbnormalEnd => self.is_open(entry.group),
            EntryKind::NextReceiver { .. } => self.is_open(entry.group),
            EntryKind::PreviousReceiver { .. } => self.is_open(entry.group),
        }
    }

    fn frees_deleted(&self, kind: &EntryKind) -> bool
        ensures { result ≡ frees_deleted kind.now self.now }
    {
        match kind {
            EntryKind::FileCreated { .. } => true,
            EntryKind::FileDeleted { name } => !self.members.have_open(name, &self.open_cycles),
            EntryKind::MemberAdded { .. } => true,
            EntryKind::JournalingStarted { .. } => true,
            EntryKind::InitialSlot { .. } => true,
            EntryKind::JournalingEnded => true,
            EntryKind::MemberCleared => true,
            EntryKind::MemberReorganized => true,
            EntryKind::ChangesApplied { .. } => true,
            EntryKind::ChangesRemoved { .. } => true,
            EntryKind::RecordAdded { .. } => true,
            EntryKind::RecordAddedAtNumber { .. } => true,
            EntryKind::BeforeImage { .. } => true,
            EntryKind::AfterImage { .. } => true,
            EntryKind::RecordDeleted { .. } => true,
            EntryKind::UndoBeforeImage { .. } => true,
            EntryKind::UndoAfterImage { .. } => true,
            EntryKind::UndoDelete { .. } => true,
            EntryKind::CommitmentStarted { .. } => true,
            EntryKind::CommitCycleStarted => true,
            EntryKind::CommitCycleCommitted => true,
            EntryKind::CommitCycleRolledBack => true,
            EntryKind::CommitmentEnded => true,
            EntryKind::AbnormalEnd => true,
            EntryKind::NextReceiver { .. } => true,
            EntryKind::PreviousReceiver { .. } => true,
        }
    }

    fn may_enter<D: Describe>(&self, by: &D, entry: &Entry) -> Result<bool, AllocError>
        ensures { IfOk result (λ b. b ≡ may_enter (D.rules by.now) entry.now.kind entry.now (catalogue_in self.now)) }
    {
        match &entry.kind {
            EntryKind::FileCreated { kind, name, source } => {
                self.may_create(by, entry, *kind, name, source)
            }
            EntryKind::FileDeleted { name } => self.may_delete(by, name),
            EntryKind::MemberAdded { file, name } => Ok(self.may_add_member(entry, file, name)),
            EntryKind::JournalingStarted { .. } => Ok(self.is_of_member(entry)),
            EntryKind::InitialSlot { .. } => Ok(self.is_of_member(entry)),
            EntryKind::JournalingEnded => Ok(self.is_of_member(entry)),
            EntryKind::MemberCleared => Ok(self.is_of_member(entry)),
            EntryKind::MemberReorganized => Ok(self.is_of_member(entry)),
            EntryKind::ChangesApplied { .. } => Ok(self.is_of_member(entry)),
            EntryKind::ChangesRemoved { .. } => Ok(self.is_of_member(entry)),
            EntryKind::RecordAdded { .. } => Ok(self.is_of_member(entry)),
            EntryKind::RecordAddedAtNumber { .. } => Ok(self.is_of_member(entry)),
            EntryKind::BeforeImage { .. } => Ok(self.is_of_member(entry)),
            EntryKind::AfterImage { .. } => Ok(self.is_of_member(entry)),
            EntryKind::RecordDeleted { .. } => Ok(self.is_of_member(entry)),
            EntryKind::UndoBeforeImage { .. } => Ok(self.is_of_member(entry)),
            EntryKind::UndoAfterImage { .. } => Ok(self.is_of_member(entry)),
            EntryKind::UndoDelete { .. } => Ok(self.is_of_member(entry)),
            EntryKind::CommitmentStarted { .. } => Ok(true),
            EntryKind::CommitCycleStarted => Ok(true),
            EntryKind::CommitCycleCommitted => Ok(true),
            EntryKind::CommitCycleRolledBack => Ok(true),
            EntryKind::CommitmentEnded => Ok(true),
            EntryKind::AbnormalEnd => Ok(true),
            EntryKind::NextReceiver { .. } => Ok(true),
            EntryKind::PreviousReceiver { .. } => Ok(true),
        }
    }

    fn is_next_member(&self, number: Option<u32>) -> bool
        ensures { result ≡ is_next_member number (catalogue_in self.now) }
    {
        match number {
            None => false,
            Some(number) => number == self.members.next() && self.members.next() <= LAST_MEMBER,
        }
    }

    fn makes_member(&self, kind: FileKind, entry: &Entry) -> bool
        ensures { result ≡ makes_member kind entry.now (catalogue_in self.now) }
    {
        match kind {
            FileKind::Physical => self.is_next_member(entry.member),
            FileKind::Logical => true,
        }
    }

    fn may_create<D: Describe>(
        &self,
        by: &D,
        entry: &Entry,
        kind: FileKind,
        name: &Name,
        source: &SourceText,
    ) -> Result<bool, AllocError>
        ensures { IfOk result (λ b. b ≡ may_create (D.rules by.now) kind name.now source.now entry.now (catalogue_in self.now)) }
    {
        if self.files.has(name) || !self.makes_member(kind, entry) {
            return Ok(false);
        }
        by.accepts(&self.files, kind, source)
    }

    fn may_delete<D: Describe>(&self, by: &D, name: &Name) -> Result<bool, AllocError>
        ensures { IfOk result (λ b. b ≡ may_delete (D.rules by.now) name.now (catalogue_in self.now)) }
    {
        if !self.files.has(name) {
            return Ok(false);
        }
        let depended = self.files.has_dependent(by, name)?;
        Ok(!depended)
    }

    fn may_add_member(&self, entry: &Entry, file: &Name, name: &Name) -> bool
        ensures { result ≡ may_add_member file.now name.now entry.now (catalogue_in self.now) }
    {
        self.files.has_physical(file)
            && self.is_next_member(entry.member)
            && !self.members.has_name(file, name)
    }

    fn is_of_member(&self, entry: &Entry) -> bool
        ensures { result ≡ is_of_member entry.now (catalogue_in self.now) }
    {
        match entry.member {
            None => false,
            Some(number) => self.members.numbered(number).is_some(),
        }
    }

    fn follows(&self, entry: &Entry, act: &MemberAct) -> bool
        requires { act_of act.now ≡ member_act entry.now.kind self.now.begun entry.now }
        ensures { result ≡ follows_by entry.now.kind self.now entry.now }
    {
        let number = named(entry.member);
        let cycle = cycle_of(entry.group);
        match &entry.kind {
            EntryKind::FileCreated { .. } => true,
            EntryKind::FileDeleted { .. } => true,
            EntryKind::MemberAdded { .. } => true,
            EntryKind::JournalingStarted { .. } => self.may_act(number, act),
            EntryKind::InitialSlot { .. } => self.may_act(number, act),
            EntryKind::JournalingEnded => self.may_act(number, act),
            EntryKind::MemberCleared => self.may_act(number, act),
            EntryKind::MemberReorganized => self.may_act(number, act),
            EntryKind::ChangesApplied { .. } => true,
            EntryKind::ChangesRemoved { .. } => true,
            EntryKind::RecordAdded { .. } => self.may_act(number, act),
            EntryKind::RecordAddedAtNumber { .. } => self.may_act(number, act),
            EntryKind::BeforeImage { .. } => true,
            EntryKind::AfterImage { .. } => self.may_act(number, act),
            EntryKind::RecordDeleted { .. } => self.may_act(number, act),
            EntryKind::UndoBeforeImage { .. } => true,
            EntryKind::UndoAfterImage { .. } => self.may_act(number, act),
            EntryKind::UndoDelete { .. } => self.may_act(number, act),
            EntryKind::CommitmentStarted { .. } => true,
            EntryKind::CommitCycleStarted => self.is_next(cycle),
            EntryKind::CommitCycleCommitted => self.open_cycles.is_open(cycle),
            EntryKind::CommitCycleRolledBack => {
                self.open_cycles.is_open(cycle)
                    && self.open_cycles.are_restored(cycle, &self.members)
            }
            EntryKind::CommitmentEnded => true,
            EntryKind::AbnormalEnd => true,
            EntryKind::NextReceiver { .. } => true,
            EntryKind::PreviousReceiver { .. } => true,
        }
    }

    fn may_act(&self, number: u32, act: &MemberAct) -> bool
        ensures { result ≡ may_act self.now number (act_of act.now) }
    {
        match act {
            MemberAct::ChangeSlot(change) => {
                fits(self.members.slots_of(number), change)
                    && self.is_open(change.cycle)
                    && self
                        .open_cycles
                        .are_apart(number, change.place, change.cycle)
            }
            MemberAct::Journal { .. } => !self.open_cycles.has_member(number),
            MemberAct::Stand { place, .. } => {
                !self.open_cycles.has_member(number)
                    && has_place(self.members.slots_of(number), *place)
            }
            MemberAct::Clear => !self.open_cycles.has_member(number),
            MemberAct::Reorganize => !self.open_cycles.has_member(number),
            MemberAct::EndJournaling => !self.open_cycles.has_member(number),
            MemberAct::Pass => true,
        }
    }
}

/// The member that an entry names. None has the number 0.
fn named(number: Option<u32>) -> u32
    ensures { result ≡ named number }
{
    match number {
        None => 0,
        Some(number) => number,
    }
}
