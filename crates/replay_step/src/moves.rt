//! What becomes of what is left, by an entry that may come.
ghost use Rattle.std.specs.Prelude.{◌≡◌, ◌++◌, ◌∷◌, [], Some, true, is_none, IfOk, OnOk};
ghost use Rattle.std.specs.List.{find, list_all};
ghost use Rattle.journal_model.specs.Acts.{Changed, cycle_of};
ghost use Rattle.journal_model.specs.Catalogue.{is_named};
ghost use Rattle.replay_files.specs.Files.{catalog_file};
ghost use Rattle.journal_replay.specs.MemberActs.{act_of};
ghost use Rattle.replay_step.specs.Moves.{acted, noted_by, open_by, open_in, first_is_next, first_member, made_at, makes_next, may_note, names_new, standing_by};
ghost use Rattle.journal_replay.specs.Standing.{begun_by, files_by, left_by, next_after};
ghost use Rattle.journal_replay.specs.Tests.{is_apart};

use crate::replay::Replay;
use entry_codec::{Entry, EntryKind, FileKind};
use field_types::names::Name;
use field_types::texts::SourceText;
use journal_replay::{MemberAct, SlotChange};
use member_slots::slot::Slot;
use open_cycles::OpenChange;
use replay_files::File;
use std::alloc::{AllocError, Global};

impl Replay {
    /// Moves on by an entry that may come, which was read into this act.
    pub(crate) fn move_on(&mut self, entry: &Entry, act: MemberAct) -> Result<(), AllocError>
        requires sequence { entry.now.sequence ≡ self.old.next }
        requires named { names_new entry.now.kind self.old.files ≡ true }
        requires numbered { makes_next entry.now.kind entry.now.member self.old.next_member ≡ true }
        requires apart { may_note entry.now.member (act_of act) self.old.undos ≡ true }
        ensures { OnOk result (self.new ≡ standing_by entry.now (act_of act) self.old) }
    {
        let begun = begun_by(self.alloc, entry)?;
        self.move_open(entry, &act)?;
        self.move_files(entry)?;
        self.take(entry, act)?;
        self.move_members(entry)?;
        self.last = entry.sequence;
        self.begun = begun;
        Ok(())
    }

    /// The commit cycle that begins or ends, and the change that one made.
    fn move_open(&mut self, entry: &Entry, act: &MemberAct) -> Result<(), AllocError>
        requires { may_note entry.now.member (act_of act.now) self.old.undos ≡ true }
        ensures { OnOk result (self.new ≡ record self.old { cycles = (open_by entry.now.kind entry.now.member entry.now.group (act_of act.now) (open_in self.old)).cycles; undos = (open_by entry.now.kind entry.now.member entry.now.group (act_of act.now) (open_in self.old)).undos }) }
    {
        let cycle = cycle_of(entry.group);
        match &entry.kind {
            EntryKind::FileCreated { .. } => self.note(entry.member, act),
            EntryKind::FileDeleted { .. } => self.note(entry.member, act),
            EntryKind::MemberAdded { .. } => self.note(entry.member, act),
            EntryKind::JournalingStarted { .. } => self.note(entry.member, act),
            EntryKind::InitialSlot { .. } => self.note(entry.member, act),
            EntryKind::JournalingEnded => self.note(entry.member, act),
            EntryKind::MemberCleared => self.note(entry.member, act),
            EntryKind::MemberReorganized => self.note(entry.member, act),
            EntryKind::ChangesApplied { .. } => self.note(entry.member, act),
            EntryKind::ChangesRemoved { .. } => self.note(entry.member, act),
            EntryKind::RecordAdded { .. } => self.note(entry.member, act),
            EntryKind::RecordAddedAtNumber { .. } => self.note(entry.member, act),
            EntryKind::BeforeImage { .. } => self.note(entry.member, act),
            EntryKind::AfterImage { .. } => self.note(entry.member, act),
            EntryKind::RecordDeleted { .. } => self.note(entry.member, act),
            EntryKind::UndoBeforeImage { .. } => self.note(entry.member, act),
            EntryKind::UndoAfterImage { .. } => self.note(entry.member, act),
            EntryKind::UndoDelete { .. } => self.note(entry.member, act),
            EntryKind::CommitmentStarted { .. } => self.note(entry.member, act),
            EntryKind::CommitCycleStarted => self.open_cycles.begin(cycle),
            EntryKind::CommitCycleCommitted => {
                self.open_cycles.end(cycle);
                Ok(())
            }
            EntryKind::CommitCycleRolledBack => {
                self.open_cycles.end(cycle);
                Ok(())
            }
            EntryKind::CommitmentEnded => self.note(entry.member, act),
            EntryKind::AbnormalEnd => self.note(entry.member, act),
            EntryKind::NextReceiver { .. } => self.note(entry.member, act),
            EntryKind::PreviousReceiver { .. } => self.note(entry.member, act),
        }
    }

    /// Keeps the change of the member, where a commit cycle made it.
    fn note(&mut self, number: Option<u32>, act: &MemberAct) -> Result<(), AllocError>
        requires { may_note number (act_of act.now) self.old.undos ≡ true }
        ensures { OnOk result (self.new ≡ record self.old { undos = noted_by number (act_of act.now) self.old.undos }) }
    {
        let Some(member) = number else {
            return Ok(());
        };
        match act {
            MemberAct::ChangeSlot(change) => self.note_change(member, change),
            MemberAct::Journal { .. } => Ok(()),
            MemberAct::Stand { .. } => Ok(()),
            MemberAct::Clear => Ok(()),
            MemberAct::Reorganize => Ok(()),
            MemberAct::EndJournaling => Ok(()),
            MemberAct::Pass => Ok(()),
        }
    }

    fn note_change(&mut self, member: u32, change: &SlotChange) -> Result<(), AllocError>
        requires { list_all (is_apart member change.now.place change.now.cycle) self.old.undos ≡ true }
        ensures { OnOk result (self.new ≡ record self.old { undos = noted_by (Some member) (Changed change.now) self.old.undos }) }
    {
        let Some(cycle) = change.cycle else {
            return Ok(());
        };
        let noted = OpenChange {
            member,
            place: change.place,
            cycle,
            before: self.copied_slot(&change.before)?,
            after: change.after.copied(self.alloc)?,
        };
        self.open_cycles.note(noted)
    }

    fn copied_slot(&self, slot: &Option<Slot>) -> Result<Option<Slot>, AllocError>
        ensures { IfOk result (λ copy. copy ≡ slot.now) }
    {
        match slot {
            None => Ok(None),
            Some(slot) => Ok(Some(slot.copied(self.alloc)?)),
        }
    }

    /// The files that are made and deleted.
    fn move_files(&mut self, entry: &Entry) -> Result<(), AllocError>
        requires { names_new entry.now.kind self.old.files ≡ true }
        ensures { OnOk result (self.new ≡ record self.old { files = files_by entry.now.kind entry.now self.old.files }) }
    {
        match &entry.kind {
            EntryKind::FileCreated { kind, name, source } => self.make_file(
                entry, *kind, *name, source,
            ),
            EntryKind::FileDeleted { name } => {
                self.files.remove(name);
                Ok(())
            }
            EntryKind::MemberAdded { .. } => Ok(()),
            EntryKind::JournalingStarted { .. } => Ok(()),
            EntryKind::InitialSlot { .. } => Ok(()),
            EntryKind::JournalingEnded => Ok(()),
            EntryKind::MemberCleared => Ok(()),
            EntryKind::MemberReorganized => Ok(()),
            EntryKind::ChangesApplied { .. } => Ok(()),
            EntryKind::ChangesRemoved { .. } => Ok(()),
            EntryKind::RecordAdded { .. } => Ok(()),
            EntryKind::RecordAddedAtNumber { .. } => Ok(()),
            EntryKind::BeforeImage { .. } => Ok(()),
            EntryKind::AfterImage { .. } => Ok(()),
            EntryKind::RecordDeleted { .. } => Ok(()),
            EntryKind::UndoBeforeImage { .. } => Ok(()),
            EntryKind::UndoAfterImage { .. } => Ok(()),
            EntryKind::UndoDelete { .. } => Ok(()),
            EntryKind::CommitmentStarted { .. } => Ok(()),
            EntryKind::CommitCycleStarted => Ok(()),
            EntryKind::CommitCycleCommitted => Ok(()),
            EntryKind::CommitCycleRolledBack => Ok(()),
            EntryKind::CommitmentEnded => Ok(()),
            EntryKind::AbnormalEnd => Ok(()),
            EntryKind::NextReceiver { .. } => Ok(()),
            EntryKind::PreviousReceiver { .. } => Ok(()),
        }
    }

    fn make_file(
        &mut self,
        entry: &Entry,
        kind: FileKind,
        name: Name,
        source: &SourceText,
    ) -> Result<(), AllocError>
        requires { is_none (find (is_named name) self.old.files) ≡ true }
        ensures { OnOk result (self.new ≡ record self.old { files = self.old.files ++ catalog_file (name, record { created = entry.now.sequence; kind = kind; source = source.now }) ∷ [] }) }
    {
        let file = File {
            created: entry.sequence,
            kind,
            source: source.copied(self.alloc)?,
        };
        self.files.add(name, file)
    }

    /// The members that are made and deleted.
    fn move_members(&mut self, entry: &Entry) -> Result<(), AllocError>
        requires { makes_next entry.now.kind entry.now.member self.old.next_member ≡ true }
        ensures { OnOk result (self.new ≡ record self.old { members = left_by entry.now.kind self.old.members ++ made_at entry.now.kind self.old.next_member; next_member = next_after self.old.next_member (made_at entry.now.kind self.old.next_member) }) }
    {
        match &entry.kind {
            EntryKind::FileCreated { kind, name, .. } => self.make_first(entry, *kind, *name),
            EntryKind::FileDeleted { name } => {
                self.members.remove_of(name);
                Ok(())
            }
            EntryKind::MemberAdded { file, name } => self.members.add(self.alloc, *file, *name),
            EntryKind::JournalingStarted { .. } => Ok(()),
            EntryKind::InitialSlot { .. } => Ok(()),
            EntryKind::JournalingEnded => Ok(()),
            EntryKind::MemberCleared => Ok(()),
            EntryKind::MemberReorganized => Ok(()),
            EntryKind::ChangesApplied { .. } => Ok(()),
            EntryKind::ChangesRemoved { .. } => Ok(()),
            EntryKind::RecordAdded { .. } => Ok(()),
            EntryKind::RecordAddedAtNumber { .. } => Ok(()),
            EntryKind::BeforeImage { .. } => Ok(()),
            EntryKind::AfterImage { .. } => Ok(()),
            EntryKind::RecordDeleted { .. } => Ok(()),
            EntryKind::UndoBeforeImage { .. } => Ok(()),
            EntryKind::UndoAfterImage { .. } => Ok(()),
            EntryKind::UndoDelete { .. } => Ok(()),
            EntryKind::CommitmentStarted { .. } => Ok(()),
            EntryKind::CommitCycleStarted => Ok(()),
            EntryKind::CommitCycleCommitted => Ok(()),
            EntryKind::CommitCycleRolledBack => Ok(()),
            EntryKind::CommitmentEnded => Ok(()),
            EntryKind::AbnormalEnd => Ok(()),
            EntryKind::NextReceiver { .. } => Ok(()),
            EntryKind::PreviousReceiver { .. } => Ok(()),
        }
    }

    /// A physical file has a member of its own name from the beginning.
    fn make_first(&mut self, entry: &Entry, kind: FileKind, name: Name) -> Result<(), AllocError>
        requires { first_is_next kind entry.now.member self.old.next_member ≡ true }
        ensures { OnOk result (self.new ≡ record self.old { members = self.old.members ++ first_member kind self.old.next_member name; next_member = next_after self.old.next_member (first_member kind self.old.next_member name) }) }
    {
        match kind {
            FileKind::Physical => self.members.add(self.alloc, name, name),
            FileKind::Logical => Ok(()),
        }
    }

    /// What the act makes of the member that the entry names.
    fn take(&mut self, entry: &Entry, act: MemberAct) -> Result<(), AllocError>
        ensures { OnOk result (self.new ≡ record self.old { members = acted entry.now.member (act_of act) entry.now.sequence self.old.members }) }
    {
        match entry.member {
            None => Ok(()),
            Some(number) => self.members.take(self.alloc, number, act, entry.sequence),
        }
    }
}

/// A copy of the entry, where it begins a pair of images.
fn begun_by(alloc: Global, entry: &Entry) -> Result<Option<Entry>, AllocError>
    ensures { IfOk result (λ begun. begun ≡ begun_by (Some entry.now)) }
{
    match &entry.kind {
        EntryKind::FileCreated { .. } => Ok(None),
        EntryKind::FileDeleted { .. } => Ok(None),
        EntryKind::MemberAdded { .. } => Ok(None),
        EntryKind::JournalingStarted { .. } => Ok(None),
        EntryKind::InitialSlot { .. } => Ok(None),
        EntryKind::JournalingEnded => Ok(None),
        EntryKind::MemberCleared => Ok(None),
        EntryKind::MemberReorganized => Ok(None),
        EntryKind::ChangesApplied { .. } => Ok(None),
        EntryKind::ChangesRemoved { .. } => Ok(None),
        EntryKind::RecordAdded { .. } => Ok(None),
        EntryKind::RecordAddedAtNumber { .. } => Ok(None),
        EntryKind::BeforeImage { image } => Ok(Some(with_kind(
            entry,
            EntryKind::BeforeImage {
                image: image.copied(alloc)?,
            },
        ))),
        EntryKind::AfterImage { .. } => Ok(None),
        EntryKind::RecordDeleted { .. } => Ok(None),
        EntryKind::UndoBeforeImage { image } => Ok(Some(with_kind(
            entry,
            EntryKind::UndoBeforeImage {
                image: image.copied(alloc)?,
            },
        ))),
        EntryKind::UndoAfterImage { .. } => Ok(None),
        EntryKind::UndoDelete { .. } => Ok(None),
        EntryKind::CommitmentStarted { .. } => Ok(None),
        EntryKind::CommitCycleStarted => Ok(None),
        EntryKind::CommitCycleCommitted => Ok(None),
        EntryKind::CommitCycleRolledBack => Ok(None),
        EntryKind::CommitmentEnded => Ok(None),
        EntryKind::AbnormalEnd => Ok(None),
        EntryKind::NextReceiver { .. } => Ok(None),
        EntryKind::PreviousReceiver { .. } => Ok(None),
    }
}

fn with_kind(entry: &Entry, kind: EntryKind) -> Entry
    ensures { result ≡ record entry.now { kind = kind } }
{
    Entry {
        sequence: entry.sequence,
        job: entry.job,
        moment: entry.moment,
        group: entry.group,
        member: entry.member,
        rrn: entry.rrn,
        kind,
    }
}

/// The commit cycle that an entry names.
pub(crate) fn cycle_of(group: Option<u64>) -> u64
    ensures { result ≡ cycle_of group }
{
    match group {
        None => 0,
        Some(cycle) => cycle,
    }
}
