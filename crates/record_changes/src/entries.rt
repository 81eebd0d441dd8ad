//! The entries of a changed slot, and of the commit cycle that begins with it.
ghost use Rattle.std.specs.Prelude.{◌≡◌, ◌+◌, ◌≤◌, [], ◌∷◌, ◌++◌, length};
ghost use Rattle.member_slots.specs.declared.slot.Slot.TheVariants.{Live, Deleted};
ghost use Rattle.library_steps.specs.declared.limits.TheConstants.{LAST_SEQUENCE};
ghost use Rattle.library_steps.specs.State.{memory_of};
ghost use Rattle.library_steps.specs.Drafts.{added, record_draft};
ghost use Rattle.memory_journal.specs.declared.journal.TheConstants.{LAST_BEFORE_DEPOSIT};
ghost use Rattle.library_parts.specs.Deposits.{with_drafts};
ghost use Rattle.record_changes.specs.Changes.{drafts_by, started};

use entry_codec::EntryKind;
use field_types::texts::Image;
use library_parts::{Author, Contents};
use member_slots::slot::Slot;

/// Of which record the entries are, and how it is changed.
#[derive(Drop)]
pub(crate) struct ChangeEntries {
    pub(crate) author: Author,
    /// The commit cycle that begins with the change.
    pub(crate) start: Option<u64>,
    /// The commit cycle that the change belongs to.
    pub(crate) cycle: Option<u64>,
    pub(crate) member: u32,
    pub(crate) rrn: u32,
    /// The images before changes are kept too.
    pub(crate) both: bool,
    /// The place is the one behind the member's last.
    pub(crate) behind_last: bool,
}

impl ChangeEntries {
    /// Deposits the entries of a slot that became another, behind the start of the commit cycle that begins with them.
    pub(crate) fn deposit(&self, contents: &mut Contents, old: Slot, new: Slot)
        requires room { length (started self.now.author self.now.start) + 2 ≤ contents.old.room.entries }
        requires left { (memory_of contents.old.state).last_entry ≤ LAST_SEQUENCE }
        ensures { contents.new.state ≡ with_drafts contents.old.state (started self.now.author self.now.start ++ drafts_by self.now old new) }
    {
        self.deposit_start(contents);
        self.deposit_slot(contents, old, new);
    }

    fn deposit_start(&self, contents: &mut Contents)
        requires room { length (started self.now.author self.now.start) ≤ contents.old.room.entries }
        requires left { (memory_of contents.old.state).last_entry ≤ LAST_SEQUENCE }
        ensures state { contents.new.state ≡ with_drafts contents.old.state (started self.now.author self.now.start) }
        ensures last { (memory_of contents.new.state).last_entry ≤ (memory_of contents.old.state).last_entry + 1 }
        ensures room { contents.old.room.entries ≤ contents.new.room.entries + length (started self.now.author self.now.start) }
    {
        if let Some(cycle) = self.start {
            let draft = self
                .author
                .cycle_draft(cycle, EntryKind::CommitCycleStarted);
            let _sequence = contents.deposit(draft);
        }
    }

    fn deposit_slot(&self, contents: &mut Contents, old: Slot, new: Slot)
        requires room { 2 ≤ contents.old.room.entries }
        requires left { (memory_of contents.old.state).last_entry + 1 ≤ LAST_BEFORE_DEPOSIT }
        ensures { contents.new.state ≡ with_drafts contents.old.state (drafts_by self.now old new) }
    {
        match old {
            Slot::Live(before) => self.deposit_changed(contents, before, new),
            Slot::Deleted => self.deposit_added(contents, new),
        }
    }

    fn deposit_changed(&self, contents: &mut Contents, before: Image, new: Slot)
        requires room { 2 ≤ contents.old.room.entries }
        requires left { (memory_of contents.old.state).last_entry + 1 ≤ LAST_BEFORE_DEPOSIT }
        ensures { contents.new.state ≡ with_drafts contents.old.state (drafts_by self.now (Live before) new) }
    {
        match new {
            Slot::Live(after) => self.deposit_updated(contents, before, after),
            Slot::Deleted => {
                let before = if self.both { Some(before) } else { None };
                self.deposit_kind(contents, EntryKind::RecordDeleted { before });
            }
        }
    }

    fn deposit_updated(&self, contents: &mut Contents, before: Image, after: Image)
        requires room { 2 ≤ contents.old.room.entries }
        requires left { (memory_of contents.old.state).last_entry + 1 ≤ LAST_BEFORE_DEPOSIT }
        ensures { contents.new.state ≡ with_drafts contents.old.state (drafts_by self.now (Live before) (Live after)) }
    {
        if self.both {
            self.deposit_kind(contents, EntryKind::BeforeImage { image: before });
        }
        self.deposit_kind(
            contents,
            EntryKind::AfterImage {
                has_before: self.both,
                image: after,
            },
        );
    }

    fn deposit_added(&self, contents: &mut Contents, new: Slot)
        requires room { 1 ≤ contents.old.room.entries }
        requires left { (memory_of contents.old.state).last_entry + 1 ≤ LAST_BEFORE_DEPOSIT }
        ensures { contents.new.state ≡ with_drafts contents.old.state (drafts_by self.now Deleted new) }
    {
        if let Slot::Live(image) = new {
            self.deposit_kind(contents, added(self.behind_last, image));
        }
    }

    fn deposit_kind(&self, contents: &mut Contents, kind: EntryKind)
        requires room { 1 ≤ contents.old.room.entries }
        requires left { (memory_of contents.old.state).last_entry ≤ LAST_BEFORE_DEPOSIT }
        ensures state { contents.new.state ≡ with_drafts contents.old.state (record_draft self.now.author self.now.cycle self.now.member self.now.rrn kind ∷ []) }
        ensures room { contents.old.room.entries ≤ contents.new.room.entries + 1 }
    {
        let draft = self
            .author
            .record_draft(self.cycle, self.member, self.rrn, kind);
        let _sequence = contents.deposit(draft);
    }
}

/// A record that is added.
fn added(behind_last: bool, image: Image) -> EntryKind
    ensures { result ≡ added behind_last image }
{
    if behind_last {
        EntryKind::RecordAdded { image }
    } else {
        EntryKind::RecordAddedAtNumber { image }
    }
}
