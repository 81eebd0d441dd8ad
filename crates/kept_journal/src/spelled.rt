//! Whether an entry can be written in the journal's bytes, and whether it ties receivers.
ghost use Rattle.std.specs.Prelude.{◌≡◌, true, IsTrue};
ghost use Rattle.journal_book.specs.Entries.{IsInside};
ghost use Rattle.entry_codec.specs.Placing.{is_absent, is_counted, is_placed, is_present};
ghost use Rattle.entry_codec.specs.Spelling.{HasSpelling, HoldsFields, IsImage};

use entry_codec::{Entry, EntryKind, FileKind, MAX_RECORD_LENGTH, MIN_RECORD_LENGTH};
use field_types::texts::Image;

/// Whether the entry has a spelling.
pub(crate) fn has_spelling(entry: &Entry) -> bool
    ensures { result ≡ true → HasSpelling entry.now }
{
    is_placed(entry) && holds_fields(&entry.kind)
}

/// Whether the entry names a group, a member and a record as its kind wants.
fn is_placed(entry: &Entry) -> bool
    ensures { result ≡ is_placed entry.now }
{
    let in_library = entry.member.is_none() && entry.rrn.is_none();
    let in_member = matches!(entry.member, Some(1..)) && entry.rrn.is_none();
    let at_record = matches!(entry.member, Some(1..)) && matches!(entry.rrn, Some(1..));
    match &entry.kind {
        EntryKind::FileCreated {
            kind: FileKind::Physical,
            ..
        }
        | EntryKind::MemberAdded { .. }
        | EntryKind::JournalingStarted { .. }
        | EntryKind::JournalingEnded
        | EntryKind::MemberCleared
        | EntryKind::MemberReorganized
        | EntryKind::ChangesApplied { .. }
        | EntryKind::ChangesRemoved { .. } => entry.group.is_none() && in_member,
        EntryKind::FileCreated {
            kind: FileKind::Logical,
            ..
        }
        | EntryKind::FileDeleted { .. }
        | EntryKind::AbnormalEnd
        | EntryKind::NextReceiver { .. }
        | EntryKind::PreviousReceiver { .. } => entry.group.is_none() && in_library,
        EntryKind::InitialSlot { .. } => entry.group.is_none() && at_record,
        EntryKind::RecordAdded { .. }
        | EntryKind::RecordAddedAtNumber { .. }
        | EntryKind::BeforeImage { .. }
        | EntryKind::AfterImage { .. }
        | EntryKind::RecordDeleted { .. }
        | EntryKind::UndoBeforeImage { .. }
        | EntryKind::UndoAfterImage { .. }
        | EntryKind::UndoDelete { .. } => !matches!(entry.group, Some(0)) && at_record,
        EntryKind::CommitmentStarted { .. } | EntryKind::CommitmentEnded => {
            !matches!(entry.group, Some(0)) && in_library
        }
        EntryKind::CommitCycleStarted => {
            matches!(entry.group, Some(own @ 1..) if own == entry.sequence) && in_library
        }
        EntryKind::CommitCycleCommitted | EntryKind::CommitCycleRolledBack => {
            matches!(entry.group, Some(1..)) && in_library
        }
    }
}

/// Whether each image could be a record, and a source isn't too long.
fn holds_fields(kind: &EntryKind) -> bool
    ensures { result ≡ true → HoldsFields kind.now }
{
    match kind {
        EntryKind::FileCreated { source, .. } => (source.as_bytes().len() as u64) < 4_294_967_236,
        EntryKind::InitialSlot { image }
        | EntryKind::RecordAdded { image }
        | EntryKind::RecordAddedAtNumber { image }
        | EntryKind::BeforeImage { image }
        | EntryKind::AfterImage { image, .. }
        | EntryKind::UndoBeforeImage { image }
        | EntryKind::UndoAfterImage { image, .. }
        | EntryKind::UndoDelete { image } => is_image(image),
        EntryKind::RecordDeleted { before } => match before {
            Some(image) => is_image(image),
            None => true,
        },
        EntryKind::FileDeleted { .. }
        | EntryKind::MemberAdded { .. }
        | EntryKind::JournalingStarted { .. }
        | EntryKind::JournalingEnded
        | EntryKind::MemberCleared
        | EntryKind::MemberReorganized
        | EntryKind::ChangesApplied { .. }
        | EntryKind::ChangesRemoved { .. }
        | EntryKind::CommitmentStarted { .. }
        | EntryKind::CommitCycleStarted
        | EntryKind::CommitCycleCommitted
        | EntryKind::CommitCycleRolledBack
        | EntryKind::CommitmentEnded
        | EntryKind::AbnormalEnd
        | EntryKind::NextReceiver { .. }
        | EntryKind::PreviousReceiver { .. } => true,
    }
}

fn is_image(image: &Image) -> bool
    ensures { result ≡ true → IsImage image.now }
{
    let length = image.as_bytes().len();
    MIN_RECORD_LENGTH <= length && length <= MAX_RECORD_LENGTH
}

/// Whether the entry is one that neither ends a receiver nor begins one.
pub(crate) fn is_inside(entry: &Entry) -> bool
    ensures { result ≡ true → IsInside entry.now }
{
    match &entry.kind {
        EntryKind::NextReceiver { .. } | EntryKind::PreviousReceiver { .. } => false,
        EntryKind::FileCreated { .. }
        | EntryKind::FileDeleted { .. }
        | EntryKind::MemberAdded { .. }
        | EntryKind::JournalingStarted { .. }
        | EntryKind::InitialSlot { .. }
        | EntryKind::JournalingEnded
        | EntryKind::MemberCleared
        | EntryKind::MemberReorganized
        | EntryKind::ChangesApplied { .. }
        | EntryKind::ChangesRemoved { .. }
        | EntryKind::RecordAdded { .. }
        | EntryKind::RecordAddedAtNumber { .. }
        | EntryKind::BeforeImage { .. }
        | EntryKind::AfterImage { .. }
        | EntryKind::RecordDeleted { .. }
        | EntryKind::UndoBeforeImage { .. }
        | EntryKind::UndoAfterImage { .. }
        | EntryKind::UndoDelete { .. }
        | EntryKind::CommitmentStarted { .. }
        | EntryKind::CommitCycleStarted
        | EntryKind::CommitCycleCommitted
        | EntryKind::CommitCycleRolledBack
        | EntryKind::CommitmentEnded
        | EntryKind::AbnormalEnd => true,
    }
}
