//! How many bytes drafts come to as entries of the journal.
ghost use Rattle.std.specs.Prelude.{◌≡◌, ◌+◌, ◌<◌, length, min};
ghost use Rattle.library_steps.specs.EntrySizes.{body_size};
ghost use Rattle.parts_model.specs.Sizes.{draft_bytes, draft_size};

use entry_codec::{Draft, EntryKind};
use field_types::texts::Image;

/// The bytes of an entry in front of its body.
const FRONT_BYTES: u64 = 49;

/// The bytes of the body of an entry.
pub fn body_size(kind: &EntryKind) -> u64
    ensures size { result ≡ body_size kind.now }
    ensures few { result < 9223372036854775824 }
{
    match kind {
        EntryKind::FileCreated {
            kind: _,
            name: _,
            source,
        } => 15 + source.as_bytes().len() as u64,
        EntryKind::FileDeleted { name: _ } => 10,
        EntryKind::MemberAdded { file: _, name: _ } => 20,
        EntryKind::JournalingStarted {
            images: _,
            slots: _,
        } => 5,
        EntryKind::ChangesApplied {
            first: _,
            last: _,
            changes: _,
        }
        | EntryKind::ChangesRemoved {
            first: _,
            last: _,
            changes: _,
        } => 20,
        EntryKind::InitialSlot { image }
        | EntryKind::RecordAdded { image }
        | EntryKind::RecordAddedAtNumber { image }
        | EntryKind::BeforeImage { image }
        | EntryKind::AfterImage {
            has_before: _,
            image,
        }
        | EntryKind::UndoBeforeImage { image }
        | EntryKind::UndoAfterImage {
            has_before: _,
            image,
        }
        | EntryKind::UndoDelete { image } => image_size(image),
        EntryKind::RecordDeleted { before } => match before {
            Some(image) => image_size(image),
            None => 1,
        },
        EntryKind::CommitmentStarted { level: _ } => 1,
        EntryKind::NextReceiver { number: _ } | EntryKind::PreviousReceiver { number: _ } => 4,
        EntryKind::JournalingEnded
        | EntryKind::MemberCleared
        | EntryKind::MemberReorganized
        | EntryKind::CommitCycleStarted
        | EntryKind::CommitCycleCommitted
        | EntryKind::CommitCycleRolledBack
        | EntryKind::CommitmentEnded
        | EntryKind::AbnormalEnd => 0,
    }
}

fn image_size(image: &Image) -> u64
    ensures size { result ≡ 1 + length image.now }
    ensures few { result < 9223372036854775824 }
{
    1 + image.as_bytes().len() as u64
}

/// The bytes of the draft as an entry.
pub fn draft_size(draft: &Draft) -> u64
    ensures size { result ≡ draft_size draft.now }
    ensures few { result < 9223372036854775873 }
{
    FRONT_BYTES + body_size(&draft.kind)
}

/// The bytes of all these drafts, at most the greatest number.
pub fn bytes_of(drafts: &[Draft]) -> u64
    ensures { result ≡ min (draft_bytes drafts.now) 18446744073709551615 }
{
    let mut total: u64 = 0;
    for draft in drafts {
        total = total.saturating_add(draft_size(draft));
    }
    total
}
