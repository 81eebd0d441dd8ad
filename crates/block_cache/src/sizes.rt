//! How many bytes the entries of a block have, and whether that are too many.
ghost use Rattle.std.specs.Prelude.{◌≡◌, ◌+◌, ◌<◌, IsTrue, ◌↔◌, length};
ghost use Rattle.block_cache.specs.Sizes.{block_bytes, body_size};

use crate::limits::MOST_BYTES;
use entry_codec::{Entry, EntryKind};
use field_types::texts::Image;

/// The bytes of an entry in front of its body.
const FRONT_BYTES: u64 = 49;

/// Whether the entries have more bytes than those of a block that is kept.
pub fn are_long(entries: &[Entry]) -> bool
    ensures { IsTrue result ↔ (MOST_BYTES < block_bytes entries.now) }
{
    let mut left = MOST_BYTES as u64;
    for entry in entries {
        let bytes = entry_size(entry);
        if left < bytes {
            return true;
        }
        left -= bytes;
    }
    false
}

/// The bytes of the entry in a block.
fn entry_size(entry: &Entry) -> u64
    ensures { result ≡ 49 + body_size entry.now.kind }
{
    FRONT_BYTES + body_size(&entry.kind)
}

/// The bytes of the body of an entry.
pub fn body_size(kind: &EntryKind) -> u64
    ensures size { result ≡ body_size kind.now }
    ensures few { result < 9223372036854775824 }
{
    match kind {
        EntryKind::FileCreated {
            kind: _,
            name: _,
            source,
        } => 15 + source.as_bytes().len() as u64,
        EntryKind::FileDeleted { name: _ } => 10,
        EntryKind::MemberAdded { file: _, name: _ } => 20,
        EntryKind::JournalingStarted {
            images: _,
            slots: _,
        } => 5,
        EntryKind::ChangesApplied {
            first: _,
            last: _,
            changes: _,
        }
        | EntryKind::ChangesRemoved {
            first: _,
            last: _,
            changes: _,
        } => 20,
        EntryKind::InitialSlot { image }
        | EntryKind::RecordAdded { image }
        | EntryKind::RecordAddedAtNumber { image }
        | EntryKind::BeforeImage { image }
        | EntryKind::AfterImage {
            has_before: _,
            image,
        }
        | EntryKind::UndoBeforeImage { image }
        | EntryKind::UndoAfterImage {
            has_before: _,
            image,
        }
        | EntryKind::UndoDelete { image } => image_size(image),
        EntryKind::RecordDeleted { before } => match before {
            Some(image) => image_size(image),
            None => 1,
        },
        EntryKind::CommitmentStarted { level: _ } => 1,
        EntryKind::NextReceiver { number: _ } | EntryKind::PreviousReceiver { number: _ } => 4,
        EntryKind::JournalingEnded
        | EntryKind::MemberCleared
        | EntryKind::MemberReorganized
        | EntryKind::CommitCycleStarted
        | EntryKind::CommitCycleCommitted
        | EntryKind::CommitCycleRolledBack
        | EntryKind::CommitmentEnded
        | EntryKind::AbnormalEnd => 0,
    }
}

fn image_size(image: &Image) -> u64
    ensures size { result ≡ 1 + length image.now }
    ensures few { result < 9223372036854775824 }
{
    1 + image.as_bytes().len() as u64
}
