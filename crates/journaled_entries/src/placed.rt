//! What an entry names, and whether a library may have deposited it. The definitions are in specs/Deposited.antt.
ghost use Rattle.std.specs.Prelude.{◌≡◌};
ghost use Rattle.entry_codec.specs.Placing.{is_placed, is_placed_at, place, place_of_file};
ghost use Rattle.entry_codec.specs.declared.places.Place.TheVariants.{Library, Member, Slot, Record, Commitment, CycleStart, CycleEnd};
ghost use Rattle.journaled_entries.specs.Deposited.{is_of_record};

use entry_codec::{Entry, EntryKind, FileKind};

/// Whether an entry of this kind is of a record.
pub fn is_of_record(kind: &EntryKind) -> bool
    ensures { result ≡ is_of_record (place kind.now) }
{
    match kind {
        EntryKind::FileCreated { kind, .. } => is_file_of_record(*kind),
        EntryKind::FileDeleted { .. } => false,
        EntryKind::MemberAdded { .. } => false,
        EntryKind::JournalingStarted { .. } => false,
        EntryKind::InitialSlot { .. } => true,
        EntryKind::JournalingEnded => false,
        EntryKind::MemberCleared => false,
        EntryKind::MemberReorganized => false,
        EntryKind::ChangesApplied { .. } => false,
        EntryKind::ChangesRemoved { .. } => false,
        EntryKind::RecordAdded { .. } => true,
        EntryKind::RecordAddedAtNumber { .. } => true,
        EntryKind::BeforeImage { .. } => true,
        EntryKind::AfterImage { .. } => true,
        EntryKind::RecordDeleted { .. } => true,
        EntryKind::UndoBeforeImage { .. } => true,
        EntryKind::UndoAfterImage { .. } => true,
        EntryKind::UndoDelete { .. } => true,
        EntryKind::CommitmentStarted { .. } => false,
        EntryKind::CommitCycleStarted => false,
        EntryKind::CommitCycleCommitted => false,
        EntryKind::CommitCycleRolledBack => false,
        EntryKind::CommitmentEnded => false,
        EntryKind::AbnormalEnd => false,
        EntryKind::NextReceiver { .. } => false,
        EntryKind::PreviousReceiver { .. } => false,
    }
}

/// No file is a record.
fn is_file_of_record(kind: FileKind) -> bool
    ensures { result ≡ is_of_record (place_of_file kind) }
{
    match kind {
        FileKind::Physical => false,
        FileKind::Logical => false,
    }
}

/// Whether it names a commit cycle, a member and a record as its kind wants.
pub fn is_placed(entry: &Entry) -> bool
    ensures { result ≡ is_placed entry.now }
{
    match &entry.kind {
        EntryKind::FileCreated { kind, .. } => is_file_placed(*kind, entry),
        EntryKind::FileDeleted { .. } => is_in_library(entry),
        EntryKind::MemberAdded { .. } => is_in_member(entry),
        EntryKind::JournalingStarted { .. } => is_in_member(entry),
        EntryKind::InitialSlot { .. } => is_at_slot(entry),
        EntryKind::JournalingEnded => is_in_member(entry),
        EntryKind::MemberCleared => is_in_member(entry),
        EntryKind::MemberReorganized => is_in_member(entry),
        EntryKind::ChangesApplied { .. } => is_in_member(entry),
        EntryKind::ChangesRemoved { .. } => is_in_member(entry),
        EntryKind::RecordAdded { .. } => is_at_record(entry),
        EntryKind::RecordAddedAtNumber { .. } => is_at_record(entry),
        EntryKind::BeforeImage { .. } => is_at_record(entry),
        EntryKind::AfterImage { .. } => is_at_record(entry),
        EntryKind::RecordDeleted { .. } => is_at_record(entry),
        EntryKind::UndoBeforeImage { .. } => is_at_record(entry),
        EntryKind::UndoAfterImage { .. } => is_at_record(entry),
        EntryKind::UndoDelete { .. } => is_at_record(entry),
        EntryKind::CommitmentStarted { .. } => is_of_commitment(entry),
        EntryKind::CommitCycleStarted => begins_cycle(entry),
        EntryKind::CommitCycleCommitted => ends_cycle(entry),
        EntryKind::CommitCycleRolledBack => ends_cycle(entry),
        EntryKind::CommitmentEnded => is_of_commitment(entry),
        EntryKind::AbnormalEnd => is_in_library(entry),
        EntryKind::NextReceiver { .. } => is_in_library(entry),
        EntryKind::PreviousReceiver { .. } => is_in_library(entry),
    }
}

/// A physical file is created with its first member.
fn is_file_placed(kind: FileKind, entry: &Entry) -> bool
    ensures { result ≡ is_placed_at (place_of_file kind) entry.now.sequence entry.now.group entry.now.member entry.now.rrn }
{
    match kind {
        FileKind::Physical => is_in_member(entry),
        FileKind::Logical => is_in_library(entry),
    }
}

fn is_in_library(entry: &Entry) -> bool
    ensures { result ≡ is_placed_at Library entry.now.sequence entry.now.group entry.now.member entry.now.rrn }
{
    entry.group.is_none() && entry.member.is_none() && entry.rrn.is_none()
}

fn is_in_member(entry: &Entry) -> bool
    ensures { result ≡ is_placed_at Member entry.now.sequence entry.now.group entry.now.member entry.now.rrn }
{
    entry.group.is_none() && matches!(entry.member, Some(1..)) && entry.rrn.is_none()
}

fn is_at_slot(entry: &Entry) -> bool
    ensures { result ≡ is_placed_at Slot entry.now.sequence entry.now.group entry.now.member entry.now.rrn }
{
    entry.group.is_none() && matches!(entry.member, Some(1..)) && matches!(entry.rrn, Some(1..))
}

fn is_at_record(entry: &Entry) -> bool
    ensures { result ≡ is_placed_at Record entry.now.sequence entry.now.group entry.now.member entry.now.rrn }
{
    !matches!(entry.group, Some(0))
        && matches!(entry.member, Some(1..))
        && matches!(entry.rrn, Some(1..))
}

fn is_of_commitment(entry: &Entry) -> bool
    ensures { result ≡ is_placed_at Commitment entry.now.sequence entry.now.group entry.now.member entry.now.rrn }
{
    !matches!(entry.group, Some(0)) && entry.member.is_none() && entry.rrn.is_none()
}

fn begins_cycle(entry: &Entry) -> bool
    ensures { result ≡ is_placed_at CycleStart entry.now.sequence entry.now.group entry.now.member entry.now.rrn }
{
    matches!(entry.group, Some(own @ 1..) if own == entry.sequence)
        && entry.member.is_none()
        && entry.rrn.is_none()
}

fn ends_cycle(entry: &Entry) -> bool
    ensures { result ≡ is_placed_at CycleEnd entry.now.sequence entry.now.group entry.now.member entry.now.rrn }
{
    matches!(entry.group, Some(1..)) && entry.member.is_none() && entry.rrn.is_none()
}
