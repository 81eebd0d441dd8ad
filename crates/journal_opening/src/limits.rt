//! Whether the member that an entry names is within its limits.
ghost use Rattle.std.specs.Prelude.{◌≡◌, Some, IfOk};
ghost use Rattle.journal_model.specs.Catalogue.{file_named, member_numbered};
ghost use Rattle.journal_model.specs.Journal.{length_in};
ghost use Rattle.journal_replay.specs.Standing.{catalogue_in};
ghost use Rattle.journal_opening.specs.Begins.{begins_too_many};
ghost use Rattle.journal_limits.specs.Fits.{fits_found, fits_named, may_have};

use entry_codec::EntryKind;
use field_types::names::Name;
use member_slots::member::{MOST_BYTES, MOST_SLOTS};
use replay_files::Describe;
use replay_step::Replay;
use std::alloc::AllocError;

/// Whether the member of that number, where there is one, has no more slots and bytes than it may.
pub(crate) fn fits_named<D: Describe>(
    by: &D,
    replay: &Replay,
    number: Option<u32>,
) -> Result<bool, AllocError>
    ensures { IfOk result (λ b. b ≡ fits_named (D.rules by.now) replay.now number) }
{
    match number {
        None => Ok(true),
        Some(number) => fits_numbered(by, replay, number),
    }
}

fn fits_numbered<D: Describe>(by: &D, replay: &Replay, number: u32) -> Result<bool, AllocError>
    ensures { IfOk result (λ b. b ≡ fits_found (D.rules by.now) replay.now number (member_numbered (Some number) (catalogue_in replay.now))) }
{
    let members = replay.members();
    match members.numbered(number) {
        None => Ok(true),
        Some(member) => {
            let bytes = length_named(by, replay, &member.file())?;
            Ok(may_have(bytes, member.slots().len()))
        }
    }
}

/// The bytes of each record of that file, 0 where there is no such file.
fn length_named<D: Describe>(by: &D, replay: &Replay, name: &Name) -> Result<u32, AllocError>
    ensures { IfOk result (λ n. n ≡ length_in (D.rules by.now) (catalogue_in replay.now) (file_named name.now (catalogue_in replay.now))) }
{
    let files = replay.files();
    match files.named(name) {
        None => Ok(0),
        Some(file) => by.record_length(files, &file.source),
    }
}

/// Whether a member may have so many slots of so many bytes each.
fn may_have(bytes: u32, slots: usize) -> bool
    ensures { result ≡ may_have bytes slots }
{
    let many = slots as u64;
    many <= MOST_SLOTS && many * u64::from(bytes) <= MOST_BYTES
}

/// Whether an entry of this kind begins journaling with more slots than a member may have.
pub(crate) fn begins_too_many(kind: &EntryKind) -> bool
    ensures { result ≡ begins_too_many kind.now }
{
    match kind {
        EntryKind::FileCreated { .. } => false,
        EntryKind::FileDeleted { .. } => false,
        EntryKind::MemberAdded { .. } => false,
        EntryKind::JournalingStarted { slots, .. } => u64::from(*slots) > MOST_SLOTS,
        EntryKind::InitialSlot { .. } => false,
        EntryKind::JournalingEnded => false,
        EntryKind::MemberCleared => false,
        EntryKind::MemberReorganized => false,
        EntryKind::ChangesApplied { .. } => false,
        EntryKind::ChangesRemoved { .. } => false,
        EntryKind::RecordAdded { .. } => false,
        EntryKind::RecordAddedAtNumber { .. } => false,
        EntryKind::BeforeImage { .. } => false,
        EntryKind::AfterImage { .. } => false,
        EntryKind::RecordDeleted { .. } => false,
        EntryKind::UndoBeforeImage { .. } => false,
        EntryKind::UndoAfterImage { .. } => false,
        EntryKind::UndoDelete { .. } => false,
        EntryKind::CommitmentStarted { .. } => false,
        EntryKind::CommitCycleStarted => false,
        EntryKind::CommitCycleCommitted => false,
        EntryKind::CommitCycleRolledBack => false,
        EntryKind::CommitmentEnded => false,
        EntryKind::AbnormalEnd => false,
        EntryKind::NextReceiver { .. } => false,
        EntryKind::PreviousReceiver { .. } => false,
    }
}
