//! What an entry holds, by its type. By `specs/Entries.antt`.
ghost use Rattle.std.specs.Prelude.{◌≡◌, ◌<◌, ◌^◌, replicate, IfOk};
ghost use Rattle.statement_reader.specs.Words.{words};
ghost use Rattle.listing_reader.specs.Entries.{file_created, member_added, journaling_started, after_image, undo_after_image, body_of};

use crate::entry_fields::{changes_in, file_kind_in, flag_in, image_in, optional_image_in};
use entry_codec::EntryKind;
use field_types::texts::SourceText;
use listing_words::entry_types::EntryType;
use listing_words::numbers::number_in;
use listing_words::parameters::{images_in, level_in};
use listing_words::words::name_in;
use std::alloc::{AllocError, Global};

/// A source of which only its length is known: that many blanks.
fn blank_source(alloc: Global, count: u32) -> Result<SourceText, AllocError>
    ensures { IfOk result (λ source. source ≡ replicate count 32) }
{
    Ok(SourceText::from_vec(vec![in alloc; b' '; count as usize]?))
}

#[tactic(auto, unfolding(crate::specs::Entries::file_created))]
fn file_created(alloc: Global, text: &[u8]) -> Result<Option<EntryKind>, AllocError>
    ensures { IfOk result (λ kind. kind ≡ file_created (words text.now)) }
{
    let Some(kind) = file_kind_in(text) else {
        return Ok(None);
    };
    let Some(name) = name_in(text, b"NAME") else {
        return Ok(None);
    };
    let Some(count) = number_in(text, b"LEN") else {
        return Ok(None);
    };
    let source = blank_source(alloc, count)?;
    Ok(Some(EntryKind::FileCreated { kind, name, source }))
}

#[tactic(auto, unfolding(crate::specs::Entries::member_added))]
fn member_added(text: &[u8]) -> Option<EntryKind>
    ensures { result ≡ member_added (words text.now) }
{
    let Some(file) = name_in(text, b"NAME") else {
        return None;
    };
    let Some(name) = name_in(text, b"MBR") else {
        return None;
    };
    Some(EntryKind::MemberAdded { file, name })
}

#[tactic(auto, unfolding(crate::specs::Entries::journaling_started))]
fn journaling_started(text: &[u8]) -> Option<EntryKind>
    ensures { result ≡ journaling_started (words text.now) }
{
    let Some(images) = images_in(text, b"IMAGES") else {
        return None;
    };
    let Some(slots) = number_in(text, b"SLOTS") else {
        return None;
    };
    Some(EntryKind::JournalingStarted { images, slots })
}

#[tactic(auto, unfolding(crate::specs::Entries::after_image))]
fn after_image(alloc: Global, text: &[u8]) -> Result<Option<EntryKind>, AllocError>
    ensures { IfOk result (λ kind. kind ≡ after_image (words text.now)) }
{
    let Some(has_before) = flag_in(text) else {
        return Ok(None);
    };
    let Some(image) = image_in(alloc, text)? else {
        return Ok(None);
    };
    Ok(Some(EntryKind::AfterImage { has_before, image }))
}

#[tactic(auto, unfolding(crate::specs::Entries::undo_after_image))]
fn undo_after_image(alloc: Global, text: &[u8]) -> Result<Option<EntryKind>, AllocError>
    ensures { IfOk result (λ kind. kind ≡ undo_after_image (words text.now)) }
{
    let Some(has_before) = flag_in(text) else {
        return Ok(None);
    };
    let Some(image) = image_in(alloc, text)? else {
        return Ok(None);
    };
    Ok(Some(EntryKind::UndoAfterImage { has_before, image }))
}

/// What an entry of this type holds.
#[tactic(auto, unfolding(crate::specs::Entries::body_of))]
pub fn body_of(
    alloc: Global,
    entry_type: EntryType,
    text: &[u8],
) -> Result<Option<EntryKind>, AllocError>
    ensures { IfOk result (λ kind. kind ≡ body_of entry_type (words text.now)) }
{
    match entry_type {
        EntryType::FileCreated => file_created(alloc, text),
        EntryType::FileDeleted => {
            Ok(name_in(text, b"NAME").map(|name| EntryKind::FileDeleted { name }))
        }
        EntryType::MemberAdded => Ok(member_added(text)),
        EntryType::JournalingStarted => Ok(journaling_started(text)),
        EntryType::InitialSlot => {
            Ok(image_in(alloc, text)?.map(|image| EntryKind::InitialSlot { image }))
        }
        EntryType::JournalingEnded => Ok(Some(EntryKind::JournalingEnded)),
        EntryType::MemberCleared => Ok(Some(EntryKind::MemberCleared)),
        EntryType::MemberReorganized => Ok(Some(EntryKind::MemberReorganized)),
        EntryType::ChangesApplied => Ok(changes_in(text).map(|range| EntryKind::ChangesApplied {
            first: range.first,
            last: range.last,
            changes: range.changes,
        })),
        EntryType::ChangesRemoved => Ok(changes_in(text).map(|range| EntryKind::ChangesRemoved {
            first: range.first,
            last: range.last,
            changes: range.changes,
        })),
        EntryType::RecordAdded => {
            Ok(image_in(alloc, text)?.map(|image| EntryKind::RecordAdded { image }))
        }
        EntryType::RecordAddedAtNumber => {
            Ok(image_in(alloc, text)?.map(|image| EntryKind::RecordAddedAtNumber { image }))
        }
        EntryType::BeforeImage => {
            Ok(image_in(alloc, text)?.map(|image| EntryKind::BeforeImage { image }))
        }
        EntryType::AfterImage => after_image(alloc, text),
        EntryType::RecordDeleted => {
            Ok(optional_image_in(alloc, text)?.map(|before| EntryKind::RecordDeleted { before }))
        }
        EntryType::UndoBeforeImage => {
            Ok(image_in(alloc, text)?.map(|image| EntryKind::UndoBeforeImage { image }))
        }
        EntryType::UndoAfterImage => undo_after_image(alloc, text),
        EntryType::UndoDelete => {
            Ok(image_in(alloc, text)?.map(|image| EntryKind::UndoDelete { image }))
        }
        EntryType::CommitmentStarted => {
            Ok(level_in(text, b"LVL").map(|level| EntryKind::CommitmentStarted { level }))
        }
        EntryType::CommitCycleStarted => Ok(Some(EntryKind::CommitCycleStarted)),
        EntryType::CommitCycleCommitted => Ok(Some(EntryKind::CommitCycleCommitted)),
        EntryType::CommitCycleRolledBack => Ok(Some(EntryKind::CommitCycleRolledBack)),
        EntryType::CommitmentEnded => Ok(Some(EntryKind::CommitmentEnded)),
        EntryType::AbnormalEnd => Ok(Some(EntryKind::AbnormalEnd)),
        EntryType::NextReceiver => {
            Ok(number_in(text, b"RCV").map(|number| EntryKind::NextReceiver { number }))
        }
        EntryType::PreviousReceiver => {
            Ok(number_in(text, b"RCV").map(|number| EntryKind::PreviousReceiver { number }))
        }
    }
}
