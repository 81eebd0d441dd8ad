//! Entries of the journal as they are printed, by `specs/EntryText.antt`.
ghost use Rattle.std.specs.Prelude.{◌≡◌, ◌∷◌, ◌++◌, codes, OnOk};
ghost use Rattle.std.specs.List.{flat_map};
ghost use Rattle.std.specs.Fmt.{decimal};
ghost use Rattle.listing.specs.EntryText.{job_text, file_kind_text, image_parameter, after_flag, optional_image_parameter, range_parameter, body_text, place_text, origin_text, entry_text, stroked_entry, entries_text};
ghost use Rattle.listing.specs.Texts.{parameter};

use crate::parameters::{push_name, push_number_parameter, push_parameter};
use crate::requests::{images_text, level_text};
use crate::texts::{push_number, push_text};
use entry_codec::{Entry, EntryKind, FileKind};
use field_types::names::Name;
use field_types::texts::Image;
use std::alloc::AllocError;

/// Appends entries, each after a blank, a stroke and a blank.
#[tactic(auto, unfolding(crate::specs::EntryText::entries_text))]
pub fn push_entries(out: &mut Vec<u8>, entries: &[Entry]) -> Result<(), AllocError>
    ensures { OnOk result (out.new.items ≡ out.old.items ++ entries_text entries.now) }
{
    for entry in entries {
        push_stroked(out, entry)?;
    }
    Ok(())
}

fn push_stroked(out: &mut Vec<u8>, entry: &Entry) -> Result<(), AllocError>
    ensures { OnOk result (out.new.items ≡ out.old.items ++ stroked_entry entry.now) }
{
    out.extend_from_slice(b" / ")?;
    push_entry(out, entry)
}

/// Appends an entry.
pub fn push_entry(out: &mut Vec<u8>, entry: &Entry) -> Result<(), AllocError>
    ensures { OnOk result (out.new.items ≡ out.old.items ++ entry_text entry.now) }
{
    push_place(out, entry)?;
    push_origin(out, entry)?;
    push_body(out, &entry.kind)
}

#[tactic(auto, unfolding(crate::specs::EntryText::place_text))]
fn push_place(out: &mut Vec<u8>, entry: &Entry) -> Result<(), AllocError>
    ensures { OnOk result (out.new.items ≡ out.old.items ++ place_text entry.now) }
{
    let letters = entry.kind.letters().as_slice();
    out.extend_from_slice(b"ENT ")?;
    push_number(out, entry.sequence)?;
    out.push(b' ')?;
    out.extend_from_slice(&letters[..1])?;
    out.push(b' ')?;
    out.extend_from_slice(&letters[1..])?;
    Ok(())
}

#[tactic(auto, unfolding(crate::specs::EntryText::origin_text))]
fn push_origin(out: &mut Vec<u8>, entry: &Entry) -> Result<(), AllocError>
    ensures { OnOk result (out.new.items ≡ out.old.items ++ origin_text entry.now) }
{
    push_parameter(out, b"JOB", job_text(&entry.job))?;
    push_number_parameter(out, b"AT", entry.moment)?;
    push_number_parameter(out, b"GRP", entry.group.unwrap_or(0))?;
    push_number_parameter(out, b"MBR", u64::from(entry.member.unwrap_or(0)))?;
    push_number_parameter(out, b"RRN", u64::from(entry.rrn.unwrap_or(0)))
}

fn job_text(job: &Option<Name>) -> &[u8]
    ensures { result.now ≡ job_text job.now }
{
    match job {
        None => &[],
        Some(name) => name.as_bytes(),
    }
}

fn push_body(out: &mut Vec<u8>, kind: &EntryKind) -> Result<(), AllocError>
    ensures { OnOk result (out.new.items ≡ out.old.items ++ body_text kind.now) }
{
    match kind {
        EntryKind::FileCreated { kind, name, source } => {
            push_parameter(out, b"KIND", file_kind_text(*kind))?;
            push_name(out, b"NAME", name)?;
            push_number_parameter(out, b"LEN", source.as_bytes().len() as u64)
        }
        EntryKind::FileDeleted { name } => push_name(out, b"NAME", name),
        EntryKind::MemberAdded { file, name } => {
            push_name(out, b"NAME", file)?;
            push_name(out, b"MBR", name)
        }
        EntryKind::JournalingStarted { images, slots } => {
            push_parameter(out, b"IMAGES", images_text(*images))?;
            push_number_parameter(out, b"SLOTS", u64::from(*slots))
        }
        EntryKind::ChangesApplied {
            first,
            last,
            changes,
        }
        | EntryKind::ChangesRemoved {
            first,
            last,
            changes,
        } => push_range(out, *first, *last, *changes),
        EntryKind::InitialSlot { image }
        | EntryKind::RecordAdded { image }
        | EntryKind::RecordAddedAtNumber { image }
        | EntryKind::BeforeImage { image }
        | EntryKind::UndoBeforeImage { image }
        | EntryKind::UndoDelete { image } => push_image(out, b"1", image),
        EntryKind::AfterImage { has_before, image }
        | EntryKind::UndoAfterImage { has_before, image } => {
            push_image(out, after_flag(*has_before), image)
        }
        EntryKind::RecordDeleted { before } => push_optional_image(out, before),
        EntryKind::CommitmentStarted { level } => push_parameter(out, b"LVL", level_text(*level)),
        EntryKind::NextReceiver { number } | EntryKind::PreviousReceiver { number } => {
            push_number_parameter(out, b"RCV", u64::from(*number))
        }
        EntryKind::JournalingEnded
        | EntryKind::MemberCleared
        | EntryKind::MemberReorganized
        | EntryKind::CommitCycleStarted
        | EntryKind::CommitCycleCommitted
        | EntryKind::CommitCycleRolledBack
        | EntryKind::CommitmentEnded
        | EntryKind::AbnormalEnd => Ok(()),
    }
}

/// Appends the range of a command on journaled changes, and how many there were.
#[tactic(auto, unfolding(crate::specs::Texts::parameter))]
pub fn push_range(out: &mut Vec<u8>, first: u64, last: u64, changes: u32) -> Result<(), AllocError>
    ensures { OnOk result (out.new.items ≡ out.old.items ++ range_parameter first last changes) }
{
    out.extend_from_slice(b" ENT(")?;
    push_number(out, first)?;
    out.push(b' ')?;
    push_number(out, last)?;
    out.push(b')')?;
    push_number_parameter(out, b"CHG", u64::from(changes))
}

fn push_optional_image(out: &mut Vec<u8>, image: &Option<Image>) -> Result<(), AllocError>
    ensures { OnOk result (out.new.items ≡ out.old.items ++ optional_image_parameter image.now) }
{
    match image {
        None => push_parameter(out, b"IMG", b"0"),
        Some(image) => push_image(out, b"1", image),
    }
}

#[tactic(auto, unfolding(crate::specs::Texts::parameter))]
fn push_image(out: &mut Vec<u8>, flag: &[u8], image: &Image) -> Result<(), AllocError>
    ensures { OnOk result (out.new.items ≡ out.old.items ++ image_parameter flag.now image.now) }
{
    out.extend_from_slice(b" IMG(")?;
    out.extend_from_slice(flag)?;
    out.push(b' ')?;
    push_text(out, image.as_bytes())?;
    out.push(b')')?;
    Ok(())
}

fn after_flag(has_before: bool) -> &'static [u8]
    ensures { result.now ≡ after_flag has_before }
{
    if has_before { b"2" } else { b"1" }
}

fn file_kind_text(kind: FileKind) -> &'static [u8]
    ensures { result.now ≡ file_kind_text kind }
{
    match kind {
        FileKind::Physical => b"*PHY",
        FileKind::Logical => b"*LGL",
    }
}
