//! The slot changes that entries make to one member.
ghost use Rattle.std.specs.Prelude.{◌≡◌, ◌≤◌, ◌-◌, ◌++◌, Some, None, map, option_to_list, IfOk, OnOk, if◌then◌else◌};
ghost use Rattle.std.specs.Option.{option_map, option_copied};
ghost use Rattle.entry_codec.specs.declared.entries.Entry.{Entry};
ghost use Rattle.journal_model.specs.Acts.{Change, act, acts, act_there, change_of, is_number, is_same_number, is_same_record, place_of, held_before, updated_from, undone_from, deleted_from};
ghost use Rattle.journal_model.specs.Walks.{numbered};
ghost use Rattle.journal_model.specs.Journal.{AreNumbered};
ghost use Rattle.member_slots.specs.declared.slot.Slot.TheVariants.{Deleted};
ghost use Rattle.range_images.specs.Sides.{slot_shown, numbered_of, change_in, change_from, first_sequence};

use crate::change::{Side, Sides, SlotChange};
use entry_codec::{Entry, EntryKind};
use field_types::texts::Image;
use std::alloc::{AllocError, Global};

fn is_same_number(number: Option<u32>, other: Option<u32>) -> bool
    ensures { result ≡ is_same_number number other }
{
    match (number, other) {
        (Some(number), Some(other)) => number == other,
        (None, None) => true,
        (Some(_), None) | (None, Some(_)) => false,
    }
}

fn is_same_record(entry: &Entry, other: &Entry) -> bool
    ensures { result ≡ is_same_record entry.now other.now }
{
    is_same_number(entry.member, other.member) && is_same_number(entry.rrn, other.rrn)
}

/// Whether the entry names that member.
pub(crate) fn is_of(entry: &Entry, number: u32) -> bool
    ensures { result ≡ is_number entry.now.member number }
{
    match entry.member {
        Some(member) => member == number,
        None => false,
    }
}

fn updated_from(prior: &Entry) -> Option<Side<'_>>
    ensures { option_map slot_shown result ≡ updated_from prior.now.kind }
{
    if let EntryKind::BeforeImage { image } = &prior.kind {
        return Some(Side::Live(image.as_bytes()));
    }
    None
}

fn undone_from(prior: &Entry) -> Option<Side<'_>>
    ensures { option_map slot_shown result ≡ undone_from prior.now.kind }
{
    if let EntryKind::UndoBeforeImage { image } = &prior.kind {
        return Some(Side::Live(image.as_bytes()));
    }
    None
}

// The slot that the entry before shows for an update.
fn held_for_update<'a>(prior: Option<&'a Entry>, entry: &Entry) -> Option<Side<'a>>
    ensures { option_map slot_shown result ≡ held_before updated_from (option_copied prior.entry) entry.now }
{
    match prior {
        Some(prior) if is_same_record(prior, entry) => updated_from(prior),
        _ => None,
    }
}

// The slot that the entry before shows for an undo.
fn held_for_undo<'a>(prior: Option<&'a Entry>, entry: &Entry) -> Option<Side<'a>>
    ensures { option_map slot_shown result ≡ held_before undone_from (option_copied prior.entry) entry.now }
{
    match prior {
        Some(prior) if is_same_record(prior, entry) => undone_from(prior),
        _ => None,
    }
}

// The slot before an update, where the entry says that the one before it shows it.
fn before_update<'a>(has_before: bool, prior: Option<&'a Entry>, entry: &Entry) -> Option<Side<'a>>
    ensures { option_map slot_shown result ≡ (if has_before then held_before updated_from (option_copied prior.entry) entry.now else None) }
{
    if has_before {
        held_for_update(prior, entry)
    } else {
        None
    }
}

// The slot before an undo; a deleted one, where the entry says that the one before it shows none.
fn before_undo<'a>(has_before: bool, prior: Option<&'a Entry>, entry: &Entry) -> Option<Side<'a>>
    ensures { option_map slot_shown result ≡ (if has_before then held_before undone_from (option_copied prior.entry) entry.now else Some Deleted) }
{
    if has_before {
        held_for_undo(prior, entry)
    } else {
        Some(Side::Deleted)
    }
}

fn before_delete(before: &Option<Image>) -> Option<Side<'_>>
    ensures { option_map slot_shown result ≡ deleted_from before.now }
{
    match before {
        Some(image) => Some(Side::Live(image.as_bytes())),
        None => None,
    }
}

// The sides of the change that the entry makes to the member that it names.
fn sides<'a>(entry: &'a Entry, prior: Option<&'a Entry>) -> Option<Sides<'a>>
    ensures { option_map (change_from entry.now) result ≡ change_of (act_there entry.now.kind (option_copied prior.entry) entry.now) }
{
    match &entry.kind {
        EntryKind::RecordAdded { image } | EntryKind::RecordAddedAtNumber { image } => {
            Some(Sides {
                before: Some(Side::Deleted),
                after: Side::Live(image.as_bytes()),
            })
        }
        EntryKind::AfterImage { has_before, image } => Some(Sides {
            before: before_update(*has_before, prior, entry),
            after: Side::Live(image.as_bytes()),
        }),
        EntryKind::UndoAfterImage { has_before, image } => Some(Sides {
            before: before_undo(*has_before, prior, entry),
            after: Side::Live(image.as_bytes()),
        }),
        EntryKind::RecordDeleted { before } => Some(Sides {
            before: before_delete(before),
            after: Side::Deleted,
        }),
        EntryKind::UndoDelete { image } => Some(Sides {
            before: Some(Side::Live(image.as_bytes())),
            after: Side::Deleted,
        }),
        EntryKind::FileCreated { .. }
        | EntryKind::FileDeleted { .. }
        | EntryKind::MemberAdded { .. }
        | EntryKind::JournalingStarted { .. }
        | EntryKind::InitialSlot { .. }
        | EntryKind::JournalingEnded
        | EntryKind::MemberCleared
        | EntryKind::MemberReorganized
        | EntryKind::ChangesApplied { .. }
        | EntryKind::ChangesRemoved { .. }
        | EntryKind::BeforeImage { .. }
        | EntryKind::UndoBeforeImage { .. }
        | EntryKind::CommitmentStarted { .. }
        | EntryKind::CommitCycleStarted
        | EntryKind::CommitCycleCommitted
        | EntryKind::CommitCycleRolledBack
        | EntryKind::CommitmentEnded
        | EntryKind::AbnormalEnd
        | EntryKind::NextReceiver { .. }
        | EntryKind::PreviousReceiver { .. } => None,
    }
}

// Relative record numbers count from 1.
fn rrn(entry: &Entry) -> u32
    ensures counted { 1 ≤ result }
    ensures place { result - 1 ≡ place_of entry.now.rrn }
{
    match entry.rrn {
        Some(rrn) if rrn > 0 => rrn,
        _ => 1,
    }
}

/// The slot change that the entry makes to the member of that number, behind the entry `prior`.
pub(crate) fn slot_change<'a>(
    entry: &'a Entry,
    prior: Option<&'a Entry>,
    number: u32,
) -> Option<SlotChange<'a>>
    ensures { option_map numbered_of result ≡ change_in number (option_copied prior.entry) entry.now }
{
    if !is_of(entry, number) {
        return None;
    }
    let sides = sides(entry, prior)?;
    Some(SlotChange {
        sequence: entry.sequence,
        rrn: rrn(entry),
        group: entry.group,
        sides,
    })
}

// One change more, where there is one.
fn add<'a>(
    changes: &mut Vec<SlotChange<'a>>,
    change: Option<SlotChange<'a>>,
) -> Result<(), AllocError>
    ensures { OnOk result (map numbered_of changes.new.items ≡ map numbered_of changes.old.items ++ option_to_list (option_map numbered_of change.entry)) }
{
    match change {
        Some(change) => Ok(changes.push(change)?),
        None => Ok(()),
    }
}

/// The slot changes that the entries make to the member, in their order.
pub(crate) fn slot_changes<'a>(
    alloc: Global,
    entries: &'a [Entry],
    prior: Option<&'a Entry>,
    number: u32,
) -> Result<Vec<SlotChange<'a>>, AllocError>
    requires { AreNumbered (first_sequence entries.now) entries.now }
    ensures { IfOk result (λ changes. map numbered_of changes.items ≡ numbered (first_sequence entries.now) (acts number (option_copied prior.entry) entries.now)) }
{
    let mut changes = Vec::new(alloc);
    let mut prior = prior;
    for entry in entries {
        add(&mut changes, slot_change(entry, prior, number))?;
        prior = Some(entry);
    }
    Ok(changes)
}
