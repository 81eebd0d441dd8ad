//! What an entry does to the member that it names. Commit cycles are in the crate `open_cycles`.
ghost use Rattle.std.specs.Prelude.{◌≡◌, IfOk, Some};
ghost use Rattle.member_slots.specs.declared.slot.Slot.TheVariants.{Live, Deleted};
ghost use Rattle.journal_model.specs.Acts.{changes_slot, is_same_record, held_before, updated_from, undone_from, deleted_from};
ghost use Rattle.journal_replay.specs.MemberActs.{act_of};
ghost use Rattle.journal_replay.specs.Tests.{member_act};

use crate::slots::{is_same_number, place_of};
use entry_codec::{Entry, EntryKind, Images};
use field_types::texts::Image;
use member_slots::slot::Slot;
use std::alloc::{AllocError, Global};
use std::marker::Model;

/// A slot change: the record's place, counted from 0, its commit cycle, and the slot before and after, `None` where the
/// journal doesn't tell.
#[derive(Drop)]
pub struct SlotChange {
    pub place: u32,
    pub cycle: Option<u64>,
    pub before: Option<Slot>,
    pub after: Slot,
}

impl Model for SlotChange {
    ghost use Rattle.journal_model.specs.Acts.{Change};

    ghost Value = { Change };

    ghost view = { λ c. record { place = c.place; cycle = c.cycle; before = c.before; after = c.after } };
}

/// What an entry does to a member.
#[derive(Drop)]
pub enum MemberAct {
    /// A slot is changed.
    ChangeSlot(SlotChange),
    /// Journaling begins; the member has so many slots.
    Journal { images: Images, slots: u32 },
    /// A record stood at this place then.
    Stand { place: u32, image: Image },
    /// All slots are removed.
    Clear,
    /// The deleted slots are removed.
    Reorganize,
    /// Journaling ends.
    EndJournaling,
    /// Nothing.
    Pass,
}

/// What the entry does to the member that it names, behind the entry that begins a pair of images, in memory of its own.
pub fn read_act(
    alloc: Global,
    begun: &Option<Entry>,
    entry: &Entry,
) -> Result<MemberAct, AllocError>
    ensures { IfOk result (λ a. act_of a ≡ member_act entry.now.kind begun.now entry.now) }
{
    match &entry.kind {
        EntryKind::JournalingStarted { images, slots } => Ok(MemberAct::Journal {
            images: *images,
            slots: *slots,
        }),
        EntryKind::InitialSlot { image } => Ok(MemberAct::Stand {
            place: place_of(entry.rrn),
            image: image.copied(alloc)?,
        }),
        EntryKind::JournalingEnded => Ok(MemberAct::EndJournaling),
        EntryKind::MemberCleared => Ok(MemberAct::Clear),
        EntryKind::MemberReorganized => Ok(MemberAct::Reorganize),
        EntryKind::RecordAdded { image } => record_put(alloc, entry, Some(Slot::Deleted), image),
        EntryKind::RecordAddedAtNumber { image } => {
            record_put(alloc, entry, Some(Slot::Deleted), image)
        }
        EntryKind::AfterImage { has_before, image } => {
            let before = if *has_before {
                before_update(alloc, begun, entry)?
            } else {
                None
            };
            record_put(alloc, entry, before, image)
        }
        EntryKind::UndoAfterImage { has_before, image } => {
            let before = if *has_before {
                before_undo(alloc, begun, entry)?
            } else {
                Some(Slot::Deleted)
            };
            record_put(alloc, entry, before, image)
        }
        EntryKind::RecordDeleted { before } => record_taken(alloc, entry, before),
        EntryKind::UndoDelete { image } => record_undone(alloc, entry, image),
        EntryKind::FileCreated { .. } => Ok(MemberAct::Pass),
        EntryKind::FileDeleted { .. } => Ok(MemberAct::Pass),
        EntryKind::MemberAdded { .. } => Ok(MemberAct::Pass),
        EntryKind::ChangesApplied { .. } => Ok(MemberAct::Pass),
        EntryKind::ChangesRemoved { .. } => Ok(MemberAct::Pass),
        EntryKind::BeforeImage { .. } => Ok(MemberAct::Pass),
        EntryKind::UndoBeforeImage { .. } => Ok(MemberAct::Pass),
        EntryKind::CommitmentStarted { .. } => Ok(MemberAct::Pass),
        EntryKind::CommitCycleStarted => Ok(MemberAct::Pass),
        EntryKind::CommitCycleCommitted => Ok(MemberAct::Pass),
        EntryKind::CommitCycleRolledBack => Ok(MemberAct::Pass),
        EntryKind::CommitmentEnded => Ok(MemberAct::Pass),
        EntryKind::AbnormalEnd => Ok(MemberAct::Pass),
        EntryKind::NextReceiver { .. } => Ok(MemberAct::Pass),
        EntryKind::PreviousReceiver { .. } => Ok(MemberAct::Pass),
    }
}

/// A record stands there after the entry.
fn record_put(
    alloc: Global,
    entry: &Entry,
    before: Option<Slot>,
    image: &Image,
) -> Result<MemberAct, AllocError>
    ensures { IfOk result (λ a. act_of a ≡ changes_slot entry.now before (Live image.now)) }
{
    Ok(MemberAct::ChangeSlot(SlotChange {
        place: place_of(entry.rrn),
        cycle: entry.group,
        before,
        after: Slot::Live(image.copied(alloc)?),
    }))
}

/// A record was deleted, which is told or isn't.
fn record_taken(
    alloc: Global,
    entry: &Entry,
    before: &Option<Image>,
) -> Result<MemberAct, AllocError>
    ensures { IfOk result (λ a. act_of a ≡ changes_slot entry.now (deleted_from before.now) Deleted) }
{
    let before = match before {
        None => None,
        Some(image) => Some(Slot::Live(image.copied(alloc)?)),
    };
    Ok(MemberAct::ChangeSlot(SlotChange {
        place: place_of(entry.rrn),
        cycle: entry.group,
        before,
        after: Slot::Deleted,
    }))
}

/// An undo deleted this record.
fn record_undone(alloc: Global, entry: &Entry, image: &Image) -> Result<MemberAct, AllocError>
    ensures { IfOk result (λ a. act_of a ≡ changes_slot entry.now (Some (Live image.now)) Deleted) }
{
    Ok(MemberAct::ChangeSlot(SlotChange {
        place: place_of(entry.rrn),
        cycle: entry.group,
        before: Some(Slot::Live(image.copied(alloc)?)),
        after: Slot::Deleted,
    }))
}

fn is_same_record(a: &Entry, b: &Entry) -> bool
    ensures { result ≡ is_same_record a.now b.now }
{
    is_same_number(a.member, b.member) && is_same_number(a.rrn, b.rrn)
}

/// The slot that the entry before an update shows.
fn before_update(
    alloc: Global,
    begun: &Option<Entry>,
    entry: &Entry,
) -> Result<Option<Slot>, AllocError>
    ensures { IfOk result (λ slot. slot ≡ held_before updated_from begun.now entry.now) }
{
    match begun {
        None => Ok(None),
        Some(prior) => {
            if !is_same_record(prior, entry) {
                return Ok(None);
            }
            match &prior.kind {
                EntryKind::BeforeImage { image } => Ok(Some(Slot::Live(image.copied(alloc)?))),
                _ => Ok(None),
            }
        }
    }
}

/// The slot that the entry before an undo shows.
fn before_undo(
    alloc: Global,
    begun: &Option<Entry>,
    entry: &Entry,
) -> Result<Option<Slot>, AllocError>
    ensures { IfOk result (λ slot. slot ≡ held_before undone_from begun.now entry.now) }
{
    match begun {
        None => Ok(None),
        Some(prior) => {
            if !is_same_record(prior, entry) {
                return Ok(None);
            }
            match &prior.kind {
                EntryKind::UndoBeforeImage { image } => Ok(Some(Slot::Live(image.copied(alloc)?))),
                _ => Ok(None),
            }
        }
    }
}
