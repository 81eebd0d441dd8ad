//! Slots at their places.
ghost use Rattle.std.specs.Prelude.{◌≡◌, nat_lt, length, unwrap_or};
ghost use Rattle.std.specs.Option.{option_copied};
ghost use Rattle.member_slots.specs.declared.slot.Slot.TheVariants.{Deleted};
ghost use Rattle.member_slots.specs.Member.{is_live};
ghost use Rattle.journal_replay.specs.Tests.{fits_slot};
ghost use Rattle.journal_model.specs.Places.{slot_of, is_same_slot};

use journal_replay::{SlotChange, is_same_slot};
use member_slots::slot::Slot;

/// Whether there is a slot at the place, counted from 0.
pub fn has_place(slots: &[Slot], place: u32) -> bool
    ensures { result ≡ nat_lt place (length slots.now) }
{
    (place as usize) < slots.len()
}

/// Whether the slot at the place is this one. Past the last slot none is live.
pub fn is_slot_at(slots: &[Slot], place: u32, slot: &Slot) -> bool
    ensures { result ≡ is_same_slot (slot_of slots.now place) slot.now }
{
    match slot_at(slots, place) {
        Some(own) => is_same_slot(own, slot),
        None => is_same_slot(&Slot::Deleted, slot),
    }
}

/// Whether the slot is as before the change, or not there yet, one past the last.
pub fn fits(slots: &[Slot], change: &SlotChange) -> bool
    ensures { result ≡ fits_slot change.now slots.now }
{
    if change.place as usize > slots.len() {
        return false;
    }
    match &change.before {
        Some(before) => is_slot_at(slots, change.place, before),
        None => change.cycle.is_none() && is_record_at(slots, change.place),
    }
}

fn is_record_at(slots: &[Slot], place: u32) -> bool
    ensures { result ≡ is_live (slot_of slots.now place) }
{
    match slot_at(slots, place) {
        Some(own) => is_record(own),
        None => false,
    }
}

/// Whether a record stands there.
pub(crate) fn is_record(slot: &Slot) -> bool
    ensures { result ≡ is_live slot.now }
{
    matches!(slot, Slot::Live(_))
}

/// The slot at the place, `None` past the last one.
fn slot_at(slots: &[Slot], place: u32) -> Option<&Slot>
    ensures { unwrap_or (option_copied result) Deleted ≡ slot_of slots.now place }
{
    let place = place as usize;
    if place < slots.len() {
        Some(&slots[place])
    } else {
        None
    }
}
