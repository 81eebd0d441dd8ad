//! The slots that a walk has given to a member, which itself stays as it is.
ghost use Rattle.std.specs.Prelude.{◌≡◌, ◌≤◌, [], unwrap_or, length, IfOk, OnOk};
ghost use Rattle.std.specs.Option.{option_map, option_copied};
ghost use Rattle.member_slots.specs.declared.slot.Slot.TheVariants.{Deleted};
ghost use Rattle.journal_model.specs.Places.{slot_of, is_same_slot};
ghost use Rattle.journal_model.specs.Walks.{is_met, redo, undo};
ghost use Rattle.range_images.specs.Sides.{slot_shown, numbered_of};
ghost use Rattle.range_images.specs.declared.fault.RangeFault.TheVariants.{DoesNotFit, NeedsBoth};
ghost use Rattle.range_images.specs.declared.fault.ImagesFault.TheVariants.{Refused};
ghost use Rattle.range_images.specs.Faults.{TellsFault};
ghost use Rattle.range_images.specs.Given.{given_slots, given_after, given_before, given_more, latest_slot, GoesOn};

use crate::change::{Side, SlotChange};
use crate::fault::{ImagesFault, RangeFault};
use crate::slot_given::SlotGiven;
use field_types::texts::Image;
use member_slots::member::Member;
use member_slots::slot::Slot;
use std::alloc::{AllocError, Global};
use std::collections::HashMap;
use std::marker::Model;

/// The slots given so far, in their order, and the last of them for each place.
#[derive(Drop)]
pub(crate) struct Overlay {
    given: Vec<SlotGiven>,
    latest: HashMap<u32, usize>,
    /// How many slots the member has by that.
    count: u64,
}

impl Model for Overlay {
    ghost use Rattle.std.specs.Prelude.{◌≡◌, ℕ, nat_eq};
    ghost use Rattle.std.specs.HashMap.{get};
    ghost use Rattle.range_images.specs.Given.{GivenState, last_index};

    ghost Value = { GivenState };

    ghost view = { λ o. record { given = o.given.items; count = o.count } };

    ghost invariant = { λ o. (place : ℕ) → get nat_eq o.latest place ≡ last_index place o.given.items };
}

impl Overlay {
    /// Nothing given to a member of so many slots.
    pub(crate) fn new(alloc: Global, count: u32) -> Overlay
        ensures { result ≡ record { given = []; count = count } }
    {
        Overlay {
            given: Vec::new(alloc),
            latest: HashMap::new(alloc),
            count: u64::from(count),
        }
    }

    /// What was given.
    pub(crate) fn into_given(self) -> Vec<SlotGiven>
        ensures { result.items ≡ self.given }
    {
        self.given
    }

    // The slot that was given last to a place, which counts from 0.
    fn latest(&self, place: u32) -> Option<&Slot>
        ensures { option_copied result ≡ latest_slot place self.now.given }
    {
        match self.latest.get(&place) {
            Some(&index) => Some(&self.given[index].slot),
            None => None,
        }
    }

    // The slot that stands at a place; none past the end.
    fn slot<'a>(&'a self, member: &'a Member, place: u32) -> Option<&'a Slot>
        ensures { unwrap_or (option_copied result) Deleted ≡ slot_of (given_slots self.now.given member.now.state.slots) place }
    {
        match self.latest(place) {
            Some(slot) => Some(slot),
            None => member_slot(member, place),
        }
    }

    fn give(&mut self, rrn: u32, slot: Slot) -> Result<(), AllocError>
        requires { 1 ≤ rrn }
        ensures { OnOk result (self.new ≡ given_more (record { rrn = rrn; slot = slot }) self.old) }
    {
        let index = self.given.len();
        self.given.reserve(1)?;
        let _earlier = self.latest.insert(rrn - 1, index)?;
        self.given.push_reserved(SlotGiven { rrn, slot });
        self.count = self.count.max(u64::from(rrn));
        Ok(())
    }
}

fn member_slot(member: &Member, place: u32) -> Option<&Slot>
    ensures { unwrap_or (option_copied result) Deleted ≡ slot_of member.now.state.slots place }
{
    if place < member.slots() {
        Some(member.slot(place + 1))
    } else {
        None
    }
}

// Whether the slot is as the side has it; none stands where no slot is.
fn is_same(side: Side<'_>, slot: Option<&Slot>) -> bool
    ensures { result ≡ is_same_slot (slot_shown side.entry) (unwrap_or (option_copied slot.entry) Deleted) }
{
    match (side, slot) {
        (Side::Live(bytes), Some(Slot::Live(image))) => bytes == image.as_bytes(),
        (Side::Live(_), Some(Slot::Deleted) | None) | (Side::Deleted, Some(Slot::Live(_))) => false,
        (Side::Deleted, Some(Slot::Deleted) | None) => true,
    }
}

// Whether the slot is as the side before a change has it; any record is, where the journal doesn't tell.
fn is_met(before: Option<Side<'_>>, slot: Option<&Slot>) -> bool
    ensures { result ≡ is_met (option_map slot_shown before.entry) (unwrap_or (option_copied slot.entry) Deleted) }
{
    match (before, slot) {
        (Some(side), slot) => is_same(side, slot),
        (None, Some(Slot::Live(_))) => true,
        (None, Some(Slot::Deleted) | None) => false,
    }
}

fn owned(alloc: Global, side: Side<'_>) -> Result<Slot, AllocError>
    ensures { IfOk result (λ slot. slot ≡ slot_shown side.entry) }
{
    match side {
        Side::Live(bytes) => Ok(Slot::Live(Image::from_slice(alloc, bytes)?)),
        Side::Deleted => Ok(Slot::Deleted),
    }
}

fn misfit(change: SlotChange<'_>) -> ImagesFault
    ensures { result ≡ Refused (DoesNotFit change.entry.sequence change.entry.rrn) }
{
    ImagesFault::Refused(RangeFault::DoesNotFit {
        sequence: change.sequence,
        rrn: change.rrn,
    })
}

impl Overlay {
    /// Makes a change again.
    pub(crate) fn redo(
        &mut self,
        alloc: Global,
        member: &Member,
        change: SlotChange<'_>,
    ) -> Result<(), ImagesFault>
        requires { self.old.count ≡ length (given_slots self.old.given member.now.state.slots) }
        ensures done { let slots = member.now.state.slots in
            OnOk result (GoesOn (redo (numbered_of change.entry) (given_slots self.old.given slots)) slots (given_after (numbered_of change.entry)) self.old self.new) }
        ensures fault { TellsFault result (redo (numbered_of change.entry) (given_slots self.old.given member.now.state.slots)) }
    {
        let place = change.rrn - 1;
        if u64::from(place) > self.count || !is_met(change.sides.before, self.slot(member, place)) {
            return Err(misfit(change));
        }
        let slot = owned(alloc, change.sides.after)?;
        self.give(change.rrn, slot)?;
        Ok(())
    }

    /// Takes a change back.
    pub(crate) fn undo(
        &mut self,
        alloc: Global,
        member: &Member,
        change: SlotChange<'_>,
    ) -> Result<(), ImagesFault>
        requires { self.old.count ≡ length (given_slots self.old.given member.now.state.slots) }
        ensures done { let slots = member.now.state.slots in
            OnOk result (GoesOn (undo (numbered_of change.entry) (given_slots self.old.given slots)) slots (given_before (numbered_of change.entry)) self.old self.new) }
        ensures fault { TellsFault result (undo (numbered_of change.entry) (given_slots self.old.given member.now.state.slots)) }
    {
        let Some(before) = change.sides.before else {
            return Err(lacks_before(change));
        };
        let place = change.rrn - 1;
        if u64::from(place) >= self.count
            || !is_same(change.sides.after, self.slot(member, place))
        {
            return Err(misfit(change));
        }
        let slot = owned(alloc, before)?;
        self.give(change.rrn, slot)?;
        Ok(())
    }
}

fn lacks_before(change: SlotChange<'_>) -> ImagesFault
    ensures { result ≡ Refused (NeedsBoth change.entry.sequence) }
{
    ImagesFault::Refused(RangeFault::NeedsBoth {
        sequence: change.sequence,
    })
}
