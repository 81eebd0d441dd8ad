//! The images before and after each slot that is given to a member.
ghost use Rattle.std.specs.Prelude.{◌≡◌, ℕ, unwrap_or, map, IfOk};
ghost use Rattle.std.specs.Option.{option_copied};
ghost use Rattle.member_slots.specs.declared.slot.Slot.TheVariants.{Deleted};
ghost use Rattle.path_set.specs.ManyChanges.{change_in};
ghost use Rattle.path_set.specs.MemberSteps.{image_in, slot_replaced};
ghost use Rattle.range_images.specs.Given.{AreInPlace};
ghost use Rattle.given_changes.specs.GivenChanges.{changes_given};

use crate::standing::stood;
use member_slots::member::Member;
use member_slots::slot::Slot;
use path_set::moves::ImageChange;
use range_images::SlotGiven;
use std::alloc::{AllocError, Global};
use std::collections::HashMap;

/// What each of the slots changes that are given to the member, one after the other. The member itself stays as it is.
pub fn image_changes<'a>(
    alloc: Global,
    member: &'a Member,
    given: &'a [SlotGiven],
) -> Result<Vec<ImageChange<'a>>, AllocError>
    requires { AreInPlace 1 given.now member.now.state.slots }
    ensures { IfOk result (λ changes. (number : ℕ) → map (change_in number) changes.items ≡ changes_given number given.now member.now.state.slots) }
{
    let mut latest = HashMap::new(alloc);
    let mut changes = Vec::new(alloc);
    let mut index = 0;
    while index < given.len() {
        let new = &given[index];
        let place = new.rrn - 1;
        let old = stood(&latest, &given[..index], member, place);
        changes.push(image_change(old, new))?;
        let _earlier = latest.insert(place, index)?;
        index += 1;
    }
    Ok(changes)
}

/// The image of the slot that stood, and of the one that is given.
fn image_change<'a>(old: Option<&'a Slot>, new: &'a SlotGiven) -> ImageChange<'a>
    ensures { (number : ℕ) → change_in number result ≡ slot_replaced number new.now.rrn (unwrap_or (option_copied old.entry) Deleted) new.now.slot }
{
    ImageChange {
        rrn: new.rrn,
        old: image_of(old),
        new: image_in(&new.slot),
    }
}

/// The image of the record in the slot, where there is one.
fn image_of(slot: Option<&Slot>) -> Option<&[u8]>
    ensures { option_copied result ≡ image_in (unwrap_or (option_copied slot.entry) Deleted) }
{
    match slot {
        Some(slot) => image_in(slot),
        None => None,
    }
}

/// The image of the record in the slot.
fn image_in(slot: &Slot) -> Option<&[u8]>
    ensures { option_copied result ≡ image_in slot.now }
{
    match slot {
        Slot::Live(image) => Some(image.as_bytes()),
        Slot::Deleted => None,
    }
}
