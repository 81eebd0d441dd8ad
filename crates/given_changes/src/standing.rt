//! What stands at a place of a member once slots were given to it, while the member itself stays as it is.
ghost use Rattle.std.specs.Prelude.{◌≡◌, ◌<◌, ℕ, nat_eq, unwrap_or, length, slice_index_or};
ghost use Rattle.std.specs.HashMap.{get};
ghost use Rattle.std.specs.Option.{option_copied};
ghost use Rattle.member_slots.specs.declared.slot.Slot.TheVariants.{Deleted};
ghost use Rattle.journal_model.specs.Places.{slot_of};
ghost use Rattle.range_images.specs.Given.{AreInPlace, given_slots, last_index};

use member_slots::member::Member;
use member_slots::slot::Slot;
use range_images::SlotGiven;
use std::collections::HashMap;

/// The slot at a place, which counts from 0; none past the end. `latest` has the last slot given to each place.
pub fn stood<'a>(
    latest: &HashMap<u32, usize>,
    given: &'a [SlotGiven],
    member: &'a Member,
    place: u32,
) -> Option<&'a Slot>
    requires { (place : ℕ) → get nat_eq latest.now place ≡ last_index place given.now }
    ensures { unwrap_or (option_copied result) Deleted ≡ slot_of (given_slots given.now member.now.state.slots) place }
{
    match latest.get(&place) {
        Some(&index) => Some(&given_at(given, index).slot),
        None => member_slot(member, place),
    }
}

fn given_at(given: &[SlotGiven], index: usize) -> &SlotGiven
    requires { index < length given.now }
    ensures { result.now ≡ slice_index_or given.now index result.now }
{
    &given[index]
}

fn member_slot(member: &Member, place: u32) -> Option<&Slot>
    ensures { unwrap_or (option_copied result) Deleted ≡ slot_of member.now.state.slots place }
{
    if place < member.slots() {
        Some(member.slot(place + 1))
    } else {
        None
    }
}

/// How many slots the member has once these were given.
pub fn slots_after(member: &Member, given: &[SlotGiven]) -> u32
    requires { AreInPlace 1 given.now member.now.state.slots }
    ensures { result ≡ length (given_slots given.now member.now.state.slots) }
{
    let mut count = member.slots();
    for g in given {
        count = count.max(g.rrn);
    }
    count
}
