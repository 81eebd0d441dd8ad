//! Whether a commit cycle that was rolled back left the records as it found them.
ghost use Rattle.std.specs.Prelude.{◌≡◌};
ghost use Rattle.std.specs.List.{list_all};
ghost use Rattle.journal_model.specs.Places.{slot_of, is_same_slot};
ghost use Rattle.open_cycles.specs.Kept.{is_back_in, passes_at};

use crate::changes::OpenChange;
use crate::kept::{Changes, at};
use member_slots::slot::Slot;

/// Members, whose slots are found by number.
pub trait HasSlots {
    ghost use Rattle.std.specs.Prelude.{ℕ, List};
    ghost use Rattle.member_slots.specs.declared.slot.Slot.{Slot};

    /// The slots of the member of a number.
    ghost slots: { Self → ℕ → List Slot };

    /// Whether the slot at the place is this one. Past the last slot none is live.
    fn has_slot(&self, member: u32, place: u32, slot: &Slot) -> bool
        ensures { result ≡ is_same_slot (slot_of (slots self.now member) place) slot.now };
}

/// Whether the record of each change at these places is as before the first change of it by the commit cycle.
pub(crate) fn are_back<M: HasSlots>(
    changes: &Changes,
    kept: &[Option<OpenChange>],
    places: &[usize],
    cycle: u64,
    members: &M,
) -> bool
    ensures { result ≡ list_all (passes_at (is_back_in cycle changes.now (M.slots members.now)) kept.now) places.now }
{
    for place in places {
        if !is_back_at(changes, kept, *place, cycle, members) {
            return false;
        }
    }
    true
}

fn is_back_at<M: HasSlots>(
    changes: &Changes,
    kept: &[Option<OpenChange>],
    place: usize,
    cycle: u64,
    members: &M,
) -> bool
    ensures { result ≡ passes_at (is_back_in cycle changes.now (M.slots members.now)) kept.now place }
{
    match at(kept, place) {
        None => true,
        Some(change) => is_back(changes, change, cycle, members),
    }
}

fn is_back<M: HasSlots>(changes: &Changes, change: &OpenChange, cycle: u64, members: &M) -> bool
    ensures { result ≡ is_back_in cycle changes.now (M.slots members.now) change.now }
{
    match changes.first_of(cycle, change.member, change.place) {
        None => true,
        Some(first) => match &first.before {
            None => members.has_slot(change.member, change.place, &Slot::Deleted),
            Some(before) => members.has_slot(change.member, change.place, before),
        },
    }
}
