//! Reading in arrival order. A read passes over deleted slots alone.
ghost use Rattle.std.specs.Prelude.{◌≡◌, false, ◌==◌, Some, None, nat_lt, nat_le, reverse, find, if◌then◌else◌};
ghost use Rattle.std.specs.Option.{option_map};
ghost use Rattle.file_cursor.specs.CursorPosition.{entry_of};
ghost use Rattle.file_cursor.specs.Finding.{next_from, prior_from, chain_number};
ghost use Rattle.file_cursor.specs.Reading.{arrival_entries, numbered, numbers};

use crate::places::Hit;
use crate::spot::Spot;
use member_slots::member::Member;
use member_slots::slot::Slot;

/// The first record after a position.
pub(crate) fn next<'a>(spot: &Spot, member: &Member) -> Option<Hit<'a>>
    ensures { option_map entry_of result ≡ next_from false (arrival_entries member.now.state) spot.now.position }
{
    let Some(gap) = spot.by_numbers() else {
        return None;
    };
    hit_on(first_from(member, gap.from))
}

/// The last record before a position.
pub(crate) fn prior<'a>(spot: &Spot, member: &Member) -> Option<Hit<'a>>
    ensures { option_map entry_of result ≡ prior_from false (arrival_entries member.now.state) spot.now.position }
{
    let until = match spot.by_numbers() {
        Some(gap) => gap.until,
        None => u64::from(member.slots()) + 1,
    };
    hit_on(last_below(member, until))
}

/// The record of this number.
pub(crate) fn record<'a>(member: &Member, rrn: u32) -> Option<Hit<'a>>
    ensures { option_map entry_of result ≡ chain_number rrn (arrival_entries member.now.state) }
{
    if is_record(member, rrn) {
        hit_on(Some(rrn))
    } else {
        None
    }
}

/// Whether a record has this number.
fn is_record(member: &Member, rrn: u32) -> bool
    ensures { find (λ n. n == rrn) (numbers member.now.state) ≡ (if result then Some rrn else None) }
{
    if rrn == 0 || rrn > member.slots() {
        return false;
    }
    match member.slot(rrn) {
        Slot::Live(_) => true,
        Slot::Deleted => false,
    }
}

/// What a read gives of a record, where there is one.
fn hit_on<'a>(rrn: Option<u32>) -> Option<Hit<'a>>
    ensures { option_map entry_of result ≡ option_map numbered rrn }
{
    match rrn {
        Some(rrn) => Some(Hit {
            format: 0,
            rrn,
            key: &[],
        }),
        None => None,
    }
}

/// The first record whose number isn't below this one.
fn first_from(member: &Member, from: u64) -> Option<u32>
    ensures { result ≡ find (λ n. nat_le from n) (numbers member.now.state) }
{
    let slots = member.slots();
    if from > u64::from(slots) {
        return None;
    }
    let mut rrn = (from as u32).max(1);
    while rrn <= slots {
        if let Slot::Live(_) = member.slot(rrn) {
            return Some(rrn);
        }
        rrn += 1;
    }
    None
}

/// The last record whose number is below this one.
fn last_below(member: &Member, until: u64) -> Option<u32>
    ensures { result ≡ find (λ n. nat_lt n until) (reverse (numbers member.now.state)) }
{
    let slots = member.slots();
    let mut left = if until > u64::from(slots) {
        slots
    } else if until == 0 {
        0
    } else {
        until as u32 - 1
    };
    while left > 0 {
        if let Slot::Live(_) = member.slot(left) {
            return Some(left);
        }
        left -= 1;
    }
    None
}
