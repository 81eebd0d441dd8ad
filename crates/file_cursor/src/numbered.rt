//! Reading from a number among the entries of a path of one format without keys.
ghost use Rattle.std.specs.Prelude.{◌≡◌, ◌≤◌, Some, false, nat_lt, nat_le};
ghost use Rattle.std.specs.Option.{option_map};
ghost use Rattle.key_pages.specs.declared.entries.Entry.{Entry};
ghost use Rattle.key_pages.specs.Position.{is_past, is_short};
ghost use Rattle.member_slots.specs.declared.member.TheConstants.{MOST_SLOTS};
ghost use Rattle.file_cursor.specs.CursorPosition.{entry_of};
ghost use Rattle.file_cursor.specs.Finding.{next_from, prior_from, chain_number, with_number};
ghost use Rattle.file_cursor.specs.Reading.{AreNumbered, numbered};

use crate::keyed::hit_on;
use crate::places::Hit;
use crate::spot::Spot;
use key_pages::{Pages, Position};

/// The first entry after a position.
pub(crate) fn next<'a>(spot: &Spot, pages: &'a Pages) -> Option<Hit<'a>>
    requires { AreNumbered pages.now }
    ensures { option_map entry_of result ≡ next_from pages.now.falling pages.now.entries spot.now.position }
{
    let Some(gap) = spot.by_numbers() else {
        return None;
    };
    let Some(entry) = pages.next_entry(&before_number(gap.from)) else {
        return None;
    };
    Some(hit_on(entry))
}

/// The last entry before a position.
pub(crate) fn prior<'a>(spot: &Spot, pages: &'a Pages) -> Option<Hit<'a>>
    requires { AreNumbered pages.now }
    ensures { option_map entry_of result ≡ prior_from pages.now.falling pages.now.entries spot.now.position }
{
    let until = match spot.by_numbers() {
        Some(gap) => gap.until,
        None => u64::MAX,
    };
    let Some(entry) = pages.prior_entry(&on_number(until)) else {
        return None;
    };
    Some(hit_on(entry))
}

/// The entry of this number.
pub(crate) fn record<'a>(pages: &'a Pages, rrn: u32) -> Option<Hit<'a>>
    requires { AreNumbered pages.now }
    ensures { option_map entry_of result ≡ chain_number rrn pages.now.entries }
{
    pages.in_order();
    let Some(entry) = pages.next_entry(&before_number(u64::from(rrn))) else {
        return None;
    };
    with_number(hit_on(entry), rrn)
}

/// A hit, where it has this number.
fn with_number<'a>(hit: Hit<'a>, rrn: u32) -> Option<Hit<'a>>
    ensures { option_map entry_of result ≡ with_number rrn (Some (entry_of hit.entry)) }
{
    if hit.rrn == rrn { Some(hit) } else { None }
}

/// A position past which the entries from this number on lie.
fn before_number(from: u64) -> Position<'static>
    ensures { (entry : Entry) → entry ≡ numbered entry.rrn → entry.rrn ≤ MOST_SLOTS → is_past false result entry ≡ nat_le from entry.rrn }
{
    if from == 0 {
        Position::Start
    } else {
        on_number(from - 1)
    }
}

/// The position on this number.
fn on_number(number: u64) -> Position<'static>
    ensures before { (entry : Entry) → entry ≡ numbered entry.rrn → entry.rrn ≤ MOST_SLOTS → is_short false result entry ≡ nat_lt entry.rrn number }
    ensures past { (entry : Entry) → entry ≡ numbered entry.rrn → entry.rrn ≤ MOST_SLOTS → is_past false result entry ≡ nat_lt number entry.rrn }
{
    match u32::try_from(number) {
        Ok(rrn) => Position::On {
            key: &[],
            format: 0,
            rrn,
        },
        Err(_) => Position::End,
    }
}
