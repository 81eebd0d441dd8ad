//! Binary searches for a position: among pages by the first entry of each, then in one page.

ghost use Rattle.std.specs.Prelude.{◌≡◌, ◌<◌, ◌≤◌, ◌+◌, ◌*◌, ◌-◌, ◌^◌, true, false, length, All};
ghost use Rattle.std.specs.List.{AllWithin};
ghost use Rattle.key_pages.specs.Order.{IsInOrder};
ghost use Rattle.key_pages.specs.Position.{side_of};
ghost use Rattle.key_pages.specs.Search.{is_passed};
ghost use Rattle.key_pages.specs.PageList.{page_at, begins_passed};

use crate::counting::Steps;
use crate::entries::Entry;
use crate::halves::Halves;
use crate::page::Page;
use crate::positions::{self, Position};
use std::cmp::Ordering;
use std::collections::VecDeque;
use std::sync::ledger::Ledger;

/// How many entries lie before the position, or with `itself` also on it.
pub(crate) fn place<L: Ledger>(
    entries: &VecDeque<Entry>,
    falling: bool,
    from: &Position<'_>,
    itself: bool,
    steps: &mut Steps<L>,
) -> usize
    requires { IsInOrder falling entries.now.items }
    ensures within { result ≤ length entries.now.items }
    ensures passed { AllWithin (λ entry. is_passed itself (side_of falling from.now entry) ≡ true) entries.now.items 0 result }
    ensures ahead { AllWithin (λ entry. is_passed itself (side_of falling from.now entry) ≡ false) entries.now.items result (length entries.now.items) }
    ensures cost { 2 ^ (steps.new - steps.old) ≤ 2 * length entries.now.items + 1 }
    ensures rises { steps.old ≤ steps.new }
{
    let mut low = 0;
    let mut high = entries.len();
    while low < high {
        let middle = low + (high - low) / 2;
        let side = positions::side(from, &entries[middle], falling, steps);
        if is_passed(side, itself) {
            low = middle + 1;
        } else {
            high = middle;
        }
    }
    low
}

/// How many pages begin before the position, or with `itself` also on it.
pub(crate) fn begun<L: Ledger>(
    pages: &Halves,
    falling: bool,
    from: &Position<'_>,
    itself: bool,
    steps: &mut Steps<L>,
) -> usize
    requires { All (λ page. 0 < length page) pages.now.items }
    ensures within { result ≤ length pages.now.items }
    ensures passed { 0 < result → begins_passed itself falling from.now (page_at pages.now.items (result - 1)) ≡ true }
    ensures ahead { result < length pages.now.items → begins_passed itself falling from.now (page_at pages.now.items result) ≡ false }
    ensures cost { 2 ^ (steps.new - steps.old) ≤ 2 * length pages.now.items + 1 }
    ensures rises { steps.old ≤ steps.new }
{
    let mut low = 0;
    let mut high = pages.len();
    while low < high {
        let number = low + (high - low) / 2;
        if begins_passed(pages.page(number), falling, from, itself, steps) {
            low = number + 1;
        } else {
            high = number;
        }
    }
    low
}

fn begins_passed<L: Ledger>(
    page: &Page,
    falling: bool,
    from: &Position<'_>,
    itself: bool,
    steps: &mut Steps<L>,
) -> bool
    requires { 0 < length page.now }
    ensures passed { result ≡ begins_passed itself falling from.now page.now }
    ensures cost { steps.new ≡ steps.old + 1 }
{
    let side = positions::side(from, page.first(), falling, steps);
    is_passed(side, itself)
}

fn is_passed(side: Ordering, itself: bool) -> bool
    ensures { result ≡ is_passed itself side }
{
    if itself { side.is_le() } else { side.is_lt() }
}
