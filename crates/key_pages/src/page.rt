//! One page of a list: a run of entries. `directory.rt` holds the pages of a list in order.

ghost use Rattle.std.specs.Prelude.{◌≡◌, ◌+◌, ◌-◌, ◌<◌, ◌≤◌, ◌/◌, [], ◌∷◌, ◌++◌, length, insert, remove, IfOk, slice_index_or};
ghost use Rattle.std.specs.VecDeque.{deque_len, deque_capacity};

use crate::entries::Entry;
use std::alloc::{AllocError, Global};
use std::collections::VecDeque;
use std::marker::Model;
use std::mem;

/// No page has more entries.
pub const MOST_PAGE_ENTRIES: usize = 128;

/// Where there are two pages or more, none has fewer entries.
pub const LEAST_PAGE_ENTRIES: usize = 32;

/// A page that is filled in order has so many, so that inserts find room in it.
pub const FILLED_PAGE_ENTRIES: usize = 96;

/// A run of entries with memory for `MOST_PAGE_ENTRIES`, in a ring, so that either end can move. It lies behind one
/// pointer, so that few bytes move where a page comes between others.
#[derive(Drop)]
pub(crate) struct Page {
    entries: Box<VecDeque<Entry>>,
}

impl Model for Page {
    ghost use Rattle.std.specs.Prelude.{List, ◌≤◌};
    ghost use Rattle.std.specs.VecDeque.{deque_capacity};
    ghost use Rattle.key_pages.specs.declared.entries.Entry.{Entry};
    ghost use Rattle.key_pages.specs.declared.page.TheConstants.{MOST_PAGE_ENTRIES};

    ghost Value = { List Entry };

    ghost view = { λ page. page.entries.value.items };

    ghost invariant = { λ page. MOST_PAGE_ENTRIES ≤ deque_capacity page.entries.value };
}

impl Page {
    /// Without an entry.
    pub(crate) fn new(alloc: Global) -> Result<Page, AllocError>
        ensures { IfOk result (λ page. page ≡ []) }
    {
        let entries = VecDeque::with_capacity(alloc, MOST_PAGE_ENTRIES)?;
        Ok(Page {
            entries: Box::new(alloc, entries)?,
        })
    }

    pub(crate) fn len(&self) -> usize
        ensures { result ≡ length self.now }
    {
        self.entries.len()
    }

    pub(crate) fn entries(&self) -> &VecDeque<Entry>
        ensures { result.now.items ≡ self.now }
    {
        &self.entries
    }

    pub(crate) fn first(&self) -> &Entry
        requires { 0 < length self.now }
        ensures { result.now ≡ slice_index_or self.now 0 result.now }
    {
        &self.entries[0]
    }

    pub(crate) fn push(&mut self, entry: Entry)
        requires { length self.old < MOST_PAGE_ENTRIES }
        ensures { self.new ≡ self.old ++ entry ∷ [] }
    {
        self.entries.push_back_reserved(entry);
    }

    pub(crate) fn push_first(&mut self, entry: Entry)
        requires { length self.old < MOST_PAGE_ENTRIES }
        ensures { self.new ≡ entry ∷ self.old }
    {
        self.entries.push_front_reserved(entry);
    }

    pub(crate) fn insert(&mut self, place: usize, entry: Entry)
        requires within { place ≤ length self.old }
        requires room { length self.old < MOST_PAGE_ENTRIES }
        ensures entries { self.new ≡ insert self.old place entry }
        ensures len { length self.new ≡ length self.old + 1 }
    {
        self.entries.insert(place, entry).unwrap();
    }

    pub(crate) fn remove(&mut self, place: usize) -> Entry
        requires { place < length self.old }
        ensures entry { result ≡ slice_index_or self.old place result }
        ensures rest { self.new ≡ remove self.old place }
        ensures len { length self.new + 1 ≡ length self.old }
    {
        self.entries.remove(place).unwrap()
    }

    /// Moves so many of the last entries before those of the other page.
    pub(crate) fn move_last(&mut self, count: usize, into: &mut Page)
        requires within { count ≤ length self.old }
        requires room { length into.old + count ≤ MOST_PAGE_ENTRIES }
        ensures whole { self.new ++ into.new ≡ self.old ++ into.old }
        ensures kept { length self.new + count ≡ length self.old }
        ensures moved { length into.new ≡ length into.old + count }
    {
        move_last(&mut self.entries, count, &mut into.entries);
    }

    /// Moves so many of the first entries behind those of the other page.
    pub(crate) fn move_first(&mut self, count: usize, into: &mut Page)
        requires within { count ≤ length self.old }
        requires room { length into.old + count ≤ MOST_PAGE_ENTRIES }
        ensures whole { into.new ++ self.new ≡ into.old ++ self.old }
        ensures kept { length self.new + count ≡ length self.old }
        ensures moved { length into.new ≡ length into.old + count }
    {
        move_first(&mut self.entries, count, &mut into.entries);
    }
}

/// Inserts into a full page, whose upper half goes to the empty one. The shorter part moves, the entry on its way, and each
/// entry that moves does so once.
pub(crate) fn insert_halving(page: &mut Page, place: usize, entry: Entry, into: &mut Page)
    requires place { place ≤ length page.old }
    requires full { length page.old ≡ MOST_PAGE_ENTRIES }
    requires empty { into.old ≡ [] }
    ensures entries { page.new ++ into.new ≡ insert page.old place entry }
    ensures lower { length page.new ≡ MOST_PAGE_ENTRIES / 2 }
    ensures upper { length into.new ≡ MOST_PAGE_ENTRIES / 2 + 1 }
{
    let half = MOST_PAGE_ENTRIES / 2;
    if place < half {
        page.move_first(place, into);
        into.push(entry);
        page.move_first(half - 1 - place, into);
        mem::swap(page, into);
    } else {
        page.move_last(MOST_PAGE_ENTRIES - place, into);
        into.push_first(entry);
        page.move_last(place - half, into);
    }
}

/// Moves all entries of the right page behind those of the left one.
pub(crate) fn join(left: &mut Page, right: &mut Page)
    requires most { length left.old + length right.old ≤ MOST_PAGE_ENTRIES }
    ensures left { left.new ≡ left.old ++ right.old }
    ensures right { right.new ≡ [] }
{
    right.move_first(right.len(), left);
}

/// The left page gets half of the entries, the right page the rest.
pub(crate) fn share(left: &mut Page, right: &mut Page)
    requires left_most { length left.old ≤ MOST_PAGE_ENTRIES }
    requires right_most { length right.old ≤ MOST_PAGE_ENTRIES }
    ensures same { left.new ++ right.new ≡ left.old ++ right.old }
    ensures half { length left.new ≡ (length left.old + length right.old) / 2 }
    ensures rest { length right.new + length left.new ≡ length left.old + length right.old }
{
    let half = (left.len() + right.len()) / 2;
    if half < left.len() {
        left.move_last(left.len() - half, right);
    } else {
        right.move_first(half - left.len(), left);
    }
}

fn move_last(from: &mut VecDeque<Entry>, count: usize, into: &mut VecDeque<Entry>)
    requires within { count ≤ deque_len from.old }
    requires room { deque_len into.old + count ≤ deque_capacity into.old }
    ensures whole { from.new.items ++ into.new.items ≡ from.old.items ++ into.old.items }
    ensures kept { deque_len from.new + count ≡ deque_len from.old }
    ensures moved { deque_len into.new ≡ deque_len into.old + count }
    ensures capacity { deque_capacity from.new ≡ deque_capacity from.old }
    ensures into_capacity { deque_capacity into.new ≡ deque_capacity into.old }
{
    for moved in 0..count {
        let entry = from.pop_back().unwrap();
        into.push_front_reserved(entry);
    }
}

fn move_first(from: &mut VecDeque<Entry>, count: usize, into: &mut VecDeque<Entry>)
    requires within { count ≤ deque_len from.old }
    requires room { deque_len into.old + count ≤ deque_capacity into.old }
    ensures whole { into.new.items ++ from.new.items ≡ into.old.items ++ from.old.items }
    ensures kept { deque_len from.new + count ≡ deque_len from.old }
    ensures moved { deque_len into.new ≡ deque_len into.old + count }
    ensures capacity { deque_capacity from.new ≡ deque_capacity from.old }
    ensures into_capacity { deque_capacity into.new ≡ deque_capacity into.old }
{
    for moved in 0..count {
        let entry = from.pop_front().unwrap();
        into.push_back_reserved(entry);
    }
}
