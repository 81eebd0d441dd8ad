//! The pages of a list in order, and the free ones. `list.rt` has the list that callers see, `page.rt` one page.

ghost use Rattle.std.specs.Prelude.{◌≡◌, ◌+◌, ◌-◌, ◌*◌, ◌<◌, ◌≤◌, ◌^◌, ◌/◌, [], ◌∷◌, ◌++◌, length, take, drop, insert, remove, reverse, set, All, List, ℕ, IfOk, IfErr, OnOk, true, false, Contains, Some, slice_index_or, vec_len, vec_capacity};
ghost use Rattle.std.specs.List.{slice_get};
ghost use Rattle.std.specs.Option.{option_copied, option_or};
ghost use Rattle.std.specs.List.Sorted.{IsSearchInRange};
ghost use Rattle.key_pages.specs.declared.entries.Entry.{Entry};
ghost use Rattle.key_pages.specs.Order.{IsInOrder};
ghost use Rattle.key_pages.specs.EntryList.{entry_of};
ghost use Rattle.key_pages.specs.StepBound.{IsFewSteps};
ghost use Rattle.key_pages.specs.PageList.{entries_of, page_at, with_page, AreSized, AreLevel, IsPlace, IsNearest, IsIn, IsGapIn};

use crate::counting::Steps;
use crate::entries::{self, Entry, EntryRef};
use crate::halves::Halves;
use crate::page::{FILLED_PAGE_ENTRIES, LEAST_PAGE_ENTRIES, MOST_PAGE_ENTRIES, Page};
use crate::positions::Position;
use crate::search;
use std::alloc::{AllocError, Global};
use std::marker::{Brand, Model};
use std::sync::ledger::{Blank, Ledger};

/// Pages in order, none too small and none too large, and free ones. A page that comes into use was free before, one that
/// goes out of use is free again, so that only `reserve` takes memory.
#[derive(Drop)]
pub(crate) struct Directory {
    pages: Halves,
    free: Vec<Page>,
}

impl Model for Directory {
    ghost use Rattle.std.specs.Prelude.{◌+◌, length, vec_len, vec_capacity};
    ghost use Rattle.key_pages.specs.PageList.{PageList, AreKept};

    ghost Value = { PageList };

    ghost view = { λ directory. record { pages = directory.pages.items; free = vec_len directory.free } };

    ghost invariant = { λ directory. AreKept directory.pages.items directory.free.items (length directory.pages.items + vec_len directory.free) directory.pages.room (vec_capacity directory.free) };
}

impl Directory {
    /// Without a page.
    pub(crate) fn new(alloc: Global) -> Directory
        ensures { result ≡ record { pages = []; free = 0 } }
    {
        Directory {
            pages: Halves::new(alloc),
            free: Vec::new(alloc),
        }
    }

    /// Makes the pages, with the free ones, at least so many.
    pub(crate) fn reserve(&mut self, count: usize) -> Result<(), AllocError>
        ensures pages { self.new.pages ≡ self.old.pages }
        ensures room { OnOk result (count ≤ length self.new.pages + self.new.free) }
        ensures kept { self.old.free ≤ self.new.free }
    {
        let missing = count.saturating_sub(self.pages.len() + self.free.len());
        self.pages.reserve(count)?;
        self.free.reserve(self.pages.len() + missing)?;
        let alloc = *self.free.allocator();
        add_free(&mut self.free, missing, alloc)
    }

    pub(crate) fn count(&self) -> usize
        ensures result { result ≡ length self.now.pages }
        ensures sized { AreSized self.now.pages }
    {
        self.pages.len()
    }

    /// How many entries the page holds.
    pub(crate) fn page_len(&self, number: usize) -> usize
        requires { number < length self.now.pages }
        ensures { result ≡ length (page_at self.now.pages number) }
    {
        self.pages.page(number).len()
    }

    pub(crate) fn entry(&self, number: usize, place: usize) -> Option<&Entry>
        ensures { option_copied result ≡ slice_get (page_at self.now.pages number) place }
    {
        if self.pages.len() <= number {
            return None;
        }
        self.pages.page(number).entries().get(place)
    }

    /// The entry at this place of the page, or past its end the first one of the next page.
    pub(crate) fn entry_from(&self, number: usize, place: usize) -> Option<&Entry>
        requires { number + 1 < 2 ^ 64 }
        ensures { option_copied result ≡ option_or (slice_get (page_at self.now.pages number) place) (slice_get (page_at self.now.pages (number + 1)) 0) }
    {
        match self.entry(number, place) {
            Some(entry) => Some(entry),
            None => self.entry(number + 1, 0),
        }
    }

    /// The page, and how many of its entries lie before the position, or with `itself` also on it.
    pub(crate) fn place<L: Ledger>(
        &self,
        from: &Position<'_>,
        falling: bool,
        itself: bool,
        steps: &mut Steps<L>,
    ) -> (usize, usize)
        requires { IsInOrder falling (entries_of self.now.pages) }
        ensures next { result.0 + 1 < 2 ^ 64 }
        ensures place { IsPlace itself falling from.now self.now.pages result.0 result.1 }
        ensures cost { IsFewSteps (length (entries_of self.now.pages)) steps.old steps.new }
        ensures rises { steps.old ≤ steps.new }
    {
        let begun = search::begun(&self.pages, falling, from, itself, steps);
        if begun == 0 {
            return (0, 0);
        }
        let page = self.pages.page(begun - 1).entries();
        (begun - 1, search::place(page, falling, from, itself, steps))
    }

    /// The page, and where in it the entry is, or where it would go.
    pub(crate) fn find(&self, entry: &EntryRef<'_>, falling: bool) -> (usize, Result<usize, usize>)
        requires { IsInOrder falling (entries_of self.now.pages) }
        ensures number { result.0 ≤ length self.now.pages - 1 }
        ensures within { IsSearchInRange result.1 (length (page_at self.now.pages result.0)) }
        ensures found { IfOk result.1 (IsIn falling (entry_of entry.now) self.now.pages result.0) }
        ensures absent { IfErr result.1 (IsGapIn falling (entry_of entry.now) self.now.pages result.0) }
        ensures few { LEAST_PAGE_ENTRIES * (length self.now.pages - 1) ≤ length (entries_of self.now.pages) }
    {
        let number = self.nearest(entry, falling);
        if self.pages.len() == 0 {
            return (0, Err(0));
        }
        let page = self.pages.page(number).entries();
        (number, entries::find(page, entry, falling))
    }

    // The page that the entry would stand in.
    fn nearest(&self, entry: &EntryRef<'_>, falling: bool) -> usize
        requires { IsInOrder falling (entries_of self.now.pages) }
        ensures { IsNearest falling (entry_of entry.now) self.now.pages result }
    {
        self.nearest_in::<Brand>(entry, falling, Blank::new(1))
    }

    fn nearest_in<L: Ledger>(&self, entry: &EntryRef<'_>, falling: bool, blank: Blank) -> usize
        requires name { blank.name ≡ L.name }
        requires parts { blank.parts ≡ L.parts }
        requires some { 0 < L.parts }
        requires order { IsInOrder falling (entries_of self.now.pages) }
        ensures { IsNearest falling (entry_of entry.now) self.now.pages result }
    {
        let EntryRef { key, format, rrn } = *entry;
        let on = Position::On { key, format, rrn };
        let begun = search::begun(&self.pages, falling, &on, true, &mut Steps::<L>::new(blank));
        begun.saturating_sub(1)
    }

    /// Inserts before the entry at this place of the page, or makes the first page.
    pub(crate) fn insert(&mut self, number: usize, place: usize, entry: Entry)
        requires number { number ≤ length self.old.pages - 1 }
        requires place { place ≤ length (page_at self.old.pages number) }
        requires free { 0 < self.old.free }
        ensures entries { entries_of self.new.pages ≡ with_page self.old.pages number (insert (page_at self.old.pages number) place entry) }
        ensures total { length self.new.pages + self.new.free ≡ length self.old.pages + self.old.free }
    {
        if self.pages.len() == 0 {
            self.insert_first(entry);
        } else if self.pages.page(number).len() < MOST_PAGE_ENTRIES {
            self.insert_within(number, place, entry);
        } else {
            self.insert_split(number, place, entry);
        }
    }

    fn insert_first(&mut self, entry: Entry)
        requires none { self.old.pages ≡ [] }
        requires free { 0 < self.old.free }
        ensures pages { self.new.pages ≡ (entry ∷ []) ∷ [] }
        ensures total { self.new.free + 1 ≡ self.old.free }
    {
        let mut page = self.free.take_last();
        page.push(entry);
        self.pages.push(page);
    }

    fn insert_within(&mut self, number: usize, place: usize, entry: Entry)
        requires number { number < length self.old.pages }
        requires place { place ≤ length (page_at self.old.pages number) }
        requires room { length (page_at self.old.pages number) < MOST_PAGE_ENTRIES }
        ensures pages { self.new.pages ≡ set self.old.pages number (insert (page_at self.old.pages number) place entry) }
        ensures total { self.new.free ≡ self.old.free }
    {
        self.pages.insert_entry(number, place, entry);
    }

    // The page is full: it goes on as two.
    fn insert_split(&mut self, number: usize, place: usize, entry: Entry)
        requires number { number < length self.old.pages }
        requires place { place ≤ length (page_at self.old.pages number) }
        requires full { length (page_at self.old.pages number) ≡ MOST_PAGE_ENTRIES }
        requires free { 0 < self.old.free }
        ensures entries { entries_of self.new.pages ≡ with_page self.old.pages number (insert (page_at self.old.pages number) place entry) }
        ensures total { length self.new.pages + self.new.free ≡ length self.old.pages + self.old.free }
    {
        let mut more = self.free.take_last();
        self.pages.insert_halving(number, place, entry, &mut more);
        self.pages.insert(number + 1, more);
    }

    /// Hands the entry at this place of the page back.
    pub(crate) fn remove(&mut self, number: usize, place: usize) -> Entry
        requires number { number < length self.old.pages }
        requires place { place < length (page_at self.old.pages number) }
        ensures entry { slice_get (page_at self.old.pages number) place ≡ Some result }
        ensures entries { entries_of self.new.pages ≡ with_page self.old.pages number (remove (page_at self.old.pages number) place) }
        ensures total { length self.new.pages + self.new.free ≡ length self.old.pages + self.old.free }
    {
        let len = self.pages.page(number).len();
        let enough = LEAST_PAGE_ENTRIES < len;
        if self.pages.len() == 1 && len == 1 {
            self.remove_only()
        } else if self.pages.len() == 1 || enough {
            self.remove_within(number, place)
        } else {
            self.remove_levelled(number, place)
        }
    }

    fn remove_only(&mut self) -> Entry
        requires one { length self.old.pages ≡ 1 }
        requires only { length (page_at self.old.pages 0) ≡ 1 }
        ensures entry { slice_get (page_at self.old.pages 0) 0 ≡ Some result }
        ensures pages { self.new.pages ≡ [] }
        ensures total { self.new.free ≡ self.old.free + 1 }
    {
        let mut page = self.pages.remove(0);
        let entry = page.remove(0);
        self.free.push_reserved(page);
        entry
    }

    fn remove_within(&mut self, number: usize, place: usize) -> Entry
        requires number { number < length self.old.pages }
        requires place { place < length (page_at self.old.pages number) }
        requires some { 1 < length (page_at self.old.pages number) }
        requires least { 1 < length self.old.pages → LEAST_PAGE_ENTRIES < length (page_at self.old.pages number) }
        ensures entry { slice_get (page_at self.old.pages number) place ≡ Some result }
        ensures pages { self.new.pages ≡ set self.old.pages number (remove (page_at self.old.pages number) place) }
        ensures total { self.new.free ≡ self.old.free }
    {
        self.pages.remove_entry(number, place)
    }

    // The page would have one entry too few.
    fn remove_levelled(&mut self, number: usize, place: usize) -> Entry
        requires number { number < length self.old.pages }
        requires more { 1 < length self.old.pages }
        requires place { place < length (page_at self.old.pages number) }
        ensures entry { slice_get (page_at self.old.pages number) place ≡ Some result }
        ensures entries { entries_of self.new.pages ≡ with_page self.old.pages number (remove (page_at self.old.pages number) place) }
        ensures total { length self.new.pages + self.new.free ≡ length self.old.pages + self.old.free }
    {
        let entry = self.pages.remove_entry(number, place);
        level(&mut self.pages, &mut self.free, number.saturating_sub(1));
        entry
    }

    /// Fills pages with these entries, all with `FILLED_PAGE_ENTRIES` but the last ones.
    pub(crate) fn fill(&mut self, mut entries: Vec<Entry>)
        requires none { self.old.pages ≡ [] }
        requires free { length entries.items ≤ LEAST_PAGE_ENTRIES * self.old.free }
        ensures entries { entries_of self.new.pages ≡ entries.items }
        ensures full { (k : ℕ) → k < length self.new.pages - 2 → length (page_at self.new.pages k) ≡ FILLED_PAGE_ENTRIES }
        ensures total { length self.new.pages + self.new.free ≡ self.old.free }
    {
        entries.reverse();
        while !entries.is_empty() {
            let count = filled_len(entries.len());
            let mut page = self.free.take_last();
            move_front(&mut entries, count, &mut page);
            self.pages.push(page);
        }
    }
}

fn add_free(free: &mut Vec<Page>, count: usize, alloc: Global) -> Result<(), AllocError>
    requires room { vec_len free.old + count ≤ vec_capacity free.old }
    requires empty { All (λ page. page ≡ []) free.old.items }
    ensures empty { All (λ page. page ≡ []) free.new.items }
    ensures added { OnOk result (vec_len free.new ≡ vec_len free.old + count) }
    ensures kept { vec_len free.old ≤ vec_len free.new }
    ensures within { vec_len free.new ≤ vec_len free.old + count }
    ensures capacity { vec_capacity free.new ≡ vec_capacity free.old }
{
    for added in 0..count {
        free.push_reserved(Page::new(alloc)?);
    }
    Ok(())
}

// Two neighbouring pages become one, or where they have too many entries for that, they share them evenly.
fn level(pages: &mut Halves, free: &mut Vec<Page>, left: usize)
    requires left { left + 1 < length pages.old.items }
    requires least { LEAST_PAGE_ENTRIES ≤ length (page_at pages.old.items left) + length (page_at pages.old.items (left + 1)) }
    requires left_most { length (page_at pages.old.items left) ≤ MOST_PAGE_ENTRIES }
    requires right_most { length (page_at pages.old.items (left + 1)) ≤ MOST_PAGE_ENTRIES }
    requires empty { All (λ page. page ≡ []) free.old.items }
    requires room { length pages.old.items + vec_len free.old ≤ pages.old.room }
    requires free_room { length pages.old.items + vec_len free.old ≤ vec_capacity free.old }
    ensures level { (level : List (List Entry)) × AreLevel (page_at pages.old.items left) (page_at pages.old.items (left + 1)) level × (pages.new.items ≡ take left pages.old.items ++ (level ++ drop (left + 2) pages.old.items)) }
    ensures empty { All (λ page. page ≡ []) free.new.items }
    ensures total { length pages.new.items + vec_len free.new ≡ length pages.old.items + vec_len free.old }
    ensures room { pages.new.room ≡ pages.old.room }
    ensures free_capacity { vec_capacity free.old ≤ vec_capacity free.new }
{
    let mut right = pages.remove(left + 1);
    if pages.page(left).len() + right.len() <= MOST_PAGE_ENTRIES {
        pages.join(left, &mut right);
        free.push_reserved(right);
    } else {
        pages.share(left, &mut right);
        pages.insert(left + 1, right);
    }
}

// How many of so many entries the next page gets, so that no later one has too few.
fn filled_len(count: usize) -> usize
    requires { 0 < count }
    ensures some { 0 < result }
    ensures most { result ≤ FILLED_PAGE_ENTRIES }
    ensures within { result ≤ count }
    ensures least { LEAST_PAGE_ENTRIES ≤ count → LEAST_PAGE_ENTRIES ≤ result }
    ensures rest { result < count → LEAST_PAGE_ENTRIES ≤ count - result }
    ensures all { count ≤ FILLED_PAGE_ENTRIES → result ≡ count }
    ensures full { FILLED_PAGE_ENTRIES < count - result → result ≡ FILLED_PAGE_ENTRIES }
{
    if count <= FILLED_PAGE_ENTRIES {
        count
    } else if count < FILLED_PAGE_ENTRIES + LEAST_PAGE_ENTRIES {
        count / 2
    } else {
        FILLED_PAGE_ENTRIES
    }
}

// The entries stand the other way round.
fn move_front(entries: &mut Vec<Entry>, count: usize, into: &mut Page)
    requires within { count ≤ vec_len entries.old }
    requires room { count ≤ MOST_PAGE_ENTRIES }
    requires empty { into.old ≡ [] }
    ensures moved { into.new ++ reverse entries.new.items ≡ reverse entries.old.items }
    ensures count { length into.new ≡ count }
    ensures rest { vec_len entries.new + count ≡ vec_len entries.old }
{
    for taken in 0..count {
        into.push(entries.take_last());
    }
}
