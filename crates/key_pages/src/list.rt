//! The sorted list itself, which callers use. Its pages are in `directory.rt`, what an entry is in `entries.rt`.

ghost use Rattle.std.specs.Prelude.{◌≡◌, ◌≢◌, ◌+◌, ◌-◌, ◌*◌, ◌<◌, ◌≤◌, ◌↔◌, [], length, sum, slice_index, All, AllPairs, Contains, IfOk, IsSome, IsOk, IfSome, OnOk, OnErr, is_some, if◌then◌else◌};
ghost use Rattle.std.specs.Option.{option_copied};
ghost use Rattle.key_pages.specs.Order.{IsInOrder};
ghost use Rattle.key_pages.specs.EntryList.{IsFilled, entry_of, with_entry, without_entry};
ghost use Rattle.key_pages.specs.Position.{next_entry, prior_entry};
ghost use Rattle.key_pages.specs.StepBound.{IsFewSteps};

use crate::counting::Steps;
use crate::directory::Directory;
use crate::entries::{Entry, EntryRef};
use crate::page::{LEAST_PAGE_ENTRIES, MOST_PAGE_ENTRIES};
use crate::positions::Position;
use std::alloc::{AllocError, Global};
use std::marker::{Brand, Model};
use std::sync::ledger::{Blank, Ledger};

/// Entries in order, none twice, in pages, with memory set aside for a number of inserts.
#[derive(Drop)]
pub struct Pages {
    directory: Directory,
    falling: bool,
    len: usize,
    room: usize,
}

impl Model for Pages {
    ghost use Rattle.std.specs.Prelude.{◌-◌, length, map};
    ghost use Rattle.key_pages.specs.EntryList.{EntryList};
    ghost use Rattle.key_pages.specs.PageList.{ArePagesOf, entries_of};

    ghost Value = { EntryList };

    ghost view = { λ list. record { entries = entries_of list.directory.pages; falling = list.falling; spare = list.room - list.len; pages = map (λ page. length page) list.directory.pages } };

    ghost invariant = { λ list. ArePagesOf list.falling list.directory list.len list.room };
}

impl Pages {
    /// An empty list. Ties go by rising relative record number (FIFO), or with `falling` by falling (LIFO).
    pub fn new(alloc: Global, falling: bool) -> Pages
        ensures { result ≡ record { entries = []; falling = falling; spare = 0; pages = [] } }
    {
        Pages {
            directory: Directory::new(alloc),
            falling,
            len: 0,
            room: 0,
        }
    }

    /// A list of these entries, in linear time. Each page has `FILLED_PAGE_ENTRIES`, except that the last two share theirs
    /// evenly where the last would have fewer than `LEAST_PAGE_ENTRIES`. Only want of memory is an error.
    pub fn fill(alloc: Global, falling: bool, entries: Vec<Entry>) -> Result<Pages, AllocError>
        requires { IsInOrder falling entries.items }
        ensures entries { IfOk result (λ list. list.entries ≡ entries.items) }
        ensures falling { IfOk result (λ list. list.falling ≡ falling) }
        ensures pages { IfOk result (λ list. IsFilled list.pages) }
    {
        let len = entries.len();
        let mut directory = Directory::new(alloc);
        directory.reserve(pages_for(len))?;
        directory.fill(entries);
        Ok(Pages {
            directory,
            falling,
            len,
            room: len,
        })
    }

    /// What holds of every list.
    pub fn in_order(&self)
        ensures order { IsInOrder self.now.falling self.now.entries }
        ensures once { AllPairs (λ entry other. entry ≢ other) self.now.entries }
    {
        let _ordered = &self.directory;
    }

    /// The number of pages in use.
    pub fn page_count(&self) -> usize
        ensures count { result ≡ length self.now.pages }
        ensures all { sum self.now.pages ≡ length self.now.entries }
        ensures most { All (λ n. n ≤ MOST_PAGE_ENTRIES) self.now.pages }
        ensures least { 1 < length self.now.pages → All (λ n. LEAST_PAGE_ENTRIES ≤ n) self.now.pages }
    {
        self.directory.count()
    }

    /// How many entries page `number` holds, counted from 0.
    pub fn page_len(&self, number: usize) -> usize
        requires { number < length self.now.pages }
        ensures { result ≡ slice_index self.now.pages number }
    {
        self.directory.page_len(number)
    }

    /// Sets memory aside for at least so many inserts. Only want of memory is an error.
    pub fn reserve(&mut self, more: u32) -> Result<(), AllocError>
        ensures entries { self.new.entries ≡ self.old.entries }
        ensures falling { self.new.falling ≡ self.old.falling }
        ensures pages { self.new.pages ≡ self.old.pages }
        ensures room { OnOk result (more ≤ self.new.spare) }
        ensures kept { self.old.spare ≤ self.new.spare }
        ensures enough { more ≤ self.old.spare → IsOk result }
        ensures err { OnErr result (self.new ≡ self.old) }
    {
        let Some(room) = self.len.checked_add(more as usize) else {
            return Err(AllocError);
        };
        if self.room < room {
            self.directory.reserve(pages_for(room))?;
            self.room = room;
        }
        Ok(())
    }

    /// Inserts at its place.
    pub fn insert_reserved(&mut self, entry: Entry)
        requires spare { 0 < self.old.spare }
        requires absent { ¬ Contains self.old.entries entry }
        ensures entries { self.new.entries ≡ with_entry self.old.falling entry self.old.entries }
        ensures falling { self.new.falling ≡ self.old.falling }
        ensures spare { self.new.spare + 1 ≡ self.old.spare }
    {
        let (number, found) = self.directory.find(&entry.borrowed(), self.falling);
        let place = found.unwrap_err();
        self.len += 1;
        self.directory.insert(number, place, entry);
    }

    /// Hands the entry back, where it is there. Its memory is then spare.
    pub fn remove(&mut self, entry: &EntryRef<'_>) -> Option<Entry>
        ensures found { IsSome result ↔ Contains self.old.entries (entry_of entry.now) }
        ensures entry { IfSome result (λ removed. removed ≡ entry_of entry.now) }
        ensures entries { self.new.entries ≡ without_entry self.old.falling (entry_of entry.now) self.old.entries }
        ensures falling { self.new.falling ≡ self.old.falling }
        ensures spare { self.new.spare ≡ (if is_some result then self.old.spare + 1 else self.old.spare) }
    {
        let (number, found) = self.directory.find(entry, self.falling);
        let Ok(place) = found else {
            return None;
        };
        self.len -= 1;
        Some(self.directory.remove(number, place))
    }

    /// The first entry past the position, by binary search. A comparison of an entry with the position is a step.
    pub fn after<L: Ledger>(&self, from: &Position<'_>, steps: &mut Steps<L>) -> Option<&Entry>
        ensures first { option_copied result ≡ next_entry self.now.falling from.now self.now.entries }
        ensures cost { IsFewSteps (length self.now.entries) steps.old steps.new }
        ensures rises { steps.old ≤ steps.new }
    {
        let (number, place) = self.directory.place(from, self.falling, true, steps);
        self.directory.entry_from(number, place)
    }

    /// The last entry before the position, by binary search. A comparison of an entry with the position is a step.
    pub fn before<L: Ledger>(&self, from: &Position<'_>, steps: &mut Steps<L>) -> Option<&Entry>
        ensures last { option_copied result ≡ prior_entry self.now.falling from.now self.now.entries }
        ensures cost { IsFewSteps (length self.now.entries) steps.old steps.new }
        ensures rises { steps.old ≤ steps.new }
    {
        let (number, place) = self.directory.place(from, self.falling, false, steps);
        if place == 0 {
            return None;
        }
        self.directory.entry(number, place - 1)
    }

    /// The first entry past the position, for callers who count nothing.
    pub fn next_entry(&self, from: &Position<'_>) -> Option<&Entry>
        ensures { option_copied result ≡ next_entry self.now.falling from.now self.now.entries }
    {
        self.next_entry_in::<Brand>(from, Blank::new(1))
    }

    /// The last entry before the position, for callers who count nothing.
    pub fn prior_entry(&self, from: &Position<'_>) -> Option<&Entry>
        ensures { option_copied result ≡ prior_entry self.now.falling from.now self.now.entries }
    {
        self.prior_entry_in::<Brand>(from, Blank::new(1))
    }

    fn next_entry_in<L: Ledger>(&self, from: &Position<'_>, blank: Blank) -> Option<&Entry>
        requires name { blank.name ≡ L.name }
        requires parts { blank.parts ≡ L.parts }
        requires some { 0 < L.parts }
        ensures { option_copied result ≡ next_entry self.now.falling from.now self.now.entries }
    {
        self.after(from, &mut Steps::<L>::new(blank))
    }

    fn prior_entry_in<L: Ledger>(&self, from: &Position<'_>, blank: Blank) -> Option<&Entry>
        requires name { blank.name ≡ L.name }
        requires parts { blank.parts ≡ L.parts }
        requires some { 0 < L.parts }
        ensures { option_copied result ≡ prior_entry self.now.falling from.now self.now.entries }
    {
        self.before(from, &mut Steps::<L>::new(blank))
    }
}

// Each page in use but one has at least `LEAST_PAGE_ENTRIES`. So with two pages more there is always a free one.
fn pages_for(room: usize) -> usize
    ensures { room ≤ LEAST_PAGE_ENTRIES * (result - 2) }
{
    room.div_ceil(LEAST_PAGE_ENTRIES) + 2
}
