//! The pages of a list in order. `page.rt` has one page, `directory.rt` says how full they are.

ghost use Rattle.std.specs.Prelude.{◌≡◌, ◌+◌, ◌-◌, ◌*◌, ◌<◌, ◌≤◌, ◌/◌, [], ◌∷◌, ◌++◌, length, insert, remove, set, List, ℕ, OnOk, slice_index_or};
ghost use Rattle.std.specs.VecDeque.{deque_len, deque_capacity};
ghost use Rattle.key_pages.specs.declared.entries.Entry.{Entry};
ghost use Rattle.key_pages.specs.PageList.{page_at};

use crate::entries::Entry;
use crate::page::{self, MOST_PAGE_ENTRIES, Page};
use std::alloc::{AllocError, Global};
use std::collections::VecDeque;
use std::marker::Model;

/// Pages, the first half of them in one ring and the others in a second. The shorter side of a ring moves, so where a page
/// comes or goes at most a quarter of the pages do, and one goes from ring to ring.
#[derive(Drop)]
pub(crate) struct Halves {
    front: VecDeque<Page>,
    back: VecDeque<Page>,
    room: usize,
}

impl Model for Halves {
    ghost use Rattle.std.specs.Prelude.{◌++◌};
    ghost use Rattle.std.specs.VecDeque.{deque_len, deque_capacity};
    ghost use Rattle.key_pages.specs.PageList.{PageRow, AreHalves};

    ghost Value = { PageRow };

    ghost view = { λ halves. record { items = halves.front.items ++ halves.back.items; room = halves.room } };

    ghost invariant = { λ halves. AreHalves (deque_len halves.front) (deque_len halves.back) halves.room (deque_capacity halves.front) (deque_capacity halves.back) };
}

impl Halves {
    /// Without a page.
    pub(crate) fn new(alloc: Global) -> Halves
        ensures { result ≡ record { items = []; room = 0 } }
    {
        Halves {
            front: VecDeque::new(alloc),
            back: VecDeque::new(alloc),
            room: 0,
        }
    }

    /// Sets memory aside for so many pages. In either ring it is for half of them, and one that is on its way.
    pub(crate) fn reserve(&mut self, count: usize) -> Result<(), AllocError>
        ensures items { self.new.items ≡ self.old.items }
        ensures room { OnOk result (count ≤ self.new.room) }
        ensures kept { self.old.room ≤ self.new.room }
    {
        if self.room < count {
            let half = count / 2 + 2;
            self.front.reserve(half.saturating_sub(self.front.len()))?;
            self.back.reserve(half.saturating_sub(self.back.len()))?;
            self.room = count;
        }
        Ok(())
    }

    pub(crate) fn len(&self) -> usize
        ensures len { result ≡ length self.now.items }
        ensures within { result ≤ self.now.room }
    {
        self.front.len() + self.back.len()
    }

    /// The page with this number, counted from 0.
    pub(crate) fn page(&self, number: usize) -> &Page
        requires { number < length self.now.items }
        ensures { result.now ≡ page_at self.now.items number }
    {
        let half = self.front.len();
        if number < half {
            &self.front[number]
        } else {
            &self.back[number - half]
        }
    }

    pub(crate) fn push(&mut self, page: Page)
        requires { length self.old.items < self.old.room }
        ensures items { self.new.items ≡ self.old.items ++ page ∷ [] }
        ensures room { self.new.room ≡ self.old.room }
    {
        self.insert(self.len(), page);
    }

    /// Puts the page before the one with this number.
    pub(crate) fn insert(&mut self, number: usize, page: Page)
        requires number { number ≤ length self.old.items }
        requires room { length self.old.items < self.old.room }
        ensures items { self.new.items ≡ insert self.old.items number page }
        ensures room { self.new.room ≡ self.old.room }
    {
        put_in(&mut self.front, &mut self.back, number, page);
        even_out(&mut self.front, &mut self.back);
    }

    pub(crate) fn remove(&mut self, number: usize) -> Page
        requires { number < length self.old.items }
        ensures page { result ≡ page_at self.old.items number }
        ensures items { self.new.items ≡ remove self.old.items number }
        ensures room { self.new.room ≡ self.old.room }
    {
        let page = take_out(&mut self.front, &mut self.back, number);
        even_out(&mut self.front, &mut self.back);
        page
    }

    /// Inserts before the entry at this place of the page.
    pub(crate) fn insert_entry(&mut self, number: usize, place: usize, entry: Entry)
        requires number { number < length self.old.items }
        requires place { place ≤ length (page_at self.old.items number) }
        requires free { length (page_at self.old.items number) < MOST_PAGE_ENTRIES }
        ensures items { self.new.items ≡ set self.old.items number (insert (page_at self.old.items number) place entry) }
        ensures room { self.new.room ≡ self.old.room }
    {
        let half = self.front.len();
        if number < half {
            self.front[number].insert(place, entry);
        } else {
            self.back[number - half].insert(place, entry);
        }
    }

    /// Hands the entry at this place of the page back.
    pub(crate) fn remove_entry(&mut self, number: usize, place: usize) -> Entry
        requires number { number < length self.old.items }
        requires place { place < length (page_at self.old.items number) }
        ensures entry { result ≡ slice_index_or (page_at self.old.items number) place result }
        ensures items { self.new.items ≡ set self.old.items number (remove (page_at self.old.items number) place) }
        ensures room { self.new.room ≡ self.old.room }
    {
        let half = self.front.len();
        if number < half {
            self.front[number].remove(place)
        } else {
            self.back[number - half].remove(place)
        }
    }

    /// Inserts into a full page, whose upper half goes to the empty one.
    pub(crate) fn insert_halving(
        &mut self,
        number: usize,
        place: usize,
        entry: Entry,
        into: &mut Page,
    )
        requires number { number < length self.old.items }
        requires place { place ≤ length (page_at self.old.items number) }
        requires full { length (page_at self.old.items number) ≡ MOST_PAGE_ENTRIES }
        requires empty { into.old ≡ [] }
        ensures lower { (page : List Entry) × (self.new.items ≡ set self.old.items number page) × (page ++ into.new ≡ insert (page_at self.old.items number) place entry) × (length page ≡ MOST_PAGE_ENTRIES / 2) }
        ensures upper { length into.new ≡ MOST_PAGE_ENTRIES / 2 + 1 }
        ensures room { self.new.room ≡ self.old.room }
    {
        let half = self.front.len();
        if number < half {
            page::insert_halving(&mut self.front[number], place, entry, into);
        } else {
            page::insert_halving(&mut self.back[number - half], place, entry, into);
        }
    }

    /// Moves all entries of `right` behind those of the page.
    pub(crate) fn join(&mut self, number: usize, right: &mut Page)
        requires number { number < length self.old.items }
        requires most { length (page_at self.old.items number) + length right.old ≤ MOST_PAGE_ENTRIES }
        ensures items { self.new.items ≡ set self.old.items number (page_at self.old.items number ++ right.old) }
        ensures right { right.new ≡ [] }
        ensures room { self.new.room ≡ self.old.room }
    {
        let half = self.front.len();
        if number < half {
            page::join(&mut self.front[number], right);
        } else {
            page::join(&mut self.back[number - half], right);
        }
    }

    /// The page gets half of the entries, `right` the rest.
    pub(crate) fn share(&mut self, number: usize, right: &mut Page)
        requires number { number < length self.old.items }
        requires left_most { length (page_at self.old.items number) ≤ MOST_PAGE_ENTRIES }
        requires right_most { length right.old ≤ MOST_PAGE_ENTRIES }
        ensures left { (page : List Entry) × (self.new.items ≡ set self.old.items number page) × (page ++ right.new ≡ page_at self.old.items number ++ right.old) × (length page ≡ (length (page_at self.old.items number) + length right.old) / 2) }
        ensures room { self.new.room ≡ self.old.room }
    {
        let half = self.front.len();
        if number < half {
            page::share(&mut self.front[number], right);
        } else {
            page::share(&mut self.back[number - half], right);
        }
    }
}

fn put_in(front: &mut VecDeque<Page>, back: &mut VecDeque<Page>, number: usize, page: Page)
    requires number { number ≤ deque_len front.old + deque_len back.old }
    requires front_room { deque_len front.old < deque_capacity front.old }
    requires back_room { deque_len back.old < deque_capacity back.old }
    ensures whole { front.new.items ++ back.new.items ≡ insert (front.old.items ++ back.old.items) number page }
    ensures count { deque_len front.new + deque_len back.new ≡ deque_len front.old + deque_len back.old + 1 }
    ensures front_len { deque_len front.old ≤ deque_len front.new }
    ensures back_len { deque_len back.old ≤ deque_len back.new }
    ensures front_capacity { deque_capacity front.old ≤ deque_capacity front.new }
    ensures back_capacity { deque_capacity back.old ≤ deque_capacity back.new }
{
    let half = front.len();
    if number <= half {
        front.insert(number, page).unwrap();
    } else {
        back.insert(number - half, page).unwrap();
    }
}

fn take_out(front: &mut VecDeque<Page>, back: &mut VecDeque<Page>, number: usize) -> Page
    requires { number < deque_len front.old + deque_len back.old }
    ensures page { result ≡ page_at (front.old.items ++ back.old.items) number }
    ensures whole { front.new.items ++ back.new.items ≡ remove (front.old.items ++ back.old.items) number }
    ensures count { deque_len front.new + deque_len back.new + 1 ≡ deque_len front.old + deque_len back.old }
    ensures front_len { deque_len front.new ≤ deque_len front.old }
    ensures back_len { deque_len back.new ≤ deque_len back.old }
    ensures front_capacity { deque_capacity front.new ≡ deque_capacity front.old }
    ensures back_capacity { deque_capacity back.new ≡ deque_capacity back.old }
{
    let half = front.len();
    if number < half {
        front.remove(number).unwrap()
    } else {
        back.remove(number - half).unwrap()
    }
}

// A page goes from one ring to the other where the first doesn't have as many as the second or one more.
fn even_out(front: &mut VecDeque<Page>, back: &mut VecDeque<Page>)
    requires upper { deque_len front.old ≤ deque_len back.old + 2 }
    requires lower { deque_len back.old ≤ deque_len front.old + 1 }
    requires front_room { deque_len front.old < deque_len back.old → deque_len front.old < deque_capacity front.old }
    requires back_room { deque_len back.old + 1 < deque_len front.old → deque_len back.old < deque_capacity back.old }
    ensures whole { front.new.items ++ back.new.items ≡ front.old.items ++ back.old.items }
    ensures count { deque_len front.new + deque_len back.new ≡ deque_len front.old + deque_len back.old }
    ensures even { deque_len back.new ≤ deque_len front.new }
    ensures near { deque_len front.new ≤ deque_len back.new + 1 }
    ensures front_capacity { deque_capacity front.new ≡ deque_capacity front.old }
    ensures back_capacity { deque_capacity back.new ≡ deque_capacity back.old }
{
    if back.len() + 1 < front.len() {
        let page = front.pop_back().unwrap();
        back.push_front_reserved(page);
    } else if front.len() < back.len() {
        let page = back.pop_front().unwrap();
        front.push_back_reserved(page);
    }
}
