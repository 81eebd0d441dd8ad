//! A row of shelves, each a tree of locks. On which shelf a lock belongs is in shelves.rt.
ghost use Rattle.std.specs.Prelude.{◌≡◌, ◌≤◌, ◌<◌, ◌+◌, ℕ, [], ◌∷◌, IfOk, IsTrue, length, replicate, set, vec_len, vec_capacity};
ghost use Rattle.std.specs.List.Sorted.{IsStrictlySortedBy};
ghost use Rattle.lock_table.specs.Lock.{is_boundary_in, lock_cmp};
ghost use Rattle.lock_table.specs.Table.{with_lock, without_lock};
ghost use Rattle.lock_table.specs.Shelves.{all_on, least_on, shelf_at, AreShelved};

use crate::chosen::{least_keeper, lesser};
use crate::lock::Lock;
use crate::sorted::{put_lock, take_lock};
use crate::tree::{LockTree, Node};
use std::alloc::{AllocError, Global};
use std::marker::Model;

/// Shelves in a row: one at least, so that a lock always has its shelf.
#[derive(Drop)]
pub struct Row {
    first: LockTree,
    more: Vec<LockTree>,
}

impl Model for Row {
    ghost use Rattle.std.specs.Prelude.{List, ◌∷◌};
    ghost use Rattle.lock_table.specs.declared.lock.Lock.{Lock};

    ghost Value = { List (List Lock) };

    ghost view = { λ row. row.first ∷ row.more.items };
}

impl Row {
    /// One empty shelf.
    pub fn new(alloc: Global) -> Row
        ensures { result ≡ [] ∷ [] }
    {
        Row {
            first: LockTree::new(),
            more: Vec::new(alloc),
        }
    }

    /// How many shelves there are.
    pub fn count(&self) -> usize
        ensures { result ≡ length self.now }
    {
        self.more.len() + 1
    }

    /// The shelf with this number, counted from 0.
    pub fn shelf(&self, place: usize) -> &LockTree
        requires { place < length self.now }
        ensures { result.now ≡ shelf_at self.now place }
    {
        if place == 0 {
            &self.first
        } else {
            &self.more[place - 1]
        }
    }

    /// Puts the lock on the shelf, unless it is there. There is a free node for it, so no memory is taken.
    pub fn put(&mut self, place: usize, free: &mut Vec<Box<Node>>, lock: Lock)
        requires place { place < length self.old }
        requires ordered { IsStrictlySortedBy lock_cmp (shelf_at self.old place) }
        requires room { length (with_lock lock (shelf_at self.old place)) ≤ length (shelf_at self.old place) + vec_len free.old }
        ensures locks { self.new ≡ set self.old place (with_lock lock (shelf_at self.old place)) }
        ensures nodes { length (with_lock lock (shelf_at self.old place)) + vec_len free.new ≡ length (shelf_at self.old place) + vec_len free.old }
        ensures capacity { vec_capacity free.new ≡ vec_capacity free.old }
    {
        if place == 0 {
            put_lock(&mut self.first, free, lock);
        } else {
            put_lock(&mut self.more[place - 1], free, lock);
        }
    }

    /// Takes the lock from the shelf, where it is there. Its node is free then.
    pub fn take(&mut self, place: usize, free: &mut Vec<Box<Node>>, lock: &Lock)
        requires place { place < length self.old }
        requires ordered { IsStrictlySortedBy lock_cmp (shelf_at self.old place) }
        requires stored { length (shelf_at self.old place) + vec_len free.old ≤ vec_capacity free.old }
        ensures locks { self.new ≡ set self.old place (without_lock lock.now (shelf_at self.old place)) }
        ensures nodes { length (without_lock lock.now (shelf_at self.old place)) + vec_len free.new ≡ length (shelf_at self.old place) + vec_len free.old }
        ensures capacity { vec_capacity free.new ≡ vec_capacity free.old }
    {
        if place == 0 {
            take_lock(&mut self.first, free, lock);
        } else {
            take_lock(&mut self.more[place - 1], free, lock);
        }
    }

    /// Makes so many shelves more, where there is one alone and it is empty.
    pub fn spread(&mut self, count: usize) -> Result<(), AllocError>
        ensures locks { all_on self.new ≡ all_on self.old }
        ensures shelved { AreShelved self.old → AreShelved self.new }
    {
        if self.is_bare() {
            self.widen(count)
        } else {
            Ok(())
        }
    }

    fn is_bare(&self) -> bool
        ensures { IsTrue result → self.now ≡ [] ∷ [] }
    {
        self.more.len() == 0 && self.first.is_empty()
    }

    fn widen(&mut self, count: usize) -> Result<(), AllocError>
        requires { self.old ≡ [] ∷ [] }
        ensures locks { all_on self.new ≡ all_on self.old }
        ensures shelved { AreShelved self.old → AreShelved self.new }
    {
        let alloc = *self.more.allocator();
        let more = empty_shelves(alloc, count)?;
        self.more = more;
        Ok(())
    }

    /// The least job that keeps a lock on a record of the member to its boundary.
    pub fn least_keeper(&self, member: u32) -> Option<u32>
        requires { AreShelved self.now }
        ensures { result ≡ least_on (is_boundary_in member) self.now }
    {
        let first = least_keeper(&self.first, member);
        lesser(first, least_among(self.more.as_slice(), member))
    }
}

fn least_among(shelves: &[LockTree], member: u32) -> Option<u32>
    requires { (place : ℕ) → place < length shelves.now → IsStrictlySortedBy lock_cmp (shelf_at shelves.now place) }
    ensures { result ≡ least_on (is_boundary_in member) shelves.now }
{
    let mut left = shelves.len();
    let mut least = None;
    while left > 0 {
        left -= 1;
        least = lesser(least_keeper(&shelves[left], member), least);
    }
    least
}

fn empty_shelves(alloc: Global, count: usize) -> Result<Vec<LockTree>, AllocError>
    ensures { IfOk result (λ shelves. shelves.items ≡ replicate count []) }
{
    let mut shelves = Vec::with_capacity(alloc, count)?;
    for made in 0..count {
        shelves.push_reserved(LockTree::new());
    }
    Ok(shelves)
}
