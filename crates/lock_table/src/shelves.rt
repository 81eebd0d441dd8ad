//! Locks on shelves: those of a job are all on one, so that what is asked of a job's locks meets few others. The trees are
//! in row.rt.
ghost use Rattle.std.specs.List.{find};
ghost use Rattle.std.specs.Prelude.{◌≡◌, ◌≤◌, ◌+◌, ◌==◌, [], filter, length, if◌then◌else◌, vec_len, vec_capacity};
ghost use Rattle.lock_table.specs.Lock.{is_boundary_in};
ghost use Rattle.lock_table.specs.Table.{least_job, with_lock, without_lock};
ghost use Rattle.lock_table.specs.Index.{is_part, is_sought};
ghost use Rattle.lock_table.specs.Shelves.{IsShelfOf};

use crate::chosen;
use crate::lock::Lock;
use crate::part::{Part, Sought};
use crate::row::Row;
use crate::table::MOST_LOCKS;
use crate::tree::{LockTree, Node};
use std::alloc::{AllocError, Global};
use std::marker::Model;

/// Locks, seen as one list in order.
#[derive(Drop)]
pub struct Shelves {
    row: Row,
}

impl Model for Shelves {
    ghost use Rattle.std.specs.Prelude.{List};
    ghost use Rattle.lock_table.specs.declared.lock.Lock.{Lock};
    ghost use Rattle.lock_table.specs.Lock.{lock_cmp};
    ghost use Rattle.lock_table.specs.Table.{in_order};
    ghost use Rattle.lock_table.specs.Shelves.{all_on, AreShelved};

    ghost Value = { List Lock };

    ghost view = { λ shelves. in_order lock_cmp (all_on shelves.row) };

    ghost invariant = { λ shelves. AreShelved shelves.row };
}

impl Shelves {
    /// Without a lock.
    pub fn new(alloc: Global) -> Shelves
        ensures { result ≡ [] }
    {
        Shelves {
            row: Row::new(alloc),
        }
    }

    /// Makes so many shelves more, unless a lock is there or it has been done. Shelves bear on time alone.
    pub fn spread(&mut self, count: usize) -> Result<(), AllocError>
        ensures { self.new ≡ self.old }
    {
        self.row.spread(count)
    }

    /// Puts the lock in its place, unless it is there. There is a free node for it, so no memory is taken.
    pub fn put_lock(&mut self, free: &mut Vec<Box<Node>>, lock: Lock)
        requires { length (with_lock lock self.old) ≤ length self.old + vec_len free.old }
        ensures locks { self.new ≡ with_lock lock self.old }
        ensures nodes { length self.new + vec_len free.new ≡ length self.old + vec_len free.old }
        ensures capacity { vec_capacity free.new ≡ vec_capacity free.old }
    {
        let place = lock.job as usize % self.row.count();
        self.row.put(place, free, lock);
    }

    /// Takes the lock out, where it is there. Its node is free then.
    pub fn take_lock(&mut self, free: &mut Vec<Box<Node>>, lock: &Lock)
        requires { length self.old + vec_len free.old ≤ vec_capacity free.old }
        ensures locks { self.new ≡ without_lock lock.now self.old }
        ensures nodes { length self.new + vec_len free.new ≡ length self.old + vec_len free.old }
        ensures capacity { vec_capacity free.new ≡ vec_capacity free.old }
    {
        let place = lock.job as usize % self.row.count();
        self.row.take(place, free, lock);
    }

    /// Whether the lock is there.
    pub fn is_there(&self, lock: &Lock) -> bool
        ensures with_it { length (with_lock lock.now self.now) ≡ length self.now + (if result then 0 else 1) }
        ensures without_it { length (without_lock lock.now self.now) + (if result then 1 else 0) ≡ length self.now }
    {
        chosen::is_there(self.shelf(lock.job), lock)
    }

    /// The first lock of the part that is looked for.
    pub fn first_in(&self, part: Part, sought: Sought) -> Option<Lock>
        ensures { result ≡ find (is_sought sought) (filter (is_part part) self.now) }
    {
        chosen::first_in(self.shelf(part.job()), part, sought)
    }

    /// How many locks of the part are through this open.
    pub fn count_in(&self, part: Part, opened: u32) -> usize
        requires { length self.now ≤ MOST_LOCKS }
        ensures { result ≡ length (filter (λ lock. lock.opened == opened) (filter (is_part part) self.now)) }
    {
        chosen::count_in(self.shelf(part.job()), part, opened)
    }

    /// The least job that keeps a lock on a record of the member to its boundary.
    pub fn least_keeper(&self, member: u32) -> Option<u32>
        ensures { result ≡ least_job (filter (is_boundary_in member) self.now) }
    {
        self.row.least_keeper(member)
    }

    // The shelf of a job's locks.
    fn shelf(&self, job: u32) -> &LockTree
        ensures { IsShelfOf job result.now self.now }
    {
        self.row.shelf(job as usize % self.row.count())
    }
}
