//! The locks of a table once more, by record: so who holds a record is found at once, however many jobs hold locks.
//! Locks side by side are those on a record with one reach, the least job first.
ghost use Rattle.std.specs.Prelude.{◌≡◌, ◌≤◌, [], IsOk, OnOk, length};
ghost use Rattle.lock_table.specs.declared.lock.Reach.TheVariants.{Open, Boundary};
ghost use Rattle.lock_table.specs.Table.{holding, with_lock, without_lock};
ghost use Rattle.lock_table.specs.Index.{first_against, lesser, record_first};

use crate::chosen::lesser;
use crate::lock::{Lock, LockKind, Reach, RecordId};
use crate::part::{Part, Sought};
use crate::shelves::Shelves;
use crate::table::MOST_LOCKS;
use crate::tree::{Node, add_free};
use std::alloc::{AllocError, Global};
use std::marker::Model;

/// On how many shelves the locks are by record number, beside the first.
const RECORD_SHELVES: usize = 16_383;

/// Locks with their record number in the place of their job.
#[derive(Drop)]
pub struct Marks {
    locks: Shelves,
    free: Vec<Box<Node>>,
    // Those of the locks and the free ones.
    nodes: usize,
}

impl Model for Marks {
    ghost use Rattle.std.specs.Vec.{vec_len, vec_capacity};
    ghost use Rattle.lock_table.specs.Table.{Locks};
    ghost use Rattle.lock_table.specs.Index.{AreMarks};

    ghost Value = { Locks };

    ghost view = { λ t. record { held = t.locks; room = t.nodes } };

    ghost invariant = { λ t. AreMarks t.locks t.nodes (vec_len t.free) (vec_capacity t.free) };
}

impl Marks {
    pub fn new(alloc: Global) -> Marks
        ensures { result ≡ record { held = []; room = 0 } }
    {
        Marks {
            locks: Shelves::new(alloc),
            free: Vec::new(alloc),
            nodes: 0,
        }
    }

    /// Makes room for so many locks in all.
    pub fn reserve(&mut self, wanted: usize) -> Result<(), AllocError>
        requires { wanted ≤ MOST_LOCKS }
        ensures ok { OnOk result (wanted ≤ self.new.room) }

        // Room that is there already needs no memory.
        ensures ready { wanted ≤ self.old.room → IsOk result }
        ensures grown { self.old.room ≤ self.new.room }
        ensures same { self.new.held ≡ self.old.held }
    {
        if wanted > self.nodes {
            self.locks.spread(RECORD_SHELVES)?;
            let held = self.nodes - self.free.len();
            let added = add_free(&mut self.free, held, wanted - self.nodes);
            self.nodes = held + self.free.len();
            added?;
        }
        Ok(())
    }

    /// The least other job that has a lock on the record that clashes with this job's lock of that kind.
    pub fn blocker(&self, job: u32, at: RecordId, kind: LockKind) -> Option<u32>
        ensures { result ≡ lesser (first_against Open job at kind self.now.held) (first_against Boundary job at kind self.now.held) }
    {
        let open = first_against(&self.locks, Reach::Open, (job, at, kind));
        let kept = first_against(&self.locks, Reach::Boundary, (job, at, kind));
        lesser(open, kept)
    }

    /// Puts the lock in, unless it is there.
    pub fn put(&mut self, lock: Lock)
        requires { length (with_lock (record_first lock) self.old.held) ≤ self.old.room }
        ensures { self.new ≡ holding (with_lock (record_first lock) self.old.held) self.old }
    {
        self.locks.put_lock(&mut self.free, lock.record_first());
    }

    /// Takes the lock out, where it is there.
    pub fn take(&mut self, lock: Lock)
        ensures { self.new ≡ holding (without_lock (record_first lock) self.old.held) self.old }
    {
        let mark = lock.record_first();
        self.locks.take_lock(&mut self.free, &mark);
    }
}

// The least job that has a lock of this reach on the record against this job's lock of that kind.
fn first_against(locks: &Shelves, reach: Reach, asked: (u32, RecordId, LockKind)) -> Option<u32>
    ensures { result ≡ first_against reach asked.0 asked.1 asked.2 locks.now }
{
    let (job, at, kind) = asked;
    let part = Part::InMember(at.rrn, reach, at.member);
    match locks.first_in(part, Sought::Against(job, kind)) {
        Some(lock) => Some(lock.at.rrn),
        None => None,
    }
}
