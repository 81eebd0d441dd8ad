//! The table of all record locks: one list in order, where those of a job stand side by side, its open locks before its
//! boundary locks. It is kept as a tree a job (shelves.rt, tree.rt), so that no lock moves for another one. The searches in
//! it are in sorted.rt and chosen.rt. Its locks are kept by record besides (marks.rt).
ghost use Rattle.std.specs.List.{All, Contains, list_any};
ghost use Rattle.std.specs.Prelude.{true, false, ◌≡◌, ℕ, ◌+◌, ◌<◌, ◌≤◌, ◌==◌, ◌↔◌, Bool, Option, IsOk, IsErrOf, OnOk, OnErr, IfSome, IfNone, Some, None, Err, [], length, filter};
ghost use Rattle.commit_level.specs.declared.Level.{Level};
ghost use Rattle.lock_table.specs.declared.levels.Call.TheVariants.{Commit, Rollback, EndJob};
ghost use Rattle.lock_table.specs.declared.lock.RecordId.{RecordId};
ghost use Rattle.lock_table.specs.declared.lock.Reach.TheVariants.{Open, Boundary};
ghost use Rattle.lock_table.specs.Lock.{Clashes, is_by, is_open, is_of_job, is_of_open, is_of_open_on, is_of_record, is_of_group, is_of_group_on, is_boundary_in, bound};
ghost use Rattle.lock_table.specs.Table.{IsTable, IsOneOf, HasRoom, without_lock, with_lock, with_lock_by, holding, reserved, after_read, blocker, least_job, kept_to_boundary, freed};
ghost use Rattle.lock_table.specs.Index.{is_part};
ghost use Rattle.lock_table.specs.Levels.{locks_after};

use crate::fault::{InUse, LockFault};
use crate::lock::{Holder, Lock, LockKind, Reach, RecordId};
use crate::marks::Marks;
use crate::part::{Part, Sought};
use crate::shelves::Shelves;
use crate::tree::{Node, add_free};
use std::alloc::Global;
use std::marker::Model;

/// How many locks may be held at a time.
pub const MOST_LOCKS: u32 = 500_000;

/// On how many shelves the locks are by job, beside the first: as many as a run may have jobs, so that each has its own.
const JOB_SHELVES: usize = 64;

/// The record locks of all jobs.
#[derive(Drop)]
pub struct LockTable {
    // By job.
    locks: Shelves,
    free: Vec<Box<Node>>,
    // Those of the locks and the free ones.
    nodes: usize,
    // The same locks by record.
    marks: Marks,
    room: usize,
}

impl Model for LockTable {
    ghost use Rattle.std.specs.Vec.{vec_len, vec_capacity};
    ghost use Rattle.lock_table.specs.Table.{Locks};
    ghost use Rattle.lock_table.specs.Index.{IsMarked};

    ghost Value = { Locks };

    ghost view = { λ t. record { held = t.locks; room = t.room } };

    ghost invariant = { λ t. IsMarked t.locks t.room t.nodes (vec_len t.free) (vec_capacity t.free) t.marks };
}

/// What a job holds on a record.
#[derive(Clone, Copy, PartialEq)]
pub struct Held {
    /// The open has a lock that ends at its next read.
    pub by_open: bool,
    /// The job has a lock that it keeps to its boundary, through any of its opens.
    pub to_boundary: bool,
}

impl LockTable {
    /// An empty table.
    pub fn new(alloc: Global) -> LockTable
        ensures { result ≡ record { held = []; room = 0 } }
    {
        LockTable {
            locks: Shelves::new(alloc),
            free: Vec::new(alloc),
            nodes: 0,
            marks: Marks::new(alloc),
            room: 0,
        }
    }

    /// How many locks are held.
    pub fn count(&self) -> u32
        ensures count { result ≡ length self.now.held }

        // No two locks that are held clash, and no more than the most are held.
        ensures table { IsTable self.now }
    {
        self.held_count() as u32
    }

    /// Makes room for so many more locks than are held.
    pub fn reserve(&mut self, more: u32) -> Result<(), LockFault>
        ensures ok { OnOk result (self.new ≡ reserved more self.old) }
        ensures full { IsErrOf result LockFault.Full ↔ (MOST_LOCKS < length self.old.held + more) }

        // Room that is there already needs no memory.
        ensures ready { length self.old.held + more ≤ self.old.room → IsOk result }
        ensures refused { OnErr result (self.new ≡ self.old) }
    {
        let held = self.nodes - self.free.len();
        let wanted = held + more as usize;
        if wanted > MOST_LOCKS as usize {
            return Err(LockFault::Full);
        }
        if wanted > self.nodes {
            self.locks.spread(JOB_SHELVES)?;
            let added = add_free(&mut self.free, held, wanted - self.nodes);
            self.nodes = held + self.free.len();
            added?;
        }
        self.marks.reserve(wanted)?;
        self.room = self.room.max(wanted);
        Ok(())
    }

    /// The least other job that has a clashing lock on the record, `None` where no job has one.
    pub fn clash(&self, job: u32, at: RecordId, kind: LockKind) -> Option<u32>
        ensures { result ≡ blocker job at kind self.now.held }
    {
        self.marks.blocker(job, at, kind)
    }

    /// How many locks would be held after a read through this open that locks the record so.
    ///
    /// The read gives up the older lock of its open, and the very lock may be held already.
    pub fn count_after(&self, holder: Holder, at: RecordId, kind: LockKind, reach: Reach) -> u32
        ensures { result ≡ length (after_read holder at kind reach self.now.held) }
    {
        let left = self.held_count() - self.open_count(holder);
        (left + self.growth(holder.lock(at, kind, reach))) as u32
    }

    /// How many locks would be held once the record is locked to the boundary, as by a WRITE under commitment.
    ///
    /// The very lock may be held already, to the boundary or to the next read.
    pub fn count_to_boundary(&self, holder: Holder, at: RecordId, kind: LockKind) -> u32
        ensures { result ≡ length (with_lock_by holder at kind Boundary self.now.held) }
    {
        let to_next_read = holder.lock(at, kind, Reach::Open);
        let to_boundary = holder.lock(at, kind, Reach::Boundary);
        let left = self.held_count() - self.shrinkage(to_next_read);
        (left + self.growth(to_boundary)) as u32
    }

    /// Locks the record for this open of the job, to its next read.
    ///
    /// What the job holds there already is held besides. The very same lock is held once: asking for it again is OK
    /// and takes no room. The room stays as it is.
    pub fn ask(&mut self, holder: Holder, at: RecordId, kind: LockKind) -> Result<(), InUse>
        requires { HasRoom holder at kind Open self.old }
        ensures granted { OnOk result (self.new ≡ holding (with_lock_by holder at kind Open self.old.held) self.old) }
        ensures ok { IsOk result ↔ (blocker holder.job at kind self.old.held ≡ None) }
        ensures in_use { (other : ℕ) → (result ≡ Err (record { job = other })) ↔ (blocker holder.job at kind self.old.held ≡ Some other) }
        ensures refused { OnErr result (self.new ≡ self.old) }
    {
        if let Some(job) = self.clash(holder.job, at, kind) {
            return Err(InUse { job });
        }
        self.add(holder.lock(at, kind, Reach::Open));
        Ok(())
    }

    /// Locks the record for this open of the job, to the job's next boundary.
    ///
    /// The same lock to the next read of the open, where it is held, becomes the boundary lock and leaves its room.
    pub fn ask_to_boundary(
        &mut self,
        holder: Holder,
        at: RecordId,
        kind: LockKind,
    ) -> Result<(), InUse>
        requires { HasRoom holder at kind Boundary self.old }
        ensures granted { OnOk result (self.new ≡ holding (with_lock_by holder at kind Boundary self.old.held) self.old) }
        ensures ok { IsOk result ↔ (blocker holder.job at kind self.old.held ≡ None) }
        ensures in_use { (other : ℕ) → (result ≡ Err (record { job = other })) ↔ (blocker holder.job at kind self.old.held ≡ Some other) }
        ensures refused { OnErr result (self.new ≡ self.old) }
    {
        if let Some(job) = self.clash(holder.job, at, kind) {
            return Err(InUse { job });
        }
        self.hold_to_boundary(holder, at, kind);
        Ok(())
    }

    /// Locks the record as `ask` and `ask_to_boundary` do, where no other job has a lock that clashes: none is looked for.
    pub fn hold(&mut self, holder: Holder, at: RecordId, kind: LockKind, reach: Reach)
        requires room { HasRoom holder at kind reach self.old }
        requires unlocked { blocker holder.job at kind self.old.held ≡ None }
        ensures { self.new ≡ holding (with_lock_by holder at kind reach self.old.held) self.old }
    {
        match reach {
            Reach::Open => self.add(holder.lock(at, kind, Reach::Open)),
            Reach::Boundary => self.hold_to_boundary(holder, at, kind),
        }
    }

    // The same lock to the next read goes first, where it is held.
    fn hold_to_boundary(&mut self, holder: Holder, at: RecordId, kind: LockKind)
        requires room { HasRoom holder at kind Boundary self.old }
        requires unlocked { blocker holder.job at kind self.old.held ≡ None }
        ensures { self.new ≡ holding (with_lock_by holder at kind Boundary self.old.held) self.old }
    {
        let to_next_read = holder.lock(at, kind, Reach::Open);
        let to_boundary = holder.lock(at, kind, Reach::Boundary);
        self.free(to_next_read);
        self.add(to_boundary);
    }

    /// Keeps the open's locks on the record to the job's next boundary.
    pub fn keep_to_boundary(&mut self, holder: Holder, at: RecordId)
        ensures { self.new ≡ holding (kept_to_boundary holder at self.old.held) self.old }
    {
        while let Some(lock) = self.open_lock_on(holder, at) {
            self.keep(lock);
        }
    }

    /// Frees the locks of this open that end at its next read. Its boundary locks stay.
    pub fn release_open(&mut self, holder: Holder)
        ensures { self.new ≡ holding (freed (is_of_open holder) self.old.held) self.old }
    {
        while let Some(lock) = self.open_lock(holder) {
            self.free(lock);
        }
    }

    /// Frees the locks of all opens of the job on the record that end at a next read.
    pub fn release_record(&mut self, job: u32, at: RecordId)
        ensures { self.new ≡ holding (freed (is_of_record job at) self.old.held) self.old }
    {
        self.free_part(Part::OnRecord(job, Reach::Open, at));
    }

    /// Frees the locks that the job keeps to its boundary, at once.
    pub fn release_group(&mut self, job: u32)
        ensures { self.new ≡ holding (freed (is_of_group job) self.old.held) self.old }
    {
        self.free_part(Part::Reaching(job, Reach::Boundary));
    }

    /// What COMMIT releases: the job's boundary locks, and the open locks of these opens, which are under commitment.
    pub fn release_commit(&mut self, job: u32, opens: &[u32])
        ensures { (level : Option Level) (opened : ℕ) (at : RecordId) → self.new ≡ holding (locks_after Commit level (record { job = job; opened = opened }) at (λ n. list_any (λ o. o == n) opens.now) self.old.held) self.old }
    {
        self.release_group(job);
        for opened in opens {
            let opened = *opened;
            self.release_open(Holder { job, opened });
        }
    }

    /// What ROLLBACK and ENDJOB release: all locks of the job.
    pub fn release_job(&mut self, job: u32)
        ensures locks { self.new ≡ holding (freed (is_by job) self.old.held) self.old }
        ensures rollback { (level : Option Level) (opened : ℕ) (at : RecordId) (is_committed : ℕ → Bool) → self.new ≡ holding (locks_after Rollback level (record { job = job; opened = opened }) at is_committed self.old.held) self.old }
        ensures end_job { (level : Option Level) (opened : ℕ) (at : RecordId) (is_committed : ℕ → Bool) → self.new ≡ holding (locks_after EndJob level (record { job = job; opened = opened }) at is_committed self.old.held) self.old }
    {
        self.free_part(Part::OfJob(job));
    }

    /// What the open and its job hold on a record.
    pub fn held(&self, holder: Holder, at: RecordId) -> Held
        ensures by_open { result.by_open ≡ list_any (is_of_open_on holder at) self.now.held }
        ensures to_boundary { result.to_boundary ≡ list_any (is_of_group_on holder.job at) self.now.held }
    {
        let kept = Part::OnRecord(holder.job, Reach::Boundary, at);
        Held {
            by_open: self.open_lock_on(holder, at).is_some(),
            to_boundary: self.locks.first_in(kept, Sought::Any).is_some(),
        }
    }

    /// The least job that keeps a lock on a record of the member to its boundary.
    pub fn boundary_in(&self, member: u32) -> Option<u32>
        ensures { result ≡ least_job (filter (is_boundary_in member) self.now.held) }
    {
        self.locks.least_keeper(member)
    }

    // By how many locks the list grows with this one, once the older lock of its open is gone.
    fn growth(&self, lock: Lock) -> usize
        ensures least { result ≤ 1 }
        ensures to_next_read { is_open lock.reach ≡ true → result ≡ 1 }
        ensures to_boundary { is_open lock.reach ≡ false → length (with_lock lock self.now.held) ≡ length self.now.held + result }
    {
        let is_held = !lock.reach.is_open() && self.locks.is_there(&lock);
        if is_held { 0 } else { 1 }
    }

    // By how many locks the list shrinks without this one.
    fn shrinkage(&self, lock: Lock) -> usize
        ensures { length (without_lock lock self.now.held) + result ≡ length self.now.held }
    {
        let is_held = self.locks.is_there(&lock);
        if is_held { 1 } else { 0 }
    }

    fn held_count(&self) -> usize
        ensures count { result ≡ length self.now.held }
        ensures table { IsTable self.now }
    {
        self.nodes - self.free.len()
    }

    // How many locks of the open end at its next read. It looks at those of the job: as a rule one for each of its opens.
    fn open_count(&self, holder: Holder) -> usize
        ensures { result ≡ length (filter (is_of_open holder) self.now.held) }
    {
        let part = Part::Reaching(holder.job, Reach::Open);
        self.locks.count_in(part, holder.opened)
    }

    fn open_lock(&self, holder: Holder) -> Option<Lock>
        ensures some { IfSome result (λ lock. IsOneOf (is_of_open holder) lock self.now.held) }
        ensures none { IfNone result (filter (is_of_open holder) self.now.held ≡ []) }
    {
        let part = Part::Reaching(holder.job, Reach::Open);
        self.locks.first_in(part, Sought::Through(holder.opened))
    }

    fn open_lock_on(&self, holder: Holder, at: RecordId) -> Option<Lock>
        ensures table { IsTable self.now }
        ensures some { IfSome result (λ lock. IsOneOf (is_of_open_on holder at) lock self.now.held) }
        ensures none { IfNone result (filter (is_of_open_on holder at) self.now.held ≡ []) }
    {
        let part = Part::OnRecord(holder.job, Reach::Open, at);
        self.locks.first_in(part, Sought::Through(holder.opened))
    }

    fn first_of(&self, part: Part) -> Option<Lock>
        ensures some { IfSome result (λ lock. IsOneOf (is_part part) lock self.now.held) }
        ensures none { IfNone result (filter (is_part part) self.now.held ≡ []) }
    {
        self.locks.first_in(part, Sought::Any)
    }

    // Puts a lock that clashes with none into the list.
    fn add(&mut self, lock: Lock)
        requires room { length (with_lock lock self.old.held) ≤ self.old.room }
        requires alone { All (λ other. Clashes lock other → ⊥) self.old.held }
        ensures { self.new ≡ holding (with_lock lock self.old.held) self.old }
    {
        self.locks.put_lock(&mut self.free, lock);
        self.marks.put(lock);
    }

    // Takes a lock out, where it is held.
    fn free(&mut self, lock: Lock)
        ensures { self.new ≡ holding (without_lock lock self.old.held) self.old }
    {
        self.locks.take_lock(&mut self.free, &lock);
        self.marks.take(lock);
    }

    // Keeps a lock that is held to the boundary.
    fn keep(&mut self, lock: Lock)
        requires table { IsTable self.old }
        requires there { Contains self.old.held lock }
        ensures { self.new ≡ holding (with_lock (bound lock) (without_lock lock self.old.held)) self.old }
    {
        self.free(lock);
        self.add(lock.to_boundary());
    }

    fn free_part(&mut self, part: Part)
        ensures { self.new ≡ holding (freed (is_part part) self.old.held) self.old }
    {
        while let Some(lock) = self.first_of(part) {
            self.free(lock);
        }
    }
}
