//! What effects change of the jobs and their locks: opens, positions, locks, and the end of a job.
ghost use Rattle.std.specs.Prelude.{◌≡◌, ◌≤◌, ◌<◌, None, IsTrue, IfSome, OnOk, length};
ghost use Rattle.lock_table.specs.Table.{blocker};
ghost use Rattle.lock_table.specs.Levels.{asked, locks_after};
ghost use Rattle.library_model.specs.Named.{named};
ghost use Rattle.library_model.specs.declared.limits.TheConstants.{MOST_OPENS};
ghost use Rattle.library_steps.specs.State.{memory_of, job_at, job_of, with_job, with_opens};
ghost use Rattle.library_steps.specs.History.{is_running};
ghost use Rattle.library_steps.specs.Opens.{with_open, without_open};
ghost use Rattle.library_steps.specs.Reads.{open_changed};
ghost use Rattle.library_steps.specs.ChangeRecord.{without_current, without_record};
ghost use Rattle.library_steps.specs.Locking.{is_committed, with_locks};
ghost use Rattle.library_steps.specs.EndJob.{job_ended};
ghost use Rattle.parts_model.specs.Table.{HasRoomFor};
ghost use Rattle.parts_model.below.job_table.specs.declared.jobs.TheConstants.{LAST_OPEN};
ghost use Rattle.parts_model.specs.Finds.{OpensMembers};
ghost use Rattle.lawful_states.specs.Calls.{AsksNone, IsOfOpen};
ghost use Rattle.parts_model.specs.Locks.{HasLockRoom};
ghost use Rattle.parts_model.specs.Reads.{ReadsFor};

use crate::contents::Contents;
use crate::cycles::level_due;
use crate::leave::leave;
use field_types::lists::ListOf;
use field_types::names::Name;
use library_model::requests::OpenFile;
use lock_table::{Call, Holder, Level, RecordId};
use parts_model::job_table::OpenReads;

impl Contents {
    /// How many opens the job has, and how many it has had.
    pub fn opens(&self, job: u32) -> (usize, u32)
        requires { IsTrue (is_running (job_at job self.now.state.jobs)) }
        ensures count { result.0 ≡ length (job_of job (memory_of self.now.state)).opens }
        ensures opened { result.1 ≡ (job_of job (memory_of self.now.state)).opened }
    {
        (self.jobs.open_count(job), self.jobs.opened(job))
    }

    /// Opens a file for the job over these members, which reads in that way.
    pub fn add_open(&mut self, job: u32, args: &OpenFile, members: ListOf<u32>, reads: OpenReads)
        requires running { IsTrue (is_running (job_at job self.old.state.jobs)) }
        requires few { length (job_of job (memory_of self.old.state)).opens < MOST_OPENS }
        requires numbered { (job_of job (memory_of self.old.state)).opened < LAST_OPEN }
        requires there { OpensMembers self.old.state.files members (named args.now.file self.old.state.files) }
        requires reads { ReadsFor self.old args.now members reads }
        ensures memory { memory_of self.new.state ≡ with_job job (with_open args.now members) (memory_of self.old.state) }
        ensures entries { self.new.state.entries ≡ self.old.state.entries }
        ensures room { self.new.room ≡ record self.old.room { orders = self.new.room.orders } }
    {
        self.jobs.add_open(job, args, members, reads);
    }

    /// Closes the job's open of that name, but for its locks.
    pub fn remove_open(&mut self, job: u32, name: &Name)
        requires { IsTrue (is_running (job_at job self.old.state.jobs)) }
        ensures memory { memory_of self.new.state ≡ with_job job (without_open name.now) (memory_of self.old.state) }
        ensures entries { self.new.state.entries ≡ self.old.state.entries }
        ensures room { self.new.room ≡ record self.old.room { orders = self.new.room.orders } }
    {
        // Each open stands beside how it reads.
        let _len = self.jobs.len();
        self.jobs.remove_open(job, name);
    }

    /// The job's open with that number has no current record any more.
    pub fn give_up_current(&mut self, job: u32, opened: u32)
        requires { IsTrue (is_running (job_at job self.old.state.jobs)) }
        ensures memory { memory_of self.new.state ≡ with_job job (open_changed opened without_current) (memory_of self.old.state) }
        ensures entries { self.new.state.entries ≡ self.old.state.entries }
        ensures room { self.new.room ≡ self.old.room }
    {
        self.jobs.give_up_current(job, opened);
    }

    /// None of the job's opens has the record as its current one any more.
    pub fn give_up_record(&mut self, job: u32, member: u32, rrn: u32)
        requires { IsTrue (is_running (job_at job self.old.state.jobs)) }
        ensures memory { memory_of self.new.state ≡ with_job job (with_opens (without_record member rrn)) (memory_of self.old.state) }
        ensures entries { self.new.state.entries ≡ self.old.state.entries }
        ensures room { self.new.room ≡ self.old.room }
    {
        self.jobs.give_up_record(job, member, rrn);
    }

    /// What a call through an open leaves of the locks once it is OK: those that it releases are gone, and its own is held.
    pub fn lock_for(&mut self, call: Call, level: Option<Level>, holder: Holder, at: RecordId)
        requires running { IsTrue (is_running (job_at holder.job self.old.state.jobs)) }
        requires call { IsOfOpen call }
        requires unlocked { IfSome (asked call level) (λ wanted. blocker holder.job at wanted.kind self.old.state.locks ≡ None) }
        requires room { length (locks_after call level holder at (is_committed (job_of holder.job (memory_of self.old.state))) self.old.state.locks) ≤ self.old.room.locks }
        ensures memory { memory_of self.new.state ≡ with_locks (locks_after call level holder at (is_committed (job_of holder.job (memory_of self.old.state))) self.old.state.locks) (memory_of self.old.state) }
        ensures entries { self.new.state.entries ≡ self.old.state.entries }
        ensures room { self.new.room ≡ self.old.room }
    {
        leave(&mut self.locks, call, level, holder, at);
    }

    /// The same of a call that asks for no lock, so that the locks need no room.
    pub fn free_for(&mut self, call: Call, level: Option<Level>, holder: Holder, at: RecordId)
        requires running { IsTrue (is_running (job_at holder.job self.old.state.jobs)) }
        requires call { AsksNone call }
        ensures memory { memory_of self.new.state ≡ with_locks (locks_after call level holder at (is_committed (job_of holder.job (memory_of self.old.state))) self.old.state.locks) (memory_of self.old.state) }
        ensures entries { self.new.state.entries ≡ self.old.state.entries }
        ensures room { self.new.room ≡ self.old.room }
    {
        // The locks that are held have room.
        let _count = self.locks.count();
        leave(&mut self.locks, call, level, holder, at);
    }

    /// Ends the job, which has no open commit cycle: its opens are closed and its locks gone. No entry tells of it.
    pub fn end_job(&mut self, job: u32)
        requires running { IsTrue (is_running (job_at job self.old.state.jobs)) }
        requires unchanged { (job_of job (memory_of self.old.state)).cycle ≡ None }
        ensures memory { memory_of self.new.state ≡ job_ended job (memory_of self.old.state) }
        ensures entries { self.new.state.entries ≡ self.old.state.entries }
        ensures room { self.new.room ≡ record self.old.room { entries = self.new.room.entries; undos = self.new.room.undos; orders = self.new.room.orders; moves = self.new.room.moves } }
    {
        let before = level_due(self.jobs.level(job));
        self.locks.release_job(job);
        let _none = self.jobs.end(job);
        self.due -= before;
    }
}
