//! What the library has in memory: its parts joined. What requests look up stands in `finds.rt`, `records.rt`, `users.rt` and
//! `locking.rt`; what their effects change in `opens.rt`.
ghost use Rattle.std.specs.Prelude.{◌≡◌, ◌+◌, ◌<◌, [], ◌∷◌, ◌++◌, length, IfOk, IsTrue, OnOk, OnErr};
ghost use Rattle.library_steps.specs.History.{is_running};
ghost use Rattle.library_steps.specs.State.{empty_library, job_at, job_of, memory_of, new_job};
ghost use Rattle.parts_model.specs.Indexed.{ArePaths};
ghost use Rattle.lawful_states.specs.Lawful.{IsLibrary};

use field_types::names::Name;
use lock_table::LockTable;
use member_slots::members::Members;
use parts_model::file_catalogue::Catalogue;
use parts_model::job_table::Jobs;
use parts_model::memory_journal::MemoryJournal;
use parts_model::path_set::set::PathSet;
use std::alloc::{AllocError, Global};
use std::marker::Model;

/// The memory of a library. Contracts see it as one state, and beside it the room for more.
#[derive(Drop)]
pub struct Contents {
    pub(crate) alloc: Global,
    pub(crate) catalogue: Catalogue,
    pub(crate) members: Members,
    /// The bytes of all members, with those of their deleted slots.
    pub(crate) member_bytes: u64,
    pub(crate) next_member: u32,
    pub(crate) journal: MemoryJournal,
    pub(crate) locks: LockTable,
    pub(crate) jobs: Jobs,
    /// The access paths of files with a key.
    pub(crate) paths: PathSet,
    /// How many entries the boundaries of the jobs may still deposit. The room for them is kept.
    pub(crate) due: u64,
}

impl Model for Contents {
    ghost use Rattle.parts_model.specs.Parts.{LibraryParts, joined, state_of};
    ghost use Rattle.lawful_states.specs.Lawful.{AreOne};
    ghost use Rattle.parts_model.specs.Due.{HasDue};
    ghost use Rattle.parts_model.specs.Indexed.{IsIndexed};

    ghost Value = { LibraryParts };

    ghost view = { λ c. joined c.catalogue c.members c.next_member c.journal c.locks c.jobs c.due c.paths };

    ghost invariant = { λ c. AreOne (state_of c.catalogue c.members c.next_member c.journal c.locks c.jobs) c.member_bytes × HasDue c.jobs.jobs c.due c.journal.room × IsIndexed c.catalogue.files c.members.members c.jobs.jobs c.jobs.orders c.jobs.moves c.paths };
}

impl Contents {
    /// A library with nothing in it.
    pub fn new(alloc: Global) -> Contents
        ensures { result.state ≡ empty_library }
    {
        Contents {
            alloc,
            catalogue: Catalogue::new(alloc),
            members: Members::new(alloc),
            member_bytes: 0,
            next_member: 1,
            journal: MemoryJournal::new(alloc),
            locks: LockTable::new(alloc),
            jobs: Jobs::new(alloc),
            paths: PathSet::new(alloc),
            due: 0,
        }
    }

    /// Where its parts take their memory.
    pub fn alloc(&self) -> Global {
        self.alloc
    }

    /// How many jobs have begun. What the parts need of each other holds, and the access paths are those of the files, as their
    /// members stand.
    pub fn jobs_begun(&self) -> usize
        ensures count { result ≡ length self.now.state.jobs }
        ensures lawful { IsLibrary self.now.state }
        ensures paths { ArePaths self.now.state.files self.now.state.members self.now.room.paths.paths }
    {
        self.jobs.len()
    }

    /// Whether the job with that number has begun and not ended.
    pub fn is_running(&self, job: u32) -> bool
        ensures { result ≡ is_running (job_at job self.now.state.jobs) }
    {
        self.jobs.is_running(job)
    }

    /// The name of the job.
    pub fn job_name(&self, job: u32) -> Name
        requires { IsTrue (is_running (job_at job self.now.state.jobs)) }
        ensures { result ≡ (job_of job (memory_of self.now.state)).name }
    {
        self.jobs.name(job)
    }

    /// Begins a job and answers its number.
    pub fn begin_job(&mut self, name: Name) -> Result<u32, AllocError>
        requires { length self.old.state.jobs < 4294967295 }
        ensures number { IfOk result (λ n. n ≡ length self.old.state.jobs + 1) }
        ensures begun { OnOk result (self.new.state ≡ record self.old.state { jobs = self.old.state.jobs ++ new_job name ∷ [] }) }
        ensures unchanged { OnErr result (self.new ≡ self.old) }
    {
        self.jobs.begin(name)
    }
}
