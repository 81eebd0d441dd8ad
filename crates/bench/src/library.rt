//! The library that is measured, with the jobs that ask it.
ghost use Rattle.std.specs.Prelude.{◌≡◌, ◌≤◌, IfOk, OnOk};
ghost use Rattle.deposited_entries.specs.Deposits.{AreShort};
ghost use Rattle.bench.specs.Ready.{HasBegun};

use crate::requests::{Asker, PlainRequest};
use field_types::names::Name;
use journal_opening::format_library;
use library_core::library::{Library, call};
use library_model::replies::Reply;
use library_model::sources::Sources;
use opened_library::open_library;
use std::alloc::{AllocError, Global};
use std::marker::Model;
use store_model::MemoryStore;

/// A library, and its jobs with the numbers from 1 on, each of which may make a call, unless the store was at fault. `end` gives it up.
pub(crate) struct Bench {
    library: Library<MemoryStore>,
    sources: Sources,
    jobs: u32,
}

impl Model for Bench {
    ghost use Rattle.std.specs.Prelude.{◌≡◌, ℕ, false};
    ghost use Rattle.deposited_entries.specs.Deposits.{AreShort};
    ghost use Rattle.bench.specs.Ready.{AreReady};

    ghost Value = { ℕ };

    ghost view = { λ b. b.jobs };

    ghost invariant = { λ b. (b.library.failed ≡ false → AreReady b.jobs b.library) × AreShort b.sources };
}

impl Bench {
    /// A library with nothing in it but so many jobs.
    pub(crate) fn begin(asker: &Asker, jobs: u32) -> Result<Bench, AllocError> {
        let sources = asker.sources()?;
        let mut store = MemoryStore::new(asker.alloc());
        if format_library(asker.alloc(), &mut store).is_err() {
            return Err(AllocError);
        }
        Bench::over(asker, store, sources, jobs)
    }

    /// The library that a store keeps, with so many jobs begun.
    fn over(
        asker: &Asker,
        store: MemoryStore,
        sources: Sources,
        jobs: u32,
    ) -> Result<Bench, AllocError>
        requires { AreShort sources }
    {
        let mut library = opened(asker.alloc(), store)?;
        match begin_jobs(&mut library, asker.job(), jobs) {
            Ok(()) => Ok(Bench {
                library,
                sources,
                jobs,
            }),
            Err(error) => {
                let _ = library.into_store();
                Err(error)
            }
        }
    }

    /// Gives the library up, and opens it again from its store with as many jobs: of its journal nothing is in memory then.
    pub(crate) fn open_again(self, asker: &Asker) -> Result<Bench, AllocError> {
        let Bench {
            library,
            sources,
            jobs,
        } = self;
        Bench::over(asker, library.into_store(), sources, jobs)
    }

    /// Makes a call of a job, and answers whether it was done.
    fn ask(&mut self, job: u32, request: &PlainRequest) -> bool
        requires { (1 ≤ job) × (job ≤ self.old) }
        ensures { self.new ≡ self.old }
    {
        if self.library.failed() {
            return false;
        }
        let reply = call(
            &mut self.library,
            job,
            0,
            &self.sources,
            request.as_request(),
        );
        is_done(&reply)
    }

    /// Makes calls of a job in order up to the first that is refused, and counts those before it. A job that hasn't begun makes none.
    pub(crate) fn ask_all(&mut self, job: u32, requests: &[PlainRequest]) -> usize {
        if job < 1 || job > self.jobs {
            return 0;
        }
        for (done, request) in requests.iter().enumerate() {
            if !self.ask(job, request) {
                return done;
            }
        }
        requests.len()
    }

    /// Gives the library up.
    pub(crate) fn end(self) {
        let Bench {
            library,
            sources: _,
            jobs: _,
        } = self;
        let _ = library.into_store();
    }
}

/// The library that a store keeps.
fn opened(alloc: Global, store: MemoryStore) -> Result<Library<MemoryStore>, AllocError>
    ensures { IfOk result (λ library. HasBegun 0 library) }
{
    match open_library(alloc, store) {
        Ok(library) => Ok(Library::of(library)),
        Err(_) => Err(AllocError),
    }
}

/// Begins so many jobs of one name.
fn begin_jobs(library: &mut Library<MemoryStore>, name: &Name, jobs: u32) -> Result<(), AllocError>
    requires { HasBegun 0 library.old }
    ensures { OnOk result (HasBegun jobs library.new) }
{
    for _ in 0..jobs {
        library.begin_job(name)?;
    }
    Ok(())
}

/// Whether what was asked was done, as far as this program asks it.
fn is_done(reply: &Reply) -> bool {
    matches!(
        reply,
        Reply::Done | Reply::Record(_) | Reply::Added { rrn: _ } | Reply::Entries(_)
    )
}
