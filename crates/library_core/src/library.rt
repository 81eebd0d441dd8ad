//! The library over a store, and the one call on it. What each request does is asked for in `dispatch.rt`; how its entries come to the journal on
//! the disk stands in `answering.rt`.
ghost use Rattle.std.specs.Prelude.{◌≡◌, ◌≢◌, ◌⊎◌, ℕ, true, false, ◌+◌, ◌*◌, ◌<◌, ◌≤◌, ◌∷◌, [], ◌++◌, length, take, IsTrue, IfOk, OnOk, OnErr};
ghost use Rattle.store_model.specs.Disk.{Areas, May, Leaves};
ghost use Rattle.store_model.specs.Faults.{Rose};
ghost use Rattle.receiver_chain.specs.Others.{LeavesRoots};
ghost use Rattle.journal_book.specs.Book.{HasMoreRoom};
ghost use Rattle.journal_book.specs.Kept.{IsForcedOrFrom, SpellEntries};
ghost use Rattle.built_requests.specs.Built.{is_built};
ghost use Rattle.journal_fronts.specs.Deposits.{AreShort};
ghost use Rattle.library_steps.specs.State.{State, begun, job_at, new_job};
ghost use Rattle.library_steps.specs.History.{is_running};
ghost use Rattle.commitment_requests.specs.Indexed.{ArePaths};
ghost use Rattle.journal_fronts.specs.Fronts.{IsAcknowledged, entries_behind};
ghost use Rattle.kept_library.specs.Journaled.{IsRemembered};
ghost use Rattle.library_core.specs.Running.{runs_after};
ghost use Rattle.kept_library.specs.Stands.{Stands, IsReady, Goes, whole_from};

use crate::answering::{answer, reserve_for};
use crate::laws::journal_lasts;
use block_cache::BlockCache;
use commitment_requests::library_parts::Contents;
use field_types::names::Name;
use kept_journal::KeptJournal;
use kept_library::KeptLibrary;
use library_model::replies::Reply;
use library_model::requests::Request;
use library_model::sources::Sources;
use std::alloc::AllocError;
use std::marker::Model;
use store_model::Store;

/// A library whose journal stands on a disk. Contracts see the store, the journal's book, what is in memory of the library's state, the access paths that
/// it keeps, and whether a call has found the store at fault.
pub struct Library<S: Store> {
    store: S,
    journal: KeptJournal,
    /// The blocks of the journal that were read last; `None` until a request reads it.
    cache: Option<BlockCache>,
    contents: Contents,
    failed: bool,
}

impl<S: Store> Model for Library<S> {
    ghost use Rattle.std.specs.Prelude.{◌≡◌, [], false, unwrap_or};
    ghost use Rattle.library_steps.specs.State.{State};
    ghost use Rattle.kept_library.specs.Journaled.{IsRemembered};
    ghost use Rattle.kept_library.specs.Parts.{LibraryOver};
    ghost use Rattle.library_core.specs.Cached.{AreCached};

    ghost Value = { LibraryOver S };

    ghost view = { λ l. record { store = l.store; book = l.journal; state = l.contents.state; paths = l.contents.room.paths.paths; failed = l.failed } };

    ghost invariant = { λ l. (l.failed ≡ false → (s : State) × IsRemembered S.tells (S.disk l.store) l.journal l.contents.state s) × (l.failed ≡ false → AreCached S.tells l.journal (S.disk l.store) (unwrap_or l.cache [])) };
}

impl<S: Store> Library<S> {
    /// The library on which calls are made, from one that was opened. The store is not called.
    pub fn of(kept: KeptLibrary<S>) -> Library<S>
        ensures { result ≡ kept }
    {
        let (store, journal, contents) = kept.into_parts();
        Library {
            store,
            journal,
            cache: None,
            contents,
            failed: false,
        }
    }

    /// Whether a call has found the store at fault; nothing but opening the library again is left then.
    pub fn failed(&self) -> bool
        ensures failed { result ≡ self.now.failed }
        ensures kept { result ≡ false → (s : State) × IsRemembered S.tells (S.disk self.now.store) self.now.book self.now.state s }
        ensures left { (s : State) → Stands S.tells S.disk self.now s → S.tells → (areas : Areas) → May (S.disk self.now.store) areas → SpellEntries self.now.book.chain.first (take self.now.book.forced s.entries) areas }
        ensures all { result ≡ false → self.now.book.forced + self.now.book.waiting ≡ length self.now.state.entries }
    {
        self.failed
    }

    /// What it has in memory.
    pub fn contents(&self) -> &Contents
        ensures { result.now.state ≡ self.now.state }
    {
        &self.contents
    }

    /// How many jobs have begun.
    pub fn jobs(&self) -> usize
        ensures { result ≡ length self.now.state.jobs }
    {
        self.contents.jobs_begun()
    }

    /// Begins a job and answers its number, which is the next from 1.
    pub fn begin_job(&mut self, name: &Name) -> Result<u32, AllocError>
        requires { length self.old.state.jobs < 4294967295 }
        ensures number { IfOk result (λ n. n ≡ length self.old.state.jobs + 1) }
        ensures begun { OnOk result (self.new.state ≡ record self.old.state { jobs = self.old.state.jobs ++ new_job name.now ∷ [] }) }
        ensures unchanged { OnErr result (self.new.state ≡ self.old.state) }
        ensures stands { (s : State) → Stands S.tells S.disk self.old s → OnOk result (Stands S.tells S.disk self.new (begun s (name.now ∷ []))) }
        ensures stays { (s : State) → Stands S.tells S.disk self.old s → OnErr result (Stands S.tells S.disk self.new s) }
        ensures store { self.new.store ≡ self.old.store }
        ensures failed { self.new.failed ≡ self.old.failed }
        ensures forced { self.new.book.forced ≡ self.old.book.forced }
        ensures waiting { self.new.book.waiting ≡ self.old.book.waiting }
        ensures receiver { self.new.book.chain.first ≡ self.old.book.chain.first }
    {
        journal_lasts();
        begin(&mut self.contents, &mut self.journal, *name)
    }

    /// Hands the store back.
    pub fn into_store(self) -> S
        ensures { result ≡ self.store }
    {
        let Library {
            store,
            journal: _,
            cache: _,
            contents: _,
            failed: _,
        } = self;
        store
    }
}

/// Begins a job, with a place for the block by which its end is forced.
fn begin(contents: &mut Contents, journal: &mut KeptJournal, name: Name) -> Result<u32, AllocError>
    requires { length contents.old.state.jobs < 4294967295 }
    ensures number { IfOk result (λ n. n ≡ length contents.old.state.jobs + 1) }
    ensures begun { OnOk result (contents.new.state ≡ record contents.old.state { jobs = contents.old.state.jobs ++ new_job name ∷ [] }) }
    ensures unchanged { OnErr result (contents.new.state ≡ contents.old.state) }
    ensures same { HasMoreRoom journal.old journal.new }
    ensures room { OnOk result (2 * length contents.old.state.jobs + 1 ≤ journal.new.chain.room) }
{
    reserve_for(journal, contents.jobs_begun())?;
    let number = contents.begin_job(name)?;
    Ok(number)
}

/// Answers one request of a job, at a time. After a store fault the library has failed: open it again.
pub fn call<S: Store>(
    library: &mut Library<S>,
    job: u32,
    timestamp: u64,
    sources: &Sources,
    request: &Request,
) -> Reply
    requires ready { IsReady job library.old }
    requires built { IsTrue (is_built request.now) }
    requires short { AreShort sources.now }
    ensures goes { (s : State) → Stands S.tells S.disk library.old s → Goes S.tells S.disk sources.now library.new s (record { job = job; timestamp = timestamp; request = request.now; reply = result }) }
    ensures running { (other : ℕ) → is_running (job_at other library.new.state.jobs) ≡ runs_after job request.now library.old.state.jobs other }
    ensures paths { ArePaths library.new.state.files library.new.state.members library.new.paths }
    // A store fault alone ends it.
    ensures alive { result ≢ Reply.StoreFault → library.new.failed ≡ false }
    ensures fault { result ≡ Reply.StoreFault → library.new.failed ≡ true }
    ensures cause { library.new.failed ≡ true → Rose (S.disk library.old.store).faults (S.disk library.new.store).faults }
    ensures faults { (S.disk library.old.store).faults ≤ (S.disk library.new.store).faults }
    // What a stop leaves within the call, and behind it.
    ensures moments { (s : State) → Stands S.tells S.disk library.old s → S.tells → Leaves (S.disk library.old.store) (S.disk library.new.store) (IsForcedOrFrom library.old.book.chain.first library.old.book.forced (whole_from request.now s.entries (entries_behind sources.now s (record { job = job; timestamp = timestamp; request = request.now; reply = result }))) (entries_behind sources.now s (record { job = job; timestamp = timestamp; request = request.now; reply = result }))) }
    ensures still { (s : State) → Stands S.tells S.disk library.old s → (t : State) → Stands S.tells S.disk library.new t → t.entries ≡ s.entries → S.tells → Leaves (S.disk library.old.store) (S.disk library.new.store) (IsForcedOrFrom library.old.book.chain.first library.old.book.forced (length s.entries) s.entries) }
    ensures left { (t : State) → Stands S.tells S.disk library.new t → S.tells → (areas : Areas) → May (S.disk library.new.store) areas → SpellEntries library.new.book.chain.first (take library.new.book.forced t.entries) areas }
    ensures acknowledged { (s : State) → Stands S.tells S.disk library.old s → S.tells → IsAcknowledged sources.now s (record { job = job; timestamp = timestamp; request = request.now; reply = result }) → library.new.book.waiting ≡ 0 }
    ensures least { library.new.failed ≡ false → library.old.book.forced ≤ library.new.book.forced }
    ensures whole { library.new.failed ≡ false → (library.new.book.forced ≡ library.old.book.forced) ⊎ (library.new.book.forced ≡ length library.new.state.entries) }
    ensures all { library.new.failed ≡ false → library.new.book.forced + library.new.book.waiting ≡ length library.new.state.entries }
    ensures receiver { library.new.book.chain.first ≡ library.old.book.chain.first }
    // Roots and saved states are left alone.
    ensures roots { LeavesRoots (S.disk library.old.store) (S.disk library.new.store) }
{
    let (reply, failed) = answer(
        &mut library.contents,
        &mut library.journal,
        &mut library.cache,
        &mut library.store,
        job,
        timestamp,
        sources,
        request,
    );
    library.failed = failed;
    // The access paths follow the members.
    let _jobs = library.contents.jobs_begun();
    reply
}
