//! How a request is answered where the journal stands on a disk alone: what it reads is read first, room for its block is made, and what it deposits is put
//! behind it and forgotten. `library.rt` has the library.
ghost use Rattle.std.specs.Prelude.{◌≡◌, ◌+◌, ◌*◌, ◌≤◌, ◌<◌, true, false, Ok, List, [], length, unwrap_or, IfOk, IsErr, IsOk, IsTrue, OnOk};
ghost use Rattle.entry_codec.specs.declared.entries.Entry.{Entry};
ghost use Rattle.journal_book.specs.Book.{HasMoreRoom, IsHeld};
ghost use Rattle.kept_journal.specs.Journals.{MayWait};
ghost use Rattle.built_requests.specs.Built.{is_built};
ghost use Rattle.journal_fronts.specs.Deposits.{AreShort, switches};
ghost use Rattle.block_places.specs.Dues.{has_entries};
ghost use Rattle.library_model.specs.NeedsMemory.{needs_memory};
ghost use Rattle.library_model.specs.declared.requests.Request.TheVariants.{ChangeJournal};
ghost use Rattle.library_model.specs.declared.sources.NamedSource.{NamedSource};
ghost use Rattle.library_steps.specs.State.{State, job_at, memory_of};
ghost use Rattle.library_steps.specs.History.{is_running};
ghost use Rattle.library_steps.specs.Receivers.{attach_change, attach_plan};
ghost use Rattle.library_steps.specs.declared.limits.TheConstants.{LAST_RECEIVER, LAST_SEQUENCE};
ghost use Rattle.memory_journal.specs.Blanks.{in_memory};
ghost use Rattle.commitment_requests.specs.Answers.{Answers, Gives, reply_of};
ghost use Rattle.commitment_requests.specs.Remembered.{remembered};
ghost use Rattle.kept_library.specs.Journaled.{IsRemembered};
ghost use Rattle.library_core.specs.Cached.{AreCached};
ghost use Rattle.library_core.specs.Puts.{HasCome, HasTaken, answer_given, are_put, places_taken};
ghost use Rattle.library_core.specs.Reads.{IsReadOf};

use crate::cached::read_through;
use crate::dispatch::perform;
use crate::kinds;
use crate::laws::journal_lasts;
use crate::reading::ReadFault;
use block_cache::BlockCache;
use commitment_requests::library_parts::{Contents, Stop};
use entry_codec::Entry;
use forced_calls::is_forced;
use gated_log::StoreFault;
use journal_reads::Stretch;
use journal_requests::{apply_attach, attach_drafts, plan_attach, prepare_attach};
use kept_journal::{KeptJournal, MUCH};
use library_model::replies::Reply;
use library_model::requests::Request;
use library_model::sources::Sources;
use receiver_chain::ChainFault;
use sound_histories::each_call_leaves_a_sound_library;
use std::alloc::AllocError;
use store_model::Store;

/// So many jobs have block places, two each and one more, whose number is a u32.
const MOST_JOBS: usize = 2_147_483_647;

/// Answers a request of a job, and tells whether the store was found at fault. What is cached stands to the journal as it was before.
pub(crate) fn answer<S: Store>(
    contents: &mut Contents,
    journal: &mut KeptJournal,
    cache: &mut Option<BlockCache>,
    store: &mut S,
    job: u32,
    timestamp: u64,
    sources: &Sources,
    request: &Request,
) -> (Reply, bool)
    requires running { IsTrue (is_running (job_at job contents.old.state.jobs)) }
    requires built { IsTrue (is_built request.now) }
    requires short { AreShort sources.now }
    requires kept { (s : State) × IsRemembered S.tells (S.disk store.old) journal.old contents.old.state s }
    requires cached { AreCached S.tells journal.old (S.disk store.old) (unwrap_or cache.old []) }
    ensures come { (s : State) → IsRemembered S.tells (S.disk store.old) journal.old contents.old.state s → HasCome S.tells sources.now (S.disk store.old) (S.disk store.new) journal.old journal.new contents.new.state s (record { job = job; timestamp = timestamp; request = request.now; reply = result.0 }) result.1 }
    ensures cached { AreCached S.tells journal.old (S.disk store.old) (unwrap_or cache.new []) }
{
    if kinds::switches(request) {
        attach_receiver(contents, journal, store, job, timestamp)
    } else {
        answer_other(
            contents, journal, cache, store, job, timestamp, sources, request,
        )
    }
}

/// Answers any request but CHGJRN: what it reads of the journal is read first.
fn answer_other<S: Store>(
    contents: &mut Contents,
    journal: &mut KeptJournal,
    cache: &mut Option<BlockCache>,
    store: &mut S,
    job: u32,
    timestamp: u64,
    sources: &Sources,
    request: &Request,
) -> (Reply, bool)
    requires running { IsTrue (is_running (job_at job contents.old.state.jobs)) }
    requires built { IsTrue (is_built request.now) }
    requires short { AreShort sources.now }
    requires other { switches request.now ≡ false }
    requires kept { (s : State) × IsRemembered S.tells (S.disk store.old) journal.old contents.old.state s }
    requires cached { AreCached S.tells journal.old (S.disk store.old) (unwrap_or cache.old []) }
    ensures come { (s : State) → IsRemembered S.tells (S.disk store.old) journal.old contents.old.state s → HasCome S.tells sources.now (S.disk store.old) (S.disk store.new) journal.old journal.new contents.new.state s (record { job = job; timestamp = timestamp; request = request.now; reply = result.0 }) result.1 }
    ensures cached { AreCached S.tells journal.old (S.disk store.old) (unwrap_or cache.new []) }
{
    match read_through(contents, journal, cache, store, request) {
        Ok(stretch) => answer_read(
            contents, journal, store, job, timestamp, sources, request, &stretch,
        ),
        Err(ReadFault::NoMemory) => (Reply::NoMemory, false),
        Err(ReadFault::StoreFault) => (Reply::StoreFault, true),
        Err(ReadFault::BlockChanged { sequence }) => (Reply::BlockChanged { sequence }, false),
    }
}

/// The same, where this stretch of the journal was read for it.
fn answer_read<S: Store>(
    contents: &mut Contents,
    journal: &mut KeptJournal,
    store: &mut S,
    job: u32,
    timestamp: u64,
    sources: &Sources,
    request: &Request,
    stretch: &Stretch,
) -> (Reply, bool)
    requires running { IsTrue (is_running (job_at job contents.old.state.jobs)) }
    requires built { IsTrue (is_built request.now) }
    requires short { AreShort sources.now }
    requires other { switches request.now ≡ false }
    requires kept { (s : State) × IsRemembered S.tells (S.disk store.old) journal.old contents.old.state s × (read : List Entry) × IsReadOf S.tells s stretch.now read }
    ensures { (s : State) → IsRemembered S.tells (S.disk store.old) journal.old contents.old.state s → (read : List Entry) → IsReadOf S.tells s stretch.now read → HasCome S.tells sources.now (S.disk store.old) (S.disk store.new) journal.old journal.new contents.new.state s (record { job = job; timestamp = timestamp; request = request.now; reply = result.0 }) result.1 }
{
    // A sound library stays sound, and each change of an open commit cycle stands in it as it was made.
    each_call_leaves_a_sound_library();
    journal_lasts();
    if !make_room(journal, contents.jobs_begun(), request) {
        return (Reply::NoMemory, false);
    }
    let done = perform(contents, job, timestamp, sources, request, stretch);
    let put = put_done(contents, journal, store, request, &done);
    contents.forget();
    given(put, done)
}

/// Makes room for the block of a request that may want memory, and for what is due behind it. `false`: there was no memory.
fn make_room(journal: &mut KeptJournal, jobs: usize, request: &Request) -> bool
    ensures same { HasMoreRoom journal.old journal.new }
    ensures room { result ≡ true → needs_memory request.now ≡ true → 2 * jobs + 1 ≤ journal.new.chain.room }
    ensures refused { result ≡ false → needs_memory request.now ≡ true }
{
    if kinds::wants_memory(request) {
        match reserve_for(journal, jobs) {
            Ok(()) => true,
            Err(_) => false,
        }
    } else {
        true
    }
}

/// Makes room for the blocks that are due while so many jobs have begun, and for one more.
pub(crate) fn reserve_for(journal: &mut KeptJournal, jobs: usize) -> Result<(), AllocError>
    ensures same { HasMoreRoom journal.old journal.new }
    ensures room { OnOk result (2 * jobs + 1 ≤ journal.new.chain.room) }
{
    if jobs > MOST_JOBS {
        return Err(AllocError);
    }
    journal.reserve(2 * jobs as u32 + 1)
}

/// Puts the entries that are in memory, where the request was done.
fn put_done<S: Store>(
    contents: &Contents,
    journal: &mut KeptJournal,
    store: &mut S,
    request: &Request,
    done: &Result<Reply, Stop>,
) -> Result<(), StoreFault>
    requires held { S.tells → IsHeld journal.old (S.disk store.old) }
    requires little { length journal.old.buffered < MUCH }
    requires may { IsOk done.now → MayWait journal.old (in_memory contents.now.state.entries) }
    requires place { IsOk done.now → places_taken request.now (in_memory contents.now.state.entries) ≤ journal.old.chain.room }
    ensures taken { IsOk done.now → HasTaken S.tells (S.disk store.old) (S.disk store.new) journal.old journal.new request.now (in_memory contents.now.state.entries) result }
    ensures nothing { IsErr done.now → IsOk result }
    ensures same_journal { IsErr done.now → journal.new ≡ journal.old }
    ensures same_store { IsErr done.now → store.new ≡ store.old }
{
    match done {
        Ok(_) => put_new(contents, journal, store, request),
        Err(_) => Ok(()),
    }
}

/// Puts the entries that are in memory.
fn put_new<S: Store>(
    contents: &Contents,
    journal: &mut KeptJournal,
    store: &mut S,
    request: &Request,
) -> Result<(), StoreFault>
    requires held { S.tells → IsHeld journal.old (S.disk store.old) }
    requires little { length journal.old.buffered < MUCH }
    requires may { MayWait journal.old (in_memory contents.now.state.entries) }
    requires place { places_taken request.now (in_memory contents.now.state.entries) ≤ journal.old.chain.room }
    ensures { HasTaken S.tells (S.disk store.old) (S.disk store.new) journal.old journal.new request.now (in_memory contents.now.state.entries) result }
{
    put_entries(journal, store, contents.in_memory(), request)
}

/// Puts the entries of a call that was done, if there are some or the call is forced.
fn put_entries<S: Store>(
    journal: &mut KeptJournal,
    store: &mut S,
    entries: &[Entry],
    request: &Request,
) -> Result<(), StoreFault>
    requires held { S.tells → IsHeld journal.old (S.disk store.old) }
    requires little { length journal.old.buffered < MUCH }
    requires may { MayWait journal.old entries.now }
    requires place { places_taken request.now entries.now ≤ journal.old.chain.room }
    ensures { HasTaken S.tells (S.disk store.old) (S.disk store.new) journal.old journal.new request.now entries.now result }
{
    if are_put(request, entries) {
        journal.put_call(store, entries, is_forced(request, entries))
    } else {
        Ok(())
    }
}

/// Whether a call with these entries is forced or has some.
fn are_put(request: &Request, entries: &[Entry]) -> bool
    ensures { result ≡ are_put request.now entries.now }
{
    is_forced(request, entries) || has_entries(entries)
}

/// Whether there are some.
fn has_entries(entries: &[Entry]) -> bool
    ensures { result ≡ has_entries entries.now }
{
    match entries {
        [] => false,
        [_, ..] => true,
    }
}

/// What is answered to the job, and whether the store was found at fault.
fn given(put: Result<(), StoreFault>, done: Result<Reply, Stop>) -> (Reply, bool)
    ensures { result ≡ answer_given put done }
{
    match put {
        Ok(()) => (reply_of(done), false),
        Err(_) => (Reply::StoreFault, true),
    }
}

/// What is answered where the store wasn't found at fault.
fn reply_of(done: Result<Reply, Stop>) -> Reply
    ensures { result ≡ reply_of done }
{
    match done {
        Ok(reply) => reply,
        Err(Stop::NoMemory) => Reply::NoMemory,
        Err(Stop::Refused(reply)) => reply,
    }
}

/// CHGJRN: the disk's memory is asked for before anything changes, and the next receiver is attached there first.
fn attach_receiver<S: Store>(
    contents: &mut Contents,
    journal: &mut KeptJournal,
    store: &mut S,
    job: u32,
    timestamp: u64,
) -> (Reply, bool)
    requires running { IsTrue (is_running (job_at job contents.old.state.jobs)) }
    requires kept { (s : State) × IsRemembered S.tells (S.disk store.old) journal.old contents.old.state s }
    ensures { (sources : List NamedSource) → (s : State) → IsRemembered S.tells (S.disk store.old) journal.old contents.old.state s → HasCome S.tells sources (S.disk store.old) (S.disk store.new) journal.old journal.new contents.new.state s (record { job = job; timestamp = timestamp; request = ChangeJournal; reply = result.0 }) result.1 }
{
    match ready_to_attach(contents, journal) {
        Ok(number) => switch_receivers(contents, journal, store, job, timestamp, number),
        Err(stop) => (reply_of(Err(stop)), false),
    }
}

/// Attaches the receiver with this number, on the disk and then in memory.
fn switch_receivers<S: Store>(
    contents: &mut Contents,
    journal: &mut KeptJournal,
    store: &mut S,
    job: u32,
    timestamp: u64,
    number: u32,
) -> (Reply, bool)
    requires running { IsTrue (is_running (job_at job contents.old.state.jobs)) }
    requires kept { (s : State) × IsRemembered S.tells (S.disk store.old) journal.old contents.old.state s }
    requires plan { attach_plan (memory_of contents.old.state) ≡ Ok number }
    requires next { number ≡ contents.old.state.receivers.attached + 1 }
    requires few { number ≤ LAST_RECEIVER }
    requires left { (memory_of contents.old.state).last_entry ≤ LAST_SEQUENCE }
    requires room { 2 ≤ contents.old.room.entries }
    requires places { 2 * length contents.old.state.jobs + 1 ≤ journal.old.chain.room }
    ensures { (sources : List NamedSource) → (s : State) → IsRemembered S.tells (S.disk store.old) journal.old contents.old.state s → HasCome S.tells sources (S.disk store.old) (S.disk store.new) journal.old journal.new contents.new.state s (record { job = job; timestamp = timestamp; request = ChangeJournal; reply = result.0 }) result.1 }
{
    each_call_leaves_a_sound_library();
    journal_lasts();
    let (ending, beginning) = attach_drafts(contents, job, timestamp, number);
    match journal.switch(contents.alloc(), store, ending, beginning) {
        Ok(_) => (attach_in_memory(contents, job, timestamp, number), false),
        Err(ChainFault::NoMemory) => (Reply::NoMemory, false),
        Err(ChainFault::StoreFault) => (Reply::StoreFault, true),
    }
}

/// Attaches the receiver in memory, where its two entries are forgotten: they stand on the disk.
fn attach_in_memory(contents: &mut Contents, job: u32, timestamp: u64, number: u32) -> Reply
    requires running { IsTrue (is_running (job_at job contents.old.state.jobs)) }
    requires next { number ≡ contents.old.state.receivers.attached + 1 }
    requires few { number ≤ LAST_RECEIVER }
    requires left { (memory_of contents.old.state).last_entry ≤ LAST_SEQUENCE }
    requires room { 2 ≤ contents.old.room.entries }
    ensures { (t : State) × Answers contents.old.state t (Ok result) (Ok (attach_change (memory_of contents.old.state) job timestamp number)) × (contents.new.state ≡ remembered t) }
{
    let reply = apply_attach(contents, job, timestamp, number);
    contents.forget();
    reply
}

/// What CHGJRN is refused by, or the number of the receiver that it attaches. Room is made for its entries and for the block that waits.
fn ready_to_attach(contents: &mut Contents, journal: &mut KeptJournal) -> Result<u32, Stop>
    ensures plan { Gives result (attach_plan (memory_of contents.new.state)) }
    ensures next { IfOk result (λ number. number ≡ contents.new.state.receivers.attached + 1) }
    ensures few { IfOk result (λ number. number ≤ LAST_RECEIVER) }
    ensures left { IfOk result (λ number. (memory_of contents.new.state).last_entry ≤ LAST_SEQUENCE) }
    ensures state { contents.new.state ≡ contents.old.state }
    ensures room { OnOk result (2 ≤ contents.new.room.entries) }
    ensures same { HasMoreRoom journal.old journal.new }
    ensures places { OnOk result (2 * length contents.new.state.jobs + 1 ≤ journal.new.chain.room) }
{
    let number = plan_attach(contents)?;
    prepare_attach(contents)?;
    reserve_for(journal, contents.jobs_begun())?;
    Ok(number)
}
