//! Jobs run over the library that a store keeps, and their listing is written.
ghost use Rattle.std.specs.Prelude.{◌≡◌, ◌≤◌, [], ℕ, true, false, IsTrue, IfOk, IsErrOf, OnOk, List, length, map, string_bytes};
ghost use Rattle.store_model.specs.Faults.{Rose};
ghost use Rattle.input_scripts.specs.Schedules.{NamesJobs};
ghost use Rattle.job_runner.specs.Ended.{has_ended, has_early_end, ends_early};
ghost use Rattle.job_runner.specs.Made.{AreGiven};
ghost use Rattle.job_runner.specs.Moments.{StandsForced};
ghost use Rattle.job_runner.specs.Session.{HasMade};
ghost use Rattle.job_runner.specs.Turns.{AreInTurn};
ghost use Rattle.library_model.specs.declared.calls.Call.{Call};
ghost use Rattle.opened_library.specs.Stands.{IsAt};
ghost use Rattle.library_steps.specs.State.{State};
ghost use Rattle.library_steps.specs.History.{Outcome};
ghost use Rattle.listing.specs.HistoryListing.{listing};
ghost use Rattle.ibmi_batch.specs.declared.running.ListingFault.TheVariants.{NoMemory, WriteFault};
ghost use Rattle.ibmi_batch.specs.Outcome.{HasRun, HaveEnded, IsCutShort, IsStanding, IsWritten, IsWrittenInPart, NothingWritten};
ghost use Rattle.ibmi_batch.specs.Parts.{AreRunnable, RunsJobs, SessionRan};
ghost use Rattle.ibmi_batch.specs.Words.{are_serial_words};

use crate::opening::status_of;
use crate::status::Status;
use crate::words::are_serial_words;
use front_laws::fronts_can_be_opened;
use input_scripts::{JobNumbers, Schedule, Scripts};
use job_runner::{Ran, Session};
use library_model::calls::Call;
use library_model::requests::{EndReason, Request};
use listing::history_listing::listing;
use opened_library::open_library;
use replayed_restarts::restarted_libraries_are_replayed;
use std::alloc::{AllocError, Global};
use store_model::{Clock, Sink, Store, write_all};

/// Why a listing was not written whole.
pub(crate) enum ListingFault {
    /// The sink failed: it has the first part.
    WriteFault,
    /// There was no memory for its text: nothing was written.
    NoMemory,
}

/// Opens the library that the store keeps, runs the jobs of the scripts over it, and writes their listing.
pub(crate) fn run_scripts<S: Store, O: Sink, C: Clock>(
    alloc: Global,
    words: &[String],
    scripts: Scripts,
    store: S,
    out: &mut O,
    clock: C,
) -> (Status, S, C)
    requires runnable { AreRunnable scripts }
    ensures { RunsJobs result.0 (map string_bytes words.now) scripts (AreGiven C.gives clock result.2) (record { tells = O.tells; old = O.taken out.old; new = O.taken out.new; rose = Rose (O.faults out.old) (O.faults out.new) }) (record { tells = S.tells; old = S.disk store; new = S.disk result.1 }) }
{
    // Whatever a stop leaves of the calls can be opened again.
    restarted_libraries_are_replayed();
    fronts_can_be_opened();
    match open_library(alloc, store) {
        Err((fault, store)) => (status_of(fault), store, clock),
        Ok(library) => match Session::new(alloc, library, clock, scripts) {
            Err((store, clock)) => (Status::NoMemory, store, clock),
            Ok(session) => run_session(alloc, words, session, out),
        },
    }
}

/// Runs the jobs of a session and writes their listing.
fn run_session<S: Store, O: Sink, C: Clock>(
    alloc: Global,
    words: &[String],
    mut session: Session<S, C>,
    out: &mut O,
) -> (Status, S, C)
    requires calls { session.calls ≡ [] }
    requires scheduled { NamesJobs (length session.scripts.scripts) session.scripts.schedule }
    ensures ran { (from : State) → StandsForced S.tells S.disk session.library from → SessionRan S.tells (S.disk session.library.store) (S.disk result.1) result.0 (map string_bytes words.now) session.scripts from (AreGiven C.gives session.clock result.2) (record { tells = O.tells; old = O.taken out.old; new = O.taken out.new; rose = Rose (O.faults out.old) (O.faults out.new) }) }
    ensures cause { result.0 ≡ Status.StoreFault → session.library.failed ≡ false → Rose (S.disk session.library.store).faults (S.disk result.1).faults }
{
    let ran = run_jobs(alloc, words, &mut session);
    let status = write_outcome(alloc, ran, &session, out);
    let (store, clock) = session.into_parts();
    (status, store, clock)
}

/// Writes the listing of a session whose jobs have all ended, or that found the store at fault.
fn write_outcome<S: Store, O: Sink, C: Clock>(
    alloc: Global,
    ran: Ran,
    session: &Session<S, C>,
    out: &mut O,
) -> Status
    requires { ran ≡ Ran.Done → HaveEnded session.now.scripts session.now.calls }
    ensures ran { (outcome : Outcome) → IsAt S.tells S.disk session.now.library outcome → HasRun result session.now.scripts session.now.calls outcome (record { tells = O.tells; old = O.taken out.old; new = O.taken out.new; rose = Rose (O.faults out.old) (O.faults out.new) }) }
    ensures cause { result ≡ Status.StoreFault → session.now.library.failed ≡ true }
{
    if session.failed() {
        return write_cut_short(alloc, session, out);
    }
    match ran {
        Ran::Done => write_at_end(alloc, session, out),
        Ran::Stopped | Ran::NoMemory => Status::NoMemory,
    }
}

/// Runs the jobs of a session, in the order that the words ask for.
fn run_jobs<S: Store, C: Clock>(alloc: Global, words: &[String], session: &mut Session<S, C>) -> Ran
    requires scheduled { NamesJobs (length session.old.scripts.scripts) session.old.scripts.schedule }
    ensures done { result ≡ Ran.Done → (job : ℕ) → 1 ≤ job → job ≤ length session.new.scripts.scripts → IsTrue (has_ended job session.new.calls) }
    ensures made { (made : List Call) × HasMade S.tells S.disk C.gives session.old session.new made × (are_serial_words (map string_bytes words.now) ≡ true → AreInTurn (length session.old.scripts.scripts) session.old.scripts.schedule session.old.calls made) }
{
    match schedule_of(alloc, words, session) {
        Ok(schedule) => session.run_serial(&schedule),
        Err(_) => Ran::NoMemory,
    }
}

/// The order that the words ask for: SERIAL has the schedule of the input, and RUN one without names.
fn schedule_of<S: Store, C: Clock>(
    alloc: Global,
    words: &[String],
    session: &Session<S, C>,
) -> Result<Schedule, AllocError>
    requires scheduled { NamesJobs (length session.now.scripts.scripts) session.now.scripts.schedule }
    ensures serial { IfOk result (λ schedule. are_serial_words (map string_bytes words.now) ≡ true → schedule ≡ session.now.scripts.schedule) }
    ensures scheduled { IfOk result (λ schedule. NamesJobs (length session.now.scripts.scripts) schedule) }
{
    if are_serial_words(words) {
        session.schedule().copied(alloc)
    } else {
        Ok(Schedule::Jobs(JobNumbers::new(alloc)))
    }
}

/// Writes the listing of a session whose jobs have all ended.
fn write_at_end<S: Store, O: Sink, C: Clock>(
    alloc: Global,
    session: &Session<S, C>,
    out: &mut O,
) -> Status
    ensures ran { (outcome : Outcome) → IsStanding outcome → HaveEnded session.now.scripts session.now.calls → HasRun result session.now.scripts session.now.calls outcome (record { tells = O.tells; old = O.taken out.old; new = O.taken out.new; rose = Rose (O.faults out.old) (O.faults out.new) }) }
    ensures no_store_fault { result ≡ Status.StoreFault → ⊥ }
{
    match write_listing(alloc, session, out) {
        Err(ListingFault::NoMemory) => Status::NoMemory,
        Err(ListingFault::WriteFault) => Status::WriteFault,
        Ok(()) if has_early_end(session.history()) => Status::JobsEnded,
        Ok(()) => Status::Done,
    }
}

/// Writes the listing of a session that found the store at fault. It ends with that call.
fn write_cut_short<S: Store, O: Sink, C: Clock>(
    alloc: Global,
    session: &Session<S, C>,
    out: &mut O,
) -> Status
    ensures { (outcome : Outcome) → IsCutShort outcome → HasRun result session.now.scripts session.now.calls outcome (record { tells = O.tells; old = O.taken out.old; new = O.taken out.new; rose = Rose (O.faults out.old) (O.faults out.new) }) }
{
    match write_listing(alloc, session, out) {
        Err(ListingFault::NoMemory) => Status::NoMemory,
        // That the sink failed too is not said.
        Err(ListingFault::WriteFault) => Status::StoreFault,
        Ok(()) => Status::StoreFault,
    }
}

/// Writes the listing of a session's calls.
fn write_listing<S: Store, O: Sink, C: Clock>(
    alloc: Global,
    session: &Session<S, C>,
    out: &mut O,
) -> Result<(), ListingFault>
    ensures written { OnOk result (IsWritten (listing session.now.scripts.names session.now.calls) (record { tells = O.tells; old = O.taken out.old; new = O.taken out.new; rose = Rose (O.faults out.old) (O.faults out.new) })) }
    ensures part { IsErrOf result WriteFault → IsWrittenInPart (listing session.now.scripts.names session.now.calls) (record { tells = O.tells; old = O.taken out.old; new = O.taken out.new; rose = Rose (O.faults out.old) (O.faults out.new) }) }
    ensures nothing { IsErrOf result NoMemory → NothingWritten (record { tells = O.tells; old = O.taken out.old; new = O.taken out.new; rose = Rose (O.faults out.old) (O.faults out.new) }) }
{
    let text = match listing(alloc, session.names(), session.history()) {
        Ok(text) => text,
        Err(_) => return Err(ListingFault::NoMemory),
    };
    match write_all(out, text.as_slice()) {
        Ok(()) => Ok(()),
        Err(_) => Err(ListingFault::WriteFault),
    }
}

/// Whether some job ended otherwise than its script does.
fn has_early_end(calls: &[Call]) -> bool
    ensures { result ≡ has_early_end calls.now }
{
    calls.iter().any(|call| ends_early(&call.request))
}

fn ends_early(request: &Request) -> bool
    ensures { result ≡ ends_early request.now }
{
    match request.end_asked() {
        Some(ending) => ending.reason != EndReason::Normal,
        None => false,
    }
}
