//! What the words of a command line ask for is done. Begin here; a library is made in `formatting.rt`, shown in `showing.rt`, and jobs are run
//! over one in `running.rt`.
ghost use Rattle.std.specs.Prelude.{◌≡◌, true, false, map, string_bytes};
ghost use Rattle.store_model.specs.Faults.{Rose};
ghost use Rattle.job_runner.specs.Made.{AreGiven};
ghost use Rattle.ibmi_batch.specs.Words.{are_job_words, are_run_words};
ghost use Rattle.ibmi_batch.specs.Outcome.{IsOutcome};

use crate::formatting::make_library;
use crate::reading::read_scripts;
use crate::running::run_scripts;
use crate::showing::show_library;
use crate::status::Status;
use crate::words::{are_display_words, are_format_words, are_job_words, are_run_words};
use std::alloc::Global;
use std::sync::Wait;
use std::thread::Threads;
use store_model::{Clock, Gate, Sink, Source, Store};

/// Does what the words say. The runtime and the gate are for the jobs' threads of RUN; neither is used yet.
pub fn program<
    R: Threads + Wait + Sync,
    S: Store + Send,
    I: Source,
    O: Sink,
    C: Clock + Send,
    G: Gate + Sync,
>(
    _rt: &R,
    alloc: Global,
    words: &[String],
    store: S,
    input: &mut I,
    out: &mut O,
    clock: C,
    _gate: &G,
) -> (Status, S, C)
    ensures outcome { IsOutcome result.0 (record { words = map string_bytes words.now; tells = I.tells; input = I.left input.old; left = I.left input.new; rose = Rose (I.faults input.old) (I.faults input.new) }) (AreGiven C.gives clock result.2) (record { tells = O.tells; old = O.taken out.old; new = O.taken out.new; rose = Rose (O.faults out.old) (O.faults out.new) }) (record { tells = S.tells; old = S.disk store; new = S.disk result.1 }) }
{
    if are_run_words(words) {
        run_alone(alloc, words, store, input, out, clock)
    } else {
        program_alone(alloc, words, store, input, out, clock)
    }
}

/// Does what the words of another command than RUN say, without threads.
pub fn program_alone<S: Store, I: Source, O: Sink, C: Clock>(
    alloc: Global,
    words: &[String],
    store: S,
    input: &mut I,
    out: &mut O,
    clock: C,
) -> (Status, S, C)
    requires alone { are_run_words (map string_bytes words.now) ≡ false }
    ensures outcome { IsOutcome result.0 (record { words = map string_bytes words.now; tells = I.tells; input = I.left input.old; left = I.left input.new; rose = Rose (I.faults input.old) (I.faults input.new) }) (AreGiven C.gives clock result.2) (record { tells = O.tells; old = O.taken out.old; new = O.taken out.new; rose = Rose (O.faults out.old) (O.faults out.new) }) (record { tells = S.tells; old = S.disk store; new = S.disk result.1 }) }
{
    run_alone(alloc, words, store, input, out, clock)
}

/// Does what the words say on the caller's thread.
fn run_alone<S: Store, I: Source, O: Sink, C: Clock>(
    alloc: Global,
    words: &[String],
    store: S,
    input: &mut I,
    out: &mut O,
    clock: C,
) -> (Status, S, C)
    ensures outcome { IsOutcome result.0 (record { words = map string_bytes words.now; tells = I.tells; input = I.left input.old; left = I.left input.new; rose = Rose (I.faults input.old) (I.faults input.new) }) (AreGiven C.gives clock result.2) (record { tells = O.tells; old = O.taken out.old; new = O.taken out.new; rose = Rose (O.faults out.old) (O.faults out.new) }) (record { tells = S.tells; old = S.disk store; new = S.disk result.1 }) }
{
    if are_job_words(words) {
        run_input(alloc, words, store, input, out, clock)
    } else if are_display_words(words) {
        let (status, store) = show_library(alloc, store, out);
        (status, store, clock)
    } else if are_format_words(words) {
        let (status, store) = make_library(alloc, store);
        (status, store, clock)
    } else {
        (Status::Words, store, clock)
    }
}

/// Runs the jobs of the input, where it has no line at fault.
fn run_input<S: Store, I: Source, O: Sink, C: Clock>(
    alloc: Global,
    words: &[String],
    store: S,
    input: &mut I,
    out: &mut O,
    clock: C,
) -> (Status, S, C)
    requires { are_job_words (map string_bytes words.now) ≡ true }
    ensures outcome { IsOutcome result.0 (record { words = map string_bytes words.now; tells = I.tells; input = I.left input.old; left = I.left input.new; rose = Rose (I.faults input.old) (I.faults input.new) }) (AreGiven C.gives clock result.2) (record { tells = O.tells; old = O.taken out.old; new = O.taken out.new; rose = Rose (O.faults out.old) (O.faults out.new) }) (record { tells = S.tells; old = S.disk store; new = S.disk result.1 }) }
{
    match read_scripts(alloc, input) {
        Err(status) => (status, store, clock),
        Ok(scripts) => run_scripts(alloc, words, scripts, store, out, clock),
    }
}
