//! CHGJRN and DLTJRNRCV.
ghost use Rattle.std.specs.Prelude.{◌≡◌, ℕ, ◌+◌, ◌≤◌, ◌<◌, nat_lt, true, unwrap_or, Ok, Err, IfOk, IsTrue, OnOk};
ghost use Rattle.std.specs.Option.{option_map_or};
ghost use Rattle.library_model.specs.declared.replies.Reply.TheVariants.{StillNeeded};
ghost use Rattle.library_steps.specs.History.{is_running};
ghost use Rattle.entry_codec.specs.declared.kinds.EntryKind.TheVariants.{NextReceiver, PreviousReceiver};
ghost use Rattle.library_steps.specs.Drafts.{author_of, library_draft};
ghost use Rattle.library_steps.specs.Receivers.{attach_change, attach_plan, delete_receiver, give_up_plan, last_in};
ghost use Rattle.library_steps.specs.State.{job_at, memory_of};
ghost use Rattle.library_steps.specs.declared.limits.TheConstants.{LAST_RECEIVER, LAST_SEQUENCE};
ghost use Rattle.library_parts.specs.Answers.{Answers, Gives};

use entry_codec::{Draft, EntryKind};
use library_model::replies::{LimitKind, Missing, Reply};
use library_model::requests::DeleteReceiver;
use library_parts::{Author, Contents, Stop, may_deposit};
use library_steps::limits::LAST_RECEIVER;
use std::alloc::AllocError;

/// The bytes of the two entries that end a receiver and begin the next.
const SWITCH_BYTES: u64 = 106;

/// What CHGJRN refuses, or the number of the receiver that it attaches. The library asks for the memory of the journal on the disk between these
/// steps: `plan_attach`, `prepare_attach`, `attach_drafts` for that journal, and `apply_attach`.
#[tactic(auto, unfolding(library_steps::specs::Receivers::attach_plan))]
pub fn plan_attach(contents: &Contents) -> Result<u32, Stop>
    ensures plan { Gives result (attach_plan (memory_of contents.now.state)) }
    ensures next { IfOk result (λ number. number ≡ contents.now.state.receivers.attached + 1) }
    ensures few { IfOk result (λ number. number ≤ LAST_RECEIVER) }
    ensures left { IfOk result (λ number. (memory_of contents.now.state).last_entry ≤ LAST_SEQUENCE) }
{
    may_deposit(contents)?;
    let (_, attached) = contents.receivers();
    if attached >= LAST_RECEIVER {
        return Err(Stop::Refused(Reply::LimitReached {
            which: LimitKind::Receivers,
            number: u64::from(LAST_RECEIVER),
        }));
    }
    Ok(attached + 1)
}

/// Makes room in memory for the two entries.
pub fn prepare_attach(contents: &mut Contents) -> Result<(), AllocError>
    ensures state { contents.new.state ≡ contents.old.state }
    ensures room { OnOk result (2 ≤ contents.new.room.entries) }
{
    contents.reserve_entries(2, SWITCH_BYTES)
}

/// The entry that ends the receiver, and the one that begins the next.
pub fn attach_drafts(contents: &Contents, job: u32, timestamp: u64, number: u32) -> (Draft, Draft)
    requires running { IsTrue (is_running (job_at job contents.now.state.jobs)) }
    ensures ending { result.0 ≡ library_draft (author_of (memory_of contents.now.state) job timestamp) (NextReceiver number) }
    ensures beginning { result.1 ≡ library_draft (author_of (memory_of contents.now.state) job timestamp) (PreviousReceiver contents.now.state.receivers.attached) }
{
    let (_, attached) = contents.receivers();
    let author = Author::of(contents, job, timestamp);
    let next = author.library_draft(EntryKind::NextReceiver { number });
    let previous = author.library_draft(EntryKind::PreviousReceiver { number: attached });
    (next, previous)
}

/// Attaches the receiver, and deposits the two entries. It takes no memory.
pub fn apply_attach(contents: &mut Contents, job: u32, timestamp: u64, number: u32) -> Reply
    requires running { IsTrue (is_running (job_at job contents.old.state.jobs)) }
    requires number { number ≡ contents.old.state.receivers.attached + 1 }
    requires few { number ≤ LAST_RECEIVER }
    requires left { (memory_of contents.old.state).last_entry ≤ LAST_SEQUENCE }
    requires room { 2 ≤ contents.old.room.entries }
    ensures { Answers contents.old.state contents.new.state (Ok result) (Ok (attach_change (memory_of contents.old.state) job timestamp number)) }
{
    let (next, previous) = attach_drafts(contents, job, timestamp, number);
    let number = contents.switch(next, previous);
    Reply::Receiver { number }
}

/// Gives a receiver up, and those before it.
pub fn delete_receiver(
    contents: &mut Contents,
    _job: u32,
    args: &DeleteReceiver,
) -> Result<Reply, Stop>
    requires running { IsTrue (is_running (job_at _job contents.old.state.jobs)) }
    ensures answers { Answers contents.old.state contents.new.state result (delete_receiver contents.old.state.entries (memory_of contents.old.state) args.now) }
{
    let _last = plan_give_up(contents, args)?;
    contents.drop_before(args.number);
    Ok(Reply::Done)
}

#[tactic(auto, unfolding(library_steps::specs::Receivers::give_up_plan))]
fn plan_give_up(contents: &Contents, args: &DeleteReceiver) -> Result<u64, Stop>
    ensures plan { Gives result (give_up_plan contents.now.state.entries (memory_of contents.now.state) args.now) }
    ensures last { IfOk result (λ last. last ≡ unwrap_or (last_in args.now.number contents.now.state.entries) contents.now.state.gone) }
    ensures ended { IfOk result (λ last. args.now.number < contents.now.state.receivers.attached) }
{
    let (first, attached) = contents.receivers();
    if args.number < first || attached < args.number {
        return Err(Stop::Refused(Reply::NoSuchName(Missing::Receiver(args.number))));
    }
    let last = contents.last_in(args.number);
    let checkpoint = contents.checkpoint();
    if args.number == attached || is_behind(last, checkpoint) {
        return Err(still_needed(checkpoint));
    }
    let (kept, _) = contents.bounds();
    Ok(last.unwrap_or(kept - 1))
}

/// The refusal of a receiver with entries behind the checkpoint. No sequence is behind the greatest that fits.
fn still_needed(checkpoint: u64) -> Stop
    ensures { Gives {A = ℕ} (Err result) (Err (StillNeeded (checkpoint + 1))) }
{
    match checkpoint.checked_add(1) {
        Some(sequence) => Stop::Refused(Reply::StillNeeded { sequence }),
        None => Stop::NoMemory,
    }
}

/// Whether the last entry of a receiver is behind the checkpoint; an unknown one is.
fn is_behind(last: Option<u64>, checkpoint: u64) -> bool
    ensures { result ≡ option_map_or (λ last. nat_lt checkpoint last) last true }
{
    match last {
        Some(last) => checkpoint < last,
        None => true,
    }
}
