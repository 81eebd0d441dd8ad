//! STRCMTCTL and ENDCMTCTL.
ghost use Rattle.std.specs.Prelude.{◌≡◌, ◌≤◌, Ok, IsSome, IsTrue, OnOk, IsErrOf};
ghost use Rattle.library_steps.specs.declared.limits.TheConstants.{LAST_SEQUENCE};
ghost use Rattle.library_steps.specs.State.{memory_of, job_at, job_of};
ghost use Rattle.library_steps.specs.History.{is_running};
ghost use Rattle.library_steps.specs.Commitment.{start_plan, start_commitment, end_plan, end_commitment};
ghost use Rattle.library_parts.specs.Answers.{Allows, Answers};
ghost use Rattle.library_parts.below.parts_model.specs.declared.stop.Stop.TheVariants.{NoMemory};
ghost use Rattle.commitment_requests.specs.Started.{started};

use entry_codec::{Draft, EntryKind};
use library_model::replies::Reply;
use library_model::requests::StartCommitment;
use library_parts::{Contents, Stop};
use std::alloc::AllocError;

/// The most bytes of an entry that starts commitment control.
const START_BYTES: u64 = 64;

/// STRCMTCTL: the job's changes belong to commit cycles from now on, through opens under commitment.
pub fn start_commitment(
    contents: &mut Contents,
    job: u32,
    timestamp: u64,
    args: &StartCommitment,
) -> Result<Reply, Stop>
    requires running { IsTrue (is_running (job_at job contents.old.state.jobs)) }
    ensures answers { Answers contents.old.state contents.new.state result (start_commitment (memory_of contents.old.state) job timestamp args.now) }
{
    plan_start(contents, job)?;
    prepare_start(contents)?;
    Ok(apply_start(contents, job, timestamp, args))
}

#[tactic(auto, unfolding(library_steps::specs::Commitment::start_plan))]
fn plan_start(contents: &Contents, job: u32) -> Result<(), Stop>
    requires { IsTrue (is_running (job_at job contents.now.state.jobs)) }
    ensures plan { Allows result (start_plan (memory_of contents.now.state) job) }
    ensures left { OnOk result ((memory_of contents.now.state).last_entry ≤ LAST_SEQUENCE) }
{
    contents.sequences_left()?;
    if contents.level(job).is_some() {
        return Err(Stop::Refused(Reply::AlreadyStarted));
    }
    Ok(())
}

/// Makes room for the entry, and for the one that will end commitment control.
fn prepare_start(contents: &mut Contents) -> Result<(), AllocError>
    ensures state { contents.new.state ≡ contents.old.state }
    ensures room { OnOk result (2 ≤ contents.new.room.entries) }
{
    contents.reserve_entries(2, 2 * START_BYTES)
}

fn apply_start(contents: &mut Contents, job: u32, timestamp: u64, args: &StartCommitment) -> Reply
    requires running { IsTrue (is_running (job_at job contents.old.state.jobs)) }
    requires left { (memory_of contents.old.state).last_entry ≤ LAST_SEQUENCE }
    requires room { 2 ≤ contents.old.room.entries }
    ensures { Answers contents.old.state contents.new.state (Ok result) (Ok (started (memory_of contents.old.state) job timestamp args.now)) }
{
    let draft = Draft {
        job: Some(contents.job_name(job)),
        moment: timestamp,
        group: None,
        member: None,
        rrn: None,
        kind: EntryKind::CommitmentStarted { level: args.level },
    };
    let _sequence = contents.deposit(draft);
    contents.start_commitment(job, args.level);
    Reply::Done
}

/// ENDCMTCTL: refused while the job has changes pending or an open under commitment. It never wants memory.
pub fn end_commitment(contents: &mut Contents, job: u32, timestamp: u64) -> Result<Reply, Stop>
    requires running { IsTrue (is_running (job_at job contents.old.state.jobs)) }
    ensures answers { Answers contents.old.state contents.new.state result (end_commitment (memory_of contents.old.state) job timestamp) }
    ensures never_short { IsErrOf result NoMemory → ⊥ }
{
    plan_end(contents, job)?;
    contents.end_commitment(job, timestamp);
    Ok(Reply::Done)
}

#[tactic(auto, unfolding(library_steps::specs::Commitment::end_plan))]
fn plan_end(contents: &Contents, job: u32) -> Result<(), Stop>
    requires { IsTrue (is_running (job_at job contents.now.state.jobs)) }
    ensures plan { Allows result (end_plan (memory_of contents.now.state) job) }
    ensures started { OnOk result (IsSome (job_of job (memory_of contents.now.state)).level) }
{
    if contents.level(job).is_none() {
        return Err(Stop::Refused(Reply::NoDefinition));
    }
    if let Some(group) = contents.cycle(job) {
        return Err(Stop::Refused(Reply::PendingChanges { group }));
    }
    if contents.has_committed_open(job) {
        return Err(Stop::Refused(Reply::InUse { job }));
    }
    Ok(())
}
