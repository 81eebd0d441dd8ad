//! UNLOCK.
ghost use Rattle.std.specs.Prelude.{Ok, IsErrOf, IsTrue};
ghost use Rattle.library_steps.specs.State.{job_at, memory_of};
ghost use Rattle.library_steps.specs.ChangeRecord.{unlock, unlock_change, unlock_plan};
ghost use Rattle.library_steps.specs.History.{is_running};
ghost use Rattle.library_parts.specs.Answers.{Answers};
ghost use Rattle.library_parts.below.parts_model.specs.declared.stop.Stop.TheVariants.{NoMemory};
ghost use Rattle.record_changes.specs.Plans.{PlansRead, last_read};

use crate::locks::free_locks;
use crate::planned::{LockedRead, Through};
use library_model::replies::Reply;
use library_model::requests::OpenName;
use library_parts::{Contents, OpenFound, Stop};

/// Gives up the record that the open read last. It takes no memory.
pub fn unlock(contents: &mut Contents, job: u32, args: &OpenName) -> Result<Reply, Stop>
    requires running { IsTrue (is_running (job_at job contents.old.state.jobs)) }
    ensures answers { Answers contents.old.state contents.new.state result (unlock (memory_of contents.old.state) job args.now) }
    ensures never_short { IsErrOf result NoMemory → ⊥ }
{
    let read = plan_unlock(contents, job, args)?;
    Ok(apply_unlock(contents, job, read))
}

#[tactic(auto, unfolding(library_steps::specs::ChangeRecord::unlock_plan))]
fn plan_unlock(contents: &Contents, job: u32, args: &OpenName) -> Result<LockedRead, Stop>
    requires { IsTrue (is_running (job_at job contents.now.state.jobs)) }
    ensures { PlansRead result (unlock_plan (memory_of contents.now.state) job args.now) }
{
    let OpenFound { opened, file: _ } = contents.opened_file(job, &args.open_id)?;
    // Where it read its last record.
    let opened = &opened.here();
    let Some(rrn) = opened.last_read() else {
        return Err(Stop::Refused(Reply::NoCurrentRecord));
    };
    let held = contents.locks_on(job, opened, rrn);
    if !held.by_open && !held.to_boundary {
        return Err(Stop::Refused(Reply::NoCurrentRecord));
    }
    if held.to_boundary {
        return Err(Stop::Refused(Reply::HeldToBoundary));
    }
    Ok(LockedRead {
        opened: Through::of(opened),
        rrn,
    })
}

fn apply_unlock(contents: &mut Contents, job: u32, read: LockedRead) -> Reply
    requires { IsTrue (is_running (job_at job contents.old.state.jobs)) }
    ensures { Answers contents.old.state contents.new.state (Ok result) (Ok (unlock_change (memory_of contents.old.state) job (last_read read))) }
{
    free_locks(contents, job, &read.opened, read.rrn);
    contents.give_up_current(job, read.opened.number());
    Reply::Done
}
