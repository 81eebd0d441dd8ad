//! DELETE.
ghost use Rattle.std.specs.Prelude.{◌≤◌, Ok, IfOk, IsTrue};
ghost use Rattle.library_steps.specs.declared.limits.TheConstants.{LAST_SEQUENCE};
ghost use Rattle.library_steps.specs.State.{job_at, memory_of};
ghost use Rattle.library_steps.specs.ChangeRecord.{delete_change, delete_plan, delete_record};
ghost use Rattle.library_steps.specs.History.{is_running};
ghost use Rattle.lock_table.specs.declared.levels.Call.TheVariants.{Delete};
ghost use Rattle.library_parts.specs.Answers.{Answers};
ghost use Rattle.library_parts.specs.Locks.{HasLockRoom};
ghost use Rattle.record_changes.specs.Locks.{MayLock};
ghost use Rattle.record_changes.specs.Places.{AreFewChanges, IsReady, MayChange};
ghost use Rattle.record_changes.specs.Plans.{PlansSlot, new_slot};

use crate::change_slot::change_slot;
use crate::locks::{leave_locks, may_lock};
use crate::planned::{PlannedSlot, Prepared, Through};
use crate::prepare::prepare_change;
use crate::refusals::{current_record, few_changes, may_change};
use library_model::replies::Reply;
use library_model::requests::OpenName;
use library_parts::{Contents, OpenFound, Stop, may_deposit};
use lock_table::Call;
use member_slots::slot::Slot;

/// Deletes the current record of the open.
pub fn delete_record(
    contents: &mut Contents,
    job: u32,
    timestamp: u64,
    args: &OpenName,
) -> Result<Reply, Stop>
    requires running { IsTrue (is_running (job_at job contents.old.state.jobs)) }
    ensures answers { Answers contents.old.state contents.new.state result (delete_record (memory_of contents.old.state) job timestamp args.now) }
{
    let planned = plan_delete(contents, job, args)?;
    let prepared = prepare_change(contents, job, &planned)?;
    Ok(apply_delete(contents, job, timestamp, planned, prepared))
}

#[tactic(auto, unfolding(library_steps::specs::ChangeRecord::delete_plan))]
fn plan_delete(contents: &Contents, job: u32, args: &OpenName) -> Result<PlannedSlot, Stop>
    requires running { IsTrue (is_running (job_at job contents.now.state.jobs)) }
    ensures plan { PlansSlot result (delete_plan (memory_of contents.now.state) job args.now) }
    ensures left { IfOk result (λ planned. (memory_of contents.now.state).last_entry ≤ LAST_SEQUENCE) }
    ensures few { IfOk result (λ planned. AreFewChanges planned (memory_of contents.now.state)) }
    ensures locks { IfOk result (λ planned. MayLock Delete job planned.opened planned.rrn (memory_of contents.now.state)) }
    ensures may { IfOk result (λ planned. MayChange contents.now.state planned) }
{
    may_deposit(contents)?;
    let OpenFound { opened, file: _ } = contents.opened_file(job, &args.open_id)?;
    // Where it read its last record.
    let opened = &opened.here();
    may_change(opened)?;
    let rrn = current_record(opened)?;
    contents.not_held(job, opened, rrn)?;
    few_changes(contents, opened, rrn, &Slot::Deleted)?;
    // A current record stands there, since its lock keeps it. Nothing states that, so the call gives up where none does.
    let Some(_old) = contents.live_image(opened.member(), rrn) else {
        return Err(Stop::NoMemory);
    };
    may_lock(contents, Call::Delete, job, opened, rrn)?;
    Ok(PlannedSlot {
        opened: Through::of(opened),
        rrn,
        slot: Slot::Deleted,
    })
}

fn apply_delete(
    contents: &mut Contents,
    job: u32,
    timestamp: u64,
    planned: PlannedSlot,
    prepared: Prepared,
) -> Reply
    requires running { IsTrue (is_running (job_at job contents.old.state.jobs)) }
    requires locks { MayLock Delete job planned.opened planned.rrn (memory_of contents.old.state) }
    requires lock_room { HasLockRoom contents.old.state contents.old.room }
    requires ready { IsReady contents.old job planned prepared }
    ensures { Answers contents.old.state contents.new.state (Ok result) (Ok (delete_change (memory_of contents.old.state) job timestamp (new_slot planned))) }
{
    let member = planned.opened.member();
    let rrn = planned.rrn;
    leave_locks(contents, Call::Delete, job, &planned.opened, rrn);
    change_slot(contents, job, timestamp, planned, prepared);
    contents.give_up_record(job, member, rrn);
    Reply::Done
}
