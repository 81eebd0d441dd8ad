//! UPDATE.
ghost use Rattle.std.specs.Prelude.{◌≤◌, Ok, IfOk, IsTrue};
ghost use Rattle.library_steps.specs.declared.limits.TheConstants.{LAST_SEQUENCE};
ghost use Rattle.library_steps.specs.State.{job_at, memory_of};
ghost use Rattle.library_steps.specs.ChangeRecord.{update_change, update_plan, update_record};
ghost use Rattle.library_steps.specs.History.{is_running};
ghost use Rattle.lock_table.specs.declared.levels.Call.TheVariants.{Update};
ghost use Rattle.library_parts.specs.Answers.{Answers};
ghost use Rattle.library_parts.specs.Locks.{HasLockRoom};
ghost use Rattle.joint_state.specs.Views.{HaveDefaults};
ghost use Rattle.record_changes.specs.Locks.{MayLock};
ghost use Rattle.record_changes.specs.Places.{AreFewChanges, IsReady, MayChange};
ghost use Rattle.record_changes.specs.Plans.{PlansSlot, new_slot};

use crate::change_slot::change_slot;
use crate::images::image_through;
use crate::locks::{leave_locks, may_lock};
use crate::planned::{PlannedSlot, Prepared, Through};
use crate::prepare::prepare_change;
use crate::refusals::{current_record, few_changes, keys_free, may_change};
use library_model::replies::Reply;
use library_model::requests::UpdateRecord;
use library_parts::{Contents, OpenFound, Stop, may_deposit};
use lock_table::Call;
use member_slots::slot::Slot;

/// Changes the current record of the open. Through a logical file the record of the file that it is over is changed.
pub fn update_record(
    contents: &mut Contents,
    job: u32,
    timestamp: u64,
    args: &UpdateRecord,
) -> Result<Reply, Stop>
    requires running { IsTrue (is_running (job_at job contents.old.state.jobs)) }
    requires defaults { HaveDefaults contents.old.state.files }
    ensures answers { Answers contents.old.state contents.new.state result (update_record (memory_of contents.old.state) job timestamp args.now) }
{
    let planned = plan_update(contents, job, args)?;
    let prepared = prepare_change(contents, job, &planned)?;
    Ok(apply_update(contents, job, timestamp, planned, prepared))
}

#[tactic(auto, unfolding(library_steps::specs::ChangeRecord::update_plan))]
fn plan_update(contents: &Contents, job: u32, args: &UpdateRecord) -> Result<PlannedSlot, Stop>
    requires running { IsTrue (is_running (job_at job contents.now.state.jobs)) }
    requires defaults { HaveDefaults contents.now.state.files }
    ensures plan { PlansSlot result (update_plan (memory_of contents.now.state) job args.now) }
    ensures left { IfOk result (λ planned. (memory_of contents.now.state).last_entry ≤ LAST_SEQUENCE) }
    ensures few { IfOk result (λ planned. AreFewChanges planned (memory_of contents.now.state)) }
    ensures locks { IfOk result (λ planned. MayLock Update job planned.opened planned.rrn (memory_of contents.now.state)) }
    ensures may { IfOk result (λ planned. MayChange contents.now.state planned) }
{
    // No two members have one number.
    let _counts = contents.counts();
    may_deposit(contents)?;
    let OpenFound { opened, file } = contents.opened_file(job, &args.open_id)?;
    // Where it read its last record.
    let opened = &opened.here();
    may_change(opened)?;
    let rrn = current_record(opened)?;
    // A current record stands there, since its lock keeps it. Nothing states that, so the call gives up where none does.
    let Some(old) = contents.live_image(opened.member(), rrn) else {
        return Err(Stop::NoMemory);
    };
    let image = image_through(contents, file, opened, args.values.as_slice(), Some(old))?;
    contents.not_held(job, opened, rrn)?;
    keys_free(contents, job, opened, rrn, &image)?;
    let slot = Slot::Live(image);
    few_changes(contents, opened, rrn, &slot)?;
    may_lock(contents, Call::Update, job, opened, rrn)?;
    Ok(PlannedSlot {
        opened: Through::of(opened),
        rrn,
        slot,
    })
}

fn apply_update(
    contents: &mut Contents,
    job: u32,
    timestamp: u64,
    planned: PlannedSlot,
    prepared: Prepared,
) -> Reply
    requires running { IsTrue (is_running (job_at job contents.old.state.jobs)) }
    requires locks { MayLock Update job planned.opened planned.rrn (memory_of contents.old.state) }
    requires lock_room { HasLockRoom contents.old.state contents.old.room }
    requires ready { IsReady contents.old job planned prepared }
    ensures { Answers contents.old.state contents.new.state (Ok result) (Ok (update_change (memory_of contents.old.state) job timestamp (new_slot planned))) }
{
    let number = planned.opened.number();
    leave_locks(contents, Call::Update, job, &planned.opened, planned.rrn);
    change_slot(contents, job, timestamp, planned, prepared);
    contents.give_up_current(job, number);
    Reply::Done
}
