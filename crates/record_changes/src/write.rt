//! WRITE.
ghost use Rattle.std.specs.Prelude.{◌≡◌, ◌≤◌, None, Ok, IfOk, IsTrue};
ghost use Rattle.member_slots.specs.declared.slot.Slot.TheVariants.{Deleted};
ghost use Rattle.library_steps.specs.declared.limits.TheConstants.{LAST_SEQUENCE};
ghost use Rattle.library_steps.specs.State.{job_at, memory_of};
ghost use Rattle.library_steps.specs.History.{is_running};
ghost use Rattle.library_steps.specs.Locking.{clashing};
ghost use Rattle.library_steps.specs.Records.{slot_there};
ghost use Rattle.library_steps.specs.WriteRecord.{next_place, place_asked, write_call, write_change, write_plan, write_record};
ghost use Rattle.library_parts.specs.Answers.{Answers, Gives};
ghost use Rattle.library_parts.specs.Finds.{ReadsMember};
ghost use Rattle.library_parts.specs.Indexed.{IsViewBeside};
ghost use Rattle.library_parts.specs.Locks.{HasLockRoom};
ghost use Rattle.lawful_states.specs.Calls.{IsWrite};
ghost use Rattle.joint_state.specs.Views.{HaveDefaults};
ghost use Rattle.record_changes.specs.Locks.{MayLock};
ghost use Rattle.record_changes.specs.Places.{AreFewChanges, IsReady, MayChange};
ghost use Rattle.record_changes.specs.Plans.{PlansSlot, given_plan, new_slot, opened_with};

use crate::change_slot::change_slot;
use crate::images::image_through;
use crate::locks::leave_locks;
use crate::planned::{PlannedSlot, Prepared, Through};
use crate::prepare::prepare_change;
use crate::refusals::{added_keys_free, format_asked, may_change};
use library_model::replies::Reply;
use library_model::requests::WriteRecord;
use library_parts::file_catalogue::File;
use library_parts::job_table::OpenAt;
use library_parts::{Contents, OpenFound, Stop, may_deposit};
use lock_table::Call;
use member_slots::slot::Slot;

/// Adds a record past the last place of the open's member, or at a deleted place. Through a logical file it is one of the file
/// that it is over.
pub fn write_record(
    contents: &mut Contents,
    job: u32,
    timestamp: u64,
    args: &WriteRecord,
) -> Result<Reply, Stop>
    requires running { IsTrue (is_running (job_at job contents.old.state.jobs)) }
    requires defaults { HaveDefaults contents.old.state.files }
    ensures answers { Answers contents.old.state contents.new.state result (write_record (memory_of contents.old.state) job timestamp args.now) }
{
    let planned = plan_write(contents, job, args)?;
    let prepared = prepare_change(contents, job, &planned)?;
    let asked = args.record_number;
    Ok(apply_write(contents, job, timestamp, asked, planned, prepared))
}

#[tactic(auto, unfolding(library_steps::specs::WriteRecord::write_plan))]
fn plan_write(contents: &Contents, job: u32, args: &WriteRecord) -> Result<PlannedSlot, Stop>
    requires running { IsTrue (is_running (job_at job contents.now.state.jobs)) }
    requires defaults { HaveDefaults contents.now.state.files }
    ensures plan { PlansSlot result (write_plan (memory_of contents.now.state) job args.now) }
    ensures left { IfOk result (λ planned. (memory_of contents.now.state).last_entry ≤ LAST_SEQUENCE) }
    ensures few { IfOk result (λ planned. AreFewChanges planned (memory_of contents.now.state)) }
    ensures locks { IfOk result (λ planned. MayLock (write_call args.now.record_number) job planned.opened planned.rrn (memory_of contents.now.state)) }
    ensures may { IfOk result (λ planned. MayChange contents.now.state planned) }
{
    may_deposit(contents)?;
    let OpenFound { opened, file } = contents.opened_file(job, &args.open_id)?;
    let number = format_asked(file, args.format)?;
    let at = contents.at_format(opened, file, number);
    may_change(&at)?;
    plan_given(contents, job, &at, file, args)
}

/// The record that the values make through the format at which the open is, and its place.
#[tactic(auto, unfolding(library_steps::specs::WriteRecord::place_plan))]
fn plan_given(
    contents: &Contents,
    job: u32,
    opened: &OpenAt<'_>,
    file: &File,
    args: &WriteRecord,
) -> Result<PlannedSlot, Stop>
    requires running { IsTrue (is_running (job_at job contents.now.state.jobs)) }
    requires there { ReadsMember contents.now.state file.now opened.now.state }
    requires view { IsViewBeside contents.now.state.files file.now.spec }
    requires defaults { HaveDefaults contents.now.state.files }
    ensures plan { PlansSlot result (given_plan (memory_of contents.now.state) job (opened_with opened.now.state file.now) args.now) }
    ensures few { IfOk result (λ planned. AreFewChanges planned (memory_of contents.now.state)) }
    ensures locks { IfOk result (λ planned. MayLock (write_call args.now.record_number) job planned.opened planned.rrn (memory_of contents.now.state)) }
    ensures may { IfOk result (λ planned. MayChange contents.now.state planned) }
{
    let image = image_through(contents, file, opened, args.values.as_slice(), None)?;
    let rrn = place_asked(contents, job, opened, args.record_number)?;
    contents.has_room(
        contents.is_behind_last(opened.member(), rrn),
        opened.member(),
    )?;
    added_keys_free(contents, job, opened, rrn, &image)?;
    contents.few_locks_to_write(write_call(args.record_number), job, opened, rrn)?;
    let slot = Slot::Live(image);
    contents.few_changes(opened.commit(), &Slot::Deleted, &slot)?;
    Ok(PlannedSlot {
        opened: Through::of(opened),
        rrn,
        slot,
    })
}

/// The place that is named, or the one behind the last.
fn place_asked(
    contents: &Contents,
    job: u32,
    opened: &OpenAt<'_>,
    asked: Option<u32>,
) -> Result<u32, Stop>
    requires running { IsTrue (is_running (job_at job contents.now.state.jobs)) }
    ensures place { Gives result (place_asked job opened.now.state asked (memory_of contents.now.state)) }
    ensures first { IfOk result (λ rrn. 1 ≤ rrn) }
    ensures near { IfOk result (λ rrn. rrn ≤ next_place opened.now.state.member (memory_of contents.now.state)) }
    ensures unlocked { IfOk result (λ rrn. clashing (write_call asked) job opened.now.state rrn (memory_of contents.now.state) ≡ None) }
    ensures empty { IfOk result (λ rrn. slot_there opened.now.state.member rrn (memory_of contents.now.state) ≡ Deleted) }
{
    let member = opened.member();
    let next = contents.next_place(member);
    let Some(rrn) = asked else {
        // No job has a lock behind the last place.
        if contents.clashing(Call::Write, job, opened, next).is_some() {
            return Err(Stop::NoMemory);
        }
        return Ok(next);
    };
    if rrn == 0 || rrn > next {
        return Err(Stop::Refused(Reply::NotFound));
    }
    if contents.live_image(member, rrn).is_some() {
        return Err(Stop::Refused(Reply::PlaceInUse { rrn }));
    }
    contents.not_locked(Call::WriteAt, job, opened, rrn)?;
    contents.not_held(job, opened, rrn)?;
    Ok(rrn)
}

/// The call by which locks are asked.
fn write_call(asked: Option<u32>) -> Call
    ensures call { result ≡ write_call asked }
    ensures write { IsWrite result }
{
    match asked {
        Some(_) => Call::WriteAt,
        None => Call::Write,
    }
}

fn apply_write(
    contents: &mut Contents,
    job: u32,
    timestamp: u64,
    asked: Option<u32>,
    planned: PlannedSlot,
    prepared: Prepared,
) -> Reply
    requires running { IsTrue (is_running (job_at job contents.old.state.jobs)) }
    requires locks { MayLock (write_call asked) job planned.opened planned.rrn (memory_of contents.old.state) }
    requires lock_room { HasLockRoom contents.old.state contents.old.room }
    requires ready { IsReady contents.old job planned prepared }
    ensures { Answers contents.old.state contents.new.state (Ok result) (Ok (write_change (memory_of contents.old.state) job timestamp (write_call asked) (new_slot planned))) }
{
    let rrn = planned.rrn;
    leave_locks(contents, write_call(asked), job, &planned.opened, rrn);
    change_slot(contents, job, timestamp, planned, prepared);
    Reply::Added { rrn }
}
