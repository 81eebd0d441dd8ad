//! SETLL and SETGT.
ghost use Rattle.std.specs.Prelude.{◌≡◌, Ok, IsErrOf, IsTrue};
ghost use Rattle.library_steps.specs.State.{memory_of, job_at};
ghost use Rattle.library_steps.specs.History.{is_running};
ghost use Rattle.library_steps.specs.Reads.{set_lower_limit, set_greater_than};
ghost use Rattle.library_parts.specs.Answers.{Answers};
ghost use Rattle.library_parts.below.parts_model.specs.declared.stop.Stop.TheVariants.{NoMemory};
ghost use Rattle.record_reads.specs.Plans.{CanBeSet, PlansPosition, position_set};

use crate::plans::{UsedOpen, used_open};
use library_model::replies::Reply;
use library_model::requests::SetPosition;
use library_parts::laws::effects_answer;
use library_parts::{Contents, OpenFound, Stop};
use lock_table::Call;
use open_position::position::Side;

/// SETLL: stands before the first record that isn't less.
pub fn set_lower_limit(contents: &mut Contents, job: u32, args: &SetPosition) -> Result<Reply, Stop>
    requires running { IsTrue (is_running (job_at job contents.old.state.jobs)) }
    ensures answers { Answers contents.old.state contents.new.state result (set_lower_limit (memory_of contents.old.state) job args.now) }
    ensures never_short { IsErrOf result NoMemory → ⊥ }
{
    let used = plan_position(contents, job, args)?;
    Ok(apply_position(contents, job, args, Side::Before, used))
}

/// SETGT: stands past the last record that isn't greater.
pub fn set_greater_than(
    contents: &mut Contents,
    job: u32,
    args: &SetPosition,
) -> Result<Reply, Stop>
    requires running { IsTrue (is_running (job_at job contents.old.state.jobs)) }
    ensures answers { Answers contents.old.state contents.new.state result (set_greater_than (memory_of contents.old.state) job args.now) }
    ensures never_short { IsErrOf result NoMemory → ⊥ }
{
    let used = plan_position(contents, job, args)?;
    Ok(apply_position(contents, job, args, Side::Past, used))
}

/// The open that is to stand at the place, where it can.
#[tactic(auto, unfolding(library_steps::specs::Reads::position_plan))]
fn plan_position(contents: &Contents, job: u32, args: &SetPosition) -> Result<UsedOpen, Stop>
    requires { IsTrue (is_running (job_at job contents.now.state.jobs)) }
    ensures { PlansPosition (memory_of contents.now.state) job args.now result }
{
    let OpenFound { opened, file } = contents.opened_file(job, &args.open_id)?;
    contents.may_stand(opened, file, &args.to)?;
    let here = opened.here();
    Ok(used_open(contents, job, &here))
}

fn apply_position(
    contents: &mut Contents,
    job: u32,
    args: &SetPosition,
    side: Side,
    used: UsedOpen,
) -> Reply
    requires running { IsTrue (is_running (job_at job contents.old.state.jobs)) }
    requires place { CanBeSet (memory_of contents.old.state) job args.now used }
    ensures { Answers contents.old.state contents.new.state (Ok result) (position_set side (memory_of contents.old.state) job args.now) }
{
    effects_answer();
    contents.free_for(
        Call::Position,
        used.level,
        used.holder(job),
        used.record_id(0),
    );
    contents.set_position(job, &args.open_id, side, &args.to);
    Reply::Done
}
