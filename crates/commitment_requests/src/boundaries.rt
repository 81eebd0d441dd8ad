//! COMMIT, ROLLBACK and ENDJOB. They never want memory: the room for what they deposit is kept from the changes on.
ghost use Rattle.std.specs.Prelude.{IsTrue, IsErrOf};
ghost use Rattle.library_steps.specs.State.{memory_of, job_at, job_of};
ghost use Rattle.library_steps.specs.History.{is_running};
ghost use Rattle.library_steps.specs.Uses.{changes_in};
ghost use Rattle.library_steps.specs.Commitment.{commit, rollback};
ghost use Rattle.library_steps.specs.EndJob.{end_job};
ghost use Rattle.library_parts.specs.Answers.{Answers};
ghost use Rattle.library_parts.specs.Standing.{StandAsMade};
ghost use Rattle.library_parts.below.parts_model.specs.declared.stop.Stop.TheVariants.{NoMemory};

use library_model::replies::Reply;
use library_parts::{Contents, Stop};

/// COMMIT: what the job has changed since the last boundary stays.
pub fn commit(contents: &mut Contents, job: u32, timestamp: u64) -> Result<Reply, Stop>
    requires running { IsTrue (is_running (job_at job contents.old.state.jobs)) }
    ensures answers { Answers contents.old.state contents.new.state result (commit (memory_of contents.old.state) job timestamp) }
    ensures never_short { IsErrOf result NoMemory → ⊥ }
{
    let Some(_level) = contents.level(job) else {
        return Err(Stop::Refused(Reply::NoDefinition));
    };
    contents.commit(job, timestamp);
    Ok(Reply::Done)
}

/// ROLLBACK: what the job has changed since the last boundary is taken back.
pub fn rollback(contents: &mut Contents, job: u32, timestamp: u64) -> Result<Reply, Stop>
    requires running { IsTrue (is_running (job_at job contents.old.state.jobs)) }
    requires stand { StandAsMade (changes_in (job_of job (memory_of contents.old.state)).cycle) contents.old.state.members }
    ensures answers { Answers contents.old.state contents.new.state result (rollback (memory_of contents.old.state) job timestamp) }
    ensures never_short { IsErrOf result NoMemory → ⊥ }
{
    let Some(_level) = contents.level(job) else {
        return Err(Stop::Refused(Reply::NoDefinition));
    };
    contents.rollback(job, timestamp);
    Ok(Reply::Done)
}

/// ENDJOB: an open commit cycle is rolled back, and the job has ended.
pub fn end_job(contents: &mut Contents, job: u32, timestamp: u64) -> Result<Reply, Stop>
    requires running { IsTrue (is_running (job_at job contents.old.state.jobs)) }
    requires stand { StandAsMade (changes_in (job_of job (memory_of contents.old.state)).cycle) contents.old.state.members }
    ensures answers { Answers contents.old.state contents.new.state result (end_job (memory_of contents.old.state) job timestamp) }
    ensures never_short { IsErrOf result NoMemory → ⊥ }
{
    contents.finish_job(job, timestamp);
    Ok(Reply::Done)
}
