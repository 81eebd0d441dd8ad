//! What these calls ask of the record locks, and what they leave of them.
ghost use Rattle.std.specs.Prelude.{◌≡◌, true, None, Ok, IsTrue, OnOk};
ghost use Rattle.lock_table.specs.declared.levels.Call.TheVariants.{Unlock, Write};
ghost use Rattle.library_steps.specs.State.{job_at, job_of, memory_of};
ghost use Rattle.library_steps.specs.History.{is_running};
ghost use Rattle.library_steps.specs.Locking.{clashing, few_locks, level_of, locks_left};
ghost use Rattle.library_parts.specs.Locks.{HasLockRoom};
ghost use Rattle.lawful_states.specs.Calls.{IsOfOpen};
ghost use Rattle.record_changes.specs.Locks.{IsOfCurrent, MayLock};

use crate::planned::Through;
use library_parts::Contents;
use library_parts::job_table::OpenAt;
use library_parts::laws::locks_fit;
use lock_table::{Call, Level};
use std::alloc::AllocError;

/// The lock level of an open of the job; `None` where it isn't under commitment control.
fn level_of(contents: &Contents, job: u32, opened: &Through) -> Option<Level>
    requires { IsTrue (is_running (job_at job contents.now.state.jobs)) }
    ensures { result ≡ level_of (job_of job (memory_of contents.now.state)) opened.now }
{
    if opened.commit() {
        contents.level(job)
    } else {
        None
    }
}

/// Whether the locks of a change of the open's current record may be had. Its own lock on the record keeps other jobs away, and
/// makes room for the one to the boundary; where that weren't so, the change would want memory.
pub(crate) fn may_lock(
    contents: &Contents,
    call: Call,
    job: u32,
    opened: &OpenAt<'_>,
    rrn: u32,
) -> Result<(), AllocError>
    requires running { IsTrue (is_running (job_at job contents.now.state.jobs)) }
    requires call { IsOfCurrent call }
    ensures { OnOk result (MayLock call job opened.now.state rrn (memory_of contents.now.state)) }
{
    is_free(contents, call, job, opened, rrn)?;
    are_few(contents, job, opened, rrn)?;
    Ok(())
}

/// No other job's lock clashes with the one that the call asks for.
fn is_free(
    contents: &Contents,
    call: Call,
    job: u32,
    opened: &OpenAt<'_>,
    rrn: u32,
) -> Result<(), AllocError>
    requires { IsTrue (is_running (job_at job contents.now.state.jobs)) }
    ensures { OnOk result (clashing call job opened.now.state rrn (memory_of contents.now.state) ≡ None) }
{
    match contents.clashing(call, job, opened, rrn) {
        Some(_) => Err(AllocError),
        None => Ok(()),
    }
}

/// The locks are not too many with the one that a change keeps to the boundary.
fn are_few(contents: &Contents, job: u32, opened: &OpenAt<'_>, rrn: u32) -> Result<(), AllocError>
    requires { IsTrue (is_running (job_at job contents.now.state.jobs)) }
    ensures { OnOk result (few_locks Write job opened.now.state rrn (memory_of contents.now.state) ≡ Ok true) }
{
    match contents.few_locks_to_write(Call::Write, job, opened, rrn) {
        Ok(()) => Ok(()),
        Err(_) => Err(AllocError),
    }
}

/// What a change leaves of the locks.
pub(crate) fn leave_locks(contents: &mut Contents, call: Call, job: u32, opened: &Through, rrn: u32)
    requires running { IsTrue (is_running (job_at job contents.old.state.jobs)) }
    requires call { IsOfOpen call }
    requires may { MayLock call job opened.now rrn (memory_of contents.old.state) }
    requires room { HasLockRoom contents.old.state contents.old.room }
    ensures state { contents.new.state ≡ record contents.old.state { locks = locks_left call job opened.now rrn (memory_of contents.old.state) } }
    ensures room { contents.new.room ≡ contents.old.room }
{
    locks_fit();
    let level = level_of(contents, job, opened);
    contents.lock_for(call, level, opened.holder(job), opened.record_at(rrn));
}

/// What UNLOCK leaves of the locks.
pub(crate) fn free_locks(contents: &mut Contents, job: u32, opened: &Through, rrn: u32)
    requires { IsTrue (is_running (job_at job contents.old.state.jobs)) }
    ensures state { contents.new.state ≡ record contents.old.state { locks = locks_left Unlock job opened.now rrn (memory_of contents.old.state) } }
    ensures room { contents.new.room ≡ contents.old.room }
{
    let level = level_of(contents, job, opened);
    contents.free_for(
        Call::Unlock,
        level,
        opened.holder(job),
        opened.record_at(rrn),
    );
}
