//! The commit cycle that a change belongs to.
ghost use Rattle.std.specs.Prelude.{◌≡◌, ◌+◌, ◌≤◌, [], IsTrue, if◌then◌else◌};
ghost use Rattle.library_steps.specs.declared.limits.TheConstants.{LAST_SEQUENCE};
ghost use Rattle.library_steps.specs.State.{job_at, job_of, memory_of};
ghost use Rattle.library_steps.specs.History.{is_running};
ghost use Rattle.library_steps.specs.Drafts.{Author};
ghost use Rattle.library_steps.specs.SlotChange.{begins_cycle, cycle_number};
ghost use Rattle.record_changes.specs.Changes.{started};

use crate::planned::Through;
use library_parts::Contents;

/// The sequence of the entry with which the commit cycle of a change begins: the job's open one, or one that begins with the
/// next entry; `None` outside commitment control.
pub(crate) fn cycle_of(contents: &Contents, job: u32, opened: &Through) -> Option<u64>
    requires running { IsTrue (is_running (job_at job contents.now.state.jobs)) }
    requires left { (memory_of contents.now.state).last_entry ≤ LAST_SEQUENCE }
    ensures { result ≡ cycle_number opened.now.commit (memory_of contents.now.state) (job_of job (memory_of contents.now.state)) }
{
    if !opened.commit() {
        return None;
    }
    match contents.cycle(job) {
        Some(cycle) => Some(cycle),
        None => Some(next_sequence(contents)),
    }
}

/// The same, where the cycle begins with the change.
pub(crate) fn cycle_begun(contents: &Contents, job: u32, opened: &Through) -> Option<u64>
    requires running { IsTrue (is_running (job_at job contents.now.state.jobs)) }
    requires left { (memory_of contents.now.state).last_entry ≤ LAST_SEQUENCE }
    ensures { (author : Author) → started author result ≡ (if opened.now.commit then begins_cycle author (memory_of contents.now.state) (job_of job (memory_of contents.now.state)) else []) }
{
    if !opened.commit() {
        return None;
    }
    match contents.cycle(job) {
        Some(_) => None,
        None => Some(next_sequence(contents)),
    }
}

/// The sequence that the next entry gets.
fn next_sequence(contents: &Contents) -> u64
    requires { (memory_of contents.now.state).last_entry ≤ LAST_SEQUENCE }
    ensures { result ≡ (memory_of contents.now.state).last_entry + 1 }
{
    let (_, last) = contents.bounds();
    last + 1
}
