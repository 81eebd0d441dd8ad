//! Whatever a job asks of a sound library, its opens, its locks and its current records stay in order. Laws alone: the
//! functions do nothing, and their contracts say it. Begin with `proofs/Effects.antt`, the twelve kinds of requests that
//! the laws go through.
#![tactic(auto)]

ghost use Rattle.std.specs.List.{AllByRecursion};
ghost use Rattle.std.specs.Prelude.{◌≡◌, ◌+◌, ℕ, Some, slice_get};
ghost use Rattle.lock_table.specs.Table.{AreCompatible};
ghost use Rattle.library_steps.specs.State.{JobState, memory_of};
ghost use Rattle.joint_state.specs.CurrentRecords.{AllCurrentStand};
ghost use Rattle.joint_state.specs.Cycles.{IsUnderControl};
ghost use Rattle.joint_state.specs.Joint.{IsIdle};
ghost use Rattle.joint_state.specs.Locks.{LockStands};
ghost use Rattle.joint_state.specs.Opens.{HasOpens};
ghost use Rattle.joint_state.specs.Sound.{IsKept};

/// A job that has ended has nothing open; only a job under commitment control has a commit cycle or opens under it; and
/// no two opens of a job share a name or a number.
pub fn jobs_are_kept()
    ensures idle { IsKept (λ s. (place : ℕ) (job : JobState) → slice_get s.jobs place ≡ Some job → IsIdle job) }
    ensures control { IsKept (λ s. (place : ℕ) (job : JobState) → slice_get s.jobs place ≡ Some job → IsUnderControl job) }
    ensures opens { IsKept (λ s. (place : ℕ) (job : JobState) → slice_get s.jobs place ≡ Some job → HasOpens job) }
{}

/// No two locks clash, though UPDATE and DELETE ask nobody: the current record is locked for them. Each lock is on a place
/// that its member has, through an open that its job has, or kept by a job that is under commitment control.
pub fn locks_are_kept()
    ensures compatible { IsKept (λ s. AreCompatible s.locks) }
    ensures locks { IsKept (λ s. AllByRecursion (LockStands (memory_of s)) s.locks) }
{}

/// What an open has read for update stays there, and stays locked, until the open gives it up: no other job takes it away.
pub fn current_records_are_kept()
    ensures { IsKept (λ s. (place : ℕ) (job : JobState) → slice_get s.jobs place ≡ Some job → AllCurrentStand (memory_of s) (place + 1) job) }
{}
