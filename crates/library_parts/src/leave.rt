//! What a call that is OK leaves of the locks.
ghost use Rattle.std.specs.Prelude.{◌≡◌, ◌≤◌, ℕ, Bool, false, None, IfSome, length};
ghost use Rattle.lock_table.specs.Levels.{asked, gained, locks_after, with_wanted, without_open_locks};
ghost use Rattle.lock_table.specs.Table.{blocker, holding};
ghost use Rattle.lawful_states.specs.Calls.{AreOfOpen, IsOfOpen};

use lock_table::{Call, Holder, Level, LockTable, OpenLocks, RecordId, Wanted, asked, released};

/// The lock that the call leaves on its record: a WRITE at a deleted place gives up its own at its end, where it isn't
/// under commitment.
pub(crate) fn gained(call: Call, level: Option<Level>) -> Option<Wanted>
    ensures { result ≡ gained call level }
{
    if call == Call::WriteAt && level.is_none() {
        return None;
    }
    asked(call, level)
}

/// Frees these locks of the open or of the job on the record.
pub(crate) fn free(locks: &mut LockTable, which: OpenLocks, holder: Holder, at: RecordId)
    requires { AreOfOpen which }
    ensures { (is_committed : ℕ → Bool) → locks.new ≡ holding (without_open_locks which holder at is_committed locks.old.held) locks.old }
{
    match which {
        OpenLocks::Stay => {}
        OpenLocks::OfOpen => locks.release_open(holder),
        OpenLocks::OfRecord => locks.release_record(holder.job, at),
        OpenLocks::OfCommitted | OpenLocks::OfJob => unreachable!(),
    }
}

/// Locks the record, where a lock is wanted.
pub(crate) fn keep(locks: &mut LockTable, wanted: Option<Wanted>, holder: Holder, at: RecordId)
    requires room { length (with_wanted wanted holder at locks.old.held) ≤ locks.old.room }
    requires unlocked { IfSome wanted (λ wanted. blocker holder.job at wanted.kind locks.old.held ≡ None) }
    ensures { locks.new ≡ holding (with_wanted wanted holder at locks.old.held) locks.old }
{
    let Some(wanted) = wanted else {
        return;
    };
    locks.hold(holder, at, wanted.kind, wanted.reach);
}

/// What the call leaves of the locks.
pub(crate) fn leave(
    locks: &mut LockTable,
    call: Call,
    level: Option<Level>,
    holder: Holder,
    at: RecordId,
)
    requires call { IsOfOpen call }
    requires unlocked { IfSome (asked call level) (λ wanted. blocker holder.job at wanted.kind locks.old.held ≡ None) }
    requires room { length (locks_after call level holder at (λ n. false) locks.old.held) ≤ locks.old.room }
    ensures { (is_committed : ℕ → Bool) → locks.new ≡ holding (locks_after call level holder at is_committed locks.old.held) locks.old }
{
    let released = released(call, level);
    free(locks, released.open_locks, holder, at);
    keep(locks, gained(call, level), holder, at);
}
