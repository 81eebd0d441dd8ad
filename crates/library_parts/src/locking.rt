//! What a call asks of the record locks and of its job's commit cycle, and what refuses it.
ghost use Rattle.std.specs.Prelude.{◌≡◌, ℕ, ◌+◌, ◌<◌, ◌≤◌, Bool, nat_lt, length, IsTrue};
ghost use Rattle.lock_table.specs.declared.table.TheConstants.{MOST_LOCKS};
ghost use Rattle.lock_table.specs.Lock.{is_of_open};
ghost use Rattle.lock_table.specs.Levels.{locks_after, with_wanted};
ghost use Rattle.lock_table.specs.Table.{freed};
ghost use Rattle.library_model.specs.declared.replies.Reply.TheVariants.{LimitReached};
ghost use Rattle.library_model.specs.declared.replies.LimitKind.TheVariants.{Locks};
ghost use Rattle.library_steps.specs.declared.limits.TheConstants.{MOST_GROUP_BYTES};
ghost use Rattle.library_steps.specs.State.{memory_of, job_at, job_of};
ghost use Rattle.library_steps.specs.History.{is_running};
ghost use Rattle.library_steps.specs.Locking.{level_of, holder_of, record_of, clashing, not_locked, few_locks, locks_left};
ghost use Rattle.library_steps.specs.SlotChange.{image_bytes, not_held, few_changes};
ghost use Rattle.library_steps.specs.ChangeRecord.{has_open_lock, has_boundary_lock};
ghost use Rattle.parts_model.specs.Answers.{Allows};
ghost use Rattle.parts_model.specs.declared.stop.Stop.TheVariants.{Refused};
ghost use Rattle.lawful_states.specs.Calls.{IsRead, IsWrite};

use crate::contents::Contents;
use library_model::replies::{LimitKind, Reply};
use library_steps::limits::{MOST_GROUP_BYTES, MOST_GROUP_CHANGES};
use lock_table::{Call, Held, Holder, Level, LockKind, MOST_LOCKS, RecordId, Wanted, asked};
use member_slots::slot::Slot;
use parts_model::Stop;
use parts_model::job_table::OpenAt;

impl Contents {
    /// The lock level of an open of the job; `None` where it isn't under commitment control.
    pub fn level_of(&self, job: u32, opened: &OpenAt<'_>) -> Option<Level>
        requires { IsTrue (is_running (job_at job self.now.state.jobs)) }
        ensures { result ≡ level_of (job_of job (memory_of self.now.state)) opened.now.state }
    {
        if opened.commit() {
            self.jobs.level(job)
        } else {
            None
        }
    }

    /// The least job whose lock clashes with the one that the call asks for.
    pub fn clashing(&self, call: Call, job: u32, opened: &OpenAt<'_>, rrn: u32) -> Option<u32>
        requires { IsTrue (is_running (job_at job self.now.state.jobs)) }
        ensures { result ≡ clashing call job opened.now.state rrn (memory_of self.now.state) }
    {
        match asked(call, self.level_of(job, opened)) {
            Some(wanted) => self.locks.clash(job, record_of(opened, rrn), wanted.kind),
            None => None,
        }
    }

    /// The refusal where another job's lock clashes with the one that the call asks for.
    pub fn not_locked(
        &self,
        call: Call,
        job: u32,
        opened: &OpenAt<'_>,
        rrn: u32,
    ) -> Result<(), Stop>
        requires { IsTrue (is_running (job_at job self.now.state.jobs)) }
        ensures { Allows result (not_locked call job opened.now.state rrn (memory_of self.now.state)) }
    {
        match self.clashing(call, job, opened, rrn) {
            Some(other) => Err(Stop::Refused(Reply::RecordInUse {
                job: other,
                member: opened.member(),
                rrn,
            })),
            None => Ok(()),
        }
    }

    /// The refusal where the locks that a read would leave are too many.
    pub fn few_locks_to_read(
        &self,
        call: Call,
        job: u32,
        opened: &OpenAt<'_>,
        rrn: u32,
    ) -> Result<(), Stop>
        requires running { IsTrue (is_running (job_at job self.now.state.jobs)) }
        requires call { IsRead call }
        ensures { Allows result (few_locks call job opened.now.state rrn (memory_of self.now.state)) }
    {
        if self.are_too_many_to_read(call, job, opened, rrn) {
            return Err(too_many_locks());
        }
        Ok(())
    }

    /// The refusal where the locks that a WRITE would leave are too many.
    pub fn few_locks_to_write(
        &self,
        call: Call,
        job: u32,
        opened: &OpenAt<'_>,
        rrn: u32,
    ) -> Result<(), Stop>
        requires running { IsTrue (is_running (job_at job self.now.state.jobs)) }
        requires call { IsWrite call }
        ensures { Allows result (few_locks call job opened.now.state rrn (memory_of self.now.state)) }
    {
        if self.are_too_many_to_write(call, job, opened, rrn) {
            return Err(too_many_locks());
        }
        Ok(())
    }

    fn are_too_many_to_read(&self, call: Call, job: u32, opened: &OpenAt<'_>, rrn: u32) -> bool
        requires running { IsTrue (is_running (job_at job self.now.state.jobs)) }
        requires call { IsRead call }
        ensures { result ≡ nat_lt MOST_LOCKS (length (locks_left call job opened.now.state rrn (memory_of self.now.state))) }
    {
        let wanted = asked(call, self.level_of(job, opened));
        self.count_read(wanted, holder_of(job, opened), record_of(opened, rrn)) > MOST_LOCKS
    }

    /// How many locks a read leaves that asks for this one, or more than there are.
    fn count_read(&self, wanted: Option<Wanted>, holder: Holder, at: RecordId) -> u32
        ensures { nat_lt MOST_LOCKS result ≡ nat_lt MOST_LOCKS (length (with_wanted wanted holder at (freed (is_of_open holder) self.now.state.locks))) }
    {
        match wanted {
            Some(wanted) => self
                .locks
                .count_after(holder, at, wanted.kind, wanted.reach),
            None => self.locks.count(),
        }
    }

    fn are_too_many_to_write(&self, call: Call, job: u32, opened: &OpenAt<'_>, rrn: u32) -> bool
        requires running { IsTrue (is_running (job_at job self.now.state.jobs)) }
        requires call { IsWrite call }
        ensures { result ≡ nat_lt MOST_LOCKS (length (locks_left call job opened.now.state rrn (memory_of self.now.state))) }
    {
        let level = self.level_of(job, opened);
        self.exceeds_to_write(call, level, holder_of(job, opened), record_of(opened, rrn))
    }

    fn exceeds_to_write(
        &self,
        call: Call,
        level: Option<Level>,
        holder: Holder,
        at: RecordId,
    ) -> bool
        requires { IsWrite call }
        ensures { (is_committed : ℕ → Bool) → result ≡ nat_lt MOST_LOCKS (length (locks_after call level holder at is_committed self.now.state.locks)) }
    {
        match level {
            Some(_) => self.locks.count_to_boundary(holder, at, LockKind::UPDATE) > MOST_LOCKS,
            None => self.locks.count() > MOST_LOCKS,
        }
    }

    /// How many locks are held. There is room for each of them.
    pub fn locks_held(&self) -> u32
        ensures count { result ≡ length self.now.state.locks }
        ensures room { result ≤ self.now.room.locks }
    {
        self.locks.count()
    }

    /// What the open and its job hold on a record of its member.
    pub fn locks_on(&self, job: u32, opened: &OpenAt<'_>, rrn: u32) -> Held
        ensures by_open { result.by_open ≡ has_open_lock job opened.now.state rrn (memory_of self.now.state) }
        ensures to_boundary { result.to_boundary ≡ has_boundary_lock job opened.now.state rrn (memory_of self.now.state) }
    {
        self.locks
            .held(holder_of(job, opened), record_of(opened, rrn))
    }

    /// The refusal where the job's open commit cycle has changed the record, and the open isn't under commitment control.
    pub fn not_held(&self, job: u32, opened: &OpenAt<'_>, rrn: u32) -> Result<(), Stop>
        requires { IsTrue (is_running (job_at job self.now.state.jobs)) }
        ensures { Allows result (not_held job opened.now.state rrn (memory_of self.now.state)) }
    {
        if !opened.commit() && self.jobs.has_changed_record(job, opened.member(), rrn) {
            return Err(Stop::Refused(Reply::HeldByGroup { rrn }));
        }
        Ok(())
    }

    /// The refusal where one change more, of that slot to the other, is too much for the open commit cycles.
    pub fn few_changes(&self, commit: bool, old: &Slot, new: &Slot) -> Result<(), Stop>
        ensures { Allows result (few_changes commit old.now new.now (memory_of self.now.state)) }
    {
        if !commit {
            return Ok(());
        }
        if self.jobs.changes_held() >= MOST_GROUP_CHANGES {
            return Err(Stop::Refused(Reply::LimitReached {
                which: LimitKind::GroupChanges,
                number: MOST_GROUP_CHANGES as u64,
            }));
        }
        let more = image_bytes(old) + image_bytes(new);
        if are_too_many(self.jobs.bytes_held(), more) {
            return Err(Stop::Refused(Reply::LimitReached {
                which: LimitKind::GroupBytes,
                number: MOST_GROUP_BYTES,
            }));
        }
        Ok(())
    }
}

fn too_many_locks() -> Stop
    ensures { result ≡ Refused (LimitReached Locks MOST_LOCKS) }
{
    Stop::Refused(Reply::LimitReached {
        which: LimitKind::Locks,
        number: u64::from(MOST_LOCKS),
    })
}

/// Through which open of which job records are locked.
pub fn holder_of(job: u32, opened: &OpenAt<'_>) -> Holder
    ensures { result ≡ holder_of job opened.now.state }
{
    Holder {
        job,
        opened: opened.number(),
    }
}

/// A record of the open's member.
pub fn record_of(opened: &OpenAt<'_>, rrn: u32) -> RecordId
    ensures { result ≡ record_of opened.now.state rrn }
{
    RecordId {
        member: opened.member(),
        rrn,
    }
}

/// The bytes of the record that stands in the slot.
fn image_bytes(slot: &Slot) -> u64
    ensures value { result ≡ image_bytes slot.now }
    ensures few { result < 9223372036854775808 }
{
    match slot {
        Slot::Live(image) => image.as_bytes().len() as u64,
        Slot::Deleted => 0,
    }
}

/// Whether the bytes of the changes with so many more are too many.
fn are_too_many(held: u64, more: u64) -> bool
    ensures { result ≡ nat_lt MOST_GROUP_BYTES (held + more) }
{
    held > MOST_GROUP_BYTES || more > MOST_GROUP_BYTES - held
}
