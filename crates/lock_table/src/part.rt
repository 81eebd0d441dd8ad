//! The parts of a list of locks: those of a job, of its open or boundary locks, and of a member or a record among these.
//! The locks of a part stand side by side. Where they stand is found in chosen.rt.
ghost use Rattle.std.specs.Prelude.{◌≡◌};

use crate::lock::{Lock, LockKind, Reach, RecordId};
use std::cmp::Ordering;

/// Which locks are looked for.
#[derive(Clone, Copy)]
pub enum Part {
    OfJob(u32),
    Reaching(u32, Reach),
    InMember(u32, Reach, u32),
    OnRecord(u32, Reach, RecordId),
}

/// Which lock of a part is looked for.
#[derive(Clone, Copy)]
pub enum Sought {
    Any,
    /// One through this open.
    Through(u32),
    /// One of another job than this, that clashes with this kind. The locks are by record.
    Against(u32, LockKind),
}

impl Part {
    ghost use Rattle.lock_table.specs.Index.{part_cmp};
    ghost use Rattle.lock_table.specs.Shelves.{part_job};

    /// The job of its locks.
    pub fn job(&self) -> u32
        ensures { result ≡ part_job self.now }
    {
        match *self {
            Part::OfJob(job) => job,
            Part::Reaching(job, _) => job,
            Part::InMember(job, _, _) => job,
            Part::OnRecord(job, _, _) => job,
        }
    }

    /// Whether the lock stands before the part, in it or after it.
    pub fn side_of(&self, lock: &Lock) -> Ordering
        ensures { result ≡ part_cmp self.now lock.now }
    {
        match *self {
            Part::OfJob(job) => lock.job.cmp(&job),
            Part::Reaching(job, reach) => lock.job.cmp(&job).then(lock.reach.cmp(&reach)),
            Part::InMember(job, reach, member) => {
                let record = lock.at.member.cmp(&member);
                lock.job.cmp(&job).then(lock.reach.cmp(&reach).then(record))
            }
            Part::OnRecord(job, reach, at) => {
                let record = lock.at.cmp(&at);
                lock.job.cmp(&job).then(lock.reach.cmp(&reach).then(record))
            }
        }
    }
}
