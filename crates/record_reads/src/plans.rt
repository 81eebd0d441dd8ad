//! What a plan hands on to its effect.
ghost use Rattle.std.specs.Prelude.{◌≡◌, IsTrue};
ghost use Rattle.library_steps.specs.State.{memory_of, job_at};
ghost use Rattle.library_steps.specs.History.{is_running};
ghost use Rattle.record_reads.specs.Plans.{used_of, holder_through, record_through};

use crate::asked::AskedBy;
use library_model::replies::RecordRead;
use library_parts::job_table::OpenAt;
use library_parts::{Contents, RowFound};
use lock_table::{Call, Holder, Level, RecordId};

/// What an effect needs of the open through which it is done.
#[derive(Clone, Copy)]
pub(crate) struct UsedOpen {
    pub number: u32,
    pub member: u32,
    pub level: Option<Level>,
}

impl UsedOpen {
    /// Through which open of the job records are locked.
    pub(crate) fn holder(self, job: u32) -> Holder
        ensures { result ≡ holder_through job self }
    {
        Holder {
            job,
            opened: self.number,
        }
    }

    /// A record of the open's member.
    pub(crate) fn record_id(self, rrn: u32) -> RecordId
        ensures { result ≡ record_through self rrn }
    {
        RecordId {
            member: self.member,
            rrn,
        }
    }
}

/// What a read found: a record of a format, and of a join the row of its primary's record.
#[derive(Drop)]
pub(crate) struct FoundAt {
    pub format: u16,
    pub rrn: u32,
    pub row: Option<RowFound>,
}

/// A record that is to be read.
#[derive(Drop)]
pub(crate) struct PlannedRead {
    pub used: UsedOpen,
    pub call: Call,
    pub rrn: u32,
    pub shown: RecordRead,
}

/// The same, by what it is found, and of a join its row.
#[derive(Drop)]
pub(crate) struct FoundRead {
    pub by: AskedBy,
    pub read: PlannedRead,
    pub row: Option<RowFound>,
}

/// What an effect needs of an open of the job.
pub(crate) fn used_open(contents: &Contents, job: u32, opened: &OpenAt<'_>) -> UsedOpen
    requires { IsTrue (is_running (job_at job contents.now.state.jobs)) }
    ensures { result ≡ used_of job opened.now.state (memory_of contents.now.state) }
{
    UsedOpen {
        number: opened.number(),
        member: opened.member(),
        level: contents.level_of(job, opened),
    }
}
