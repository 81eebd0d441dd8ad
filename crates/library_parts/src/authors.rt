//! Who deposits entries, and the drafts that are his.
ghost use Rattle.std.specs.Prelude.{◌≡◌, IsTrue};
ghost use Rattle.library_steps.specs.State.{job_at, memory_of};
ghost use Rattle.library_steps.specs.History.{is_running};
ghost use Rattle.library_steps.specs.Drafts.{author_of, cycle_draft, library_draft, member_draft, record_draft};

use crate::contents::Contents;
use entry_codec::{Draft, EntryKind};
use field_types::names::Name;
use std::marker::Model;

/// The job that deposits entries, and when it does.
#[derive(Drop)]
pub struct Author {
    job: Name,
    moment: u64,
}

impl Model for Author {
    ghost use Rattle.library_steps.specs.Drafts as drafts;

    ghost Value = { drafts.Author };

    ghost view = { λ a. record { job = a.job; moment = a.moment } };
}

impl Author {
    /// The job with that number, at that time.
    pub fn of(contents: &Contents, job: u32, timestamp: u64) -> Author
        requires { IsTrue (is_running (job_at job contents.now.state.jobs)) }
        ensures { result ≡ author_of (memory_of contents.now.state) job timestamp }
    {
        Author {
            job: contents.job_name(job),
            moment: timestamp,
        }
    }

    /// An entry of the library.
    pub fn library_draft(&self, kind: EntryKind) -> Draft
        ensures { result ≡ library_draft self.now kind }
    {
        Draft {
            job: Some(self.job),
            moment: self.moment,
            group: None,
            member: None,
            rrn: None,
            kind,
        }
    }

    /// An entry of a commit cycle.
    pub fn cycle_draft(&self, cycle: u64, kind: EntryKind) -> Draft
        ensures { result ≡ cycle_draft self.now cycle kind }
    {
        Draft {
            job: Some(self.job),
            moment: self.moment,
            group: Some(cycle),
            member: None,
            rrn: None,
            kind,
        }
    }

    /// An entry of a member.
    pub fn member_draft(&self, member: u32, kind: EntryKind) -> Draft
        ensures { result ≡ member_draft self.now member kind }
    {
        Draft {
            job: Some(self.job),
            moment: self.moment,
            group: None,
            member: Some(member),
            rrn: None,
            kind,
        }
    }

    /// An entry of a record, of an open commit cycle or of none.
    pub fn record_draft(&self, cycle: Option<u64>, member: u32, rrn: u32, kind: EntryKind) -> Draft
        ensures { result ≡ record_draft self.now cycle member rrn kind }
    {
        Draft {
            job: Some(self.job),
            moment: self.moment,
            group: cycle,
            member: Some(member),
            rrn: Some(rrn),
            kind,
        }
    }
}
