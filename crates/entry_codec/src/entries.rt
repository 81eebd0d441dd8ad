//! A journal entry, a draft of one, and how an entry is measured and written. What happened is in
//! `kinds.rt`, how it is read in `reading.rt`.
ghost use Rattle.std.specs.Prelude.{◌≡◌, ◌+◌, ◌≤◌, ◌++◌, IfOk, OnOk, OnErr, IsOk, length, vec_len, vec_capacity};
ghost use Rattle.entry_codec.specs.Drafts.{numbered};
ghost use Rattle.entry_codec.specs.Spelling.{HasSpelling, IsSpelled, spelling};

use crate::kinds::EntryKind;
use field_types::names::Name;
use std::alloc::{AllocError, Global};

/// An entry of the journal. (Journal Management, "Fixed-length portion of the journal entry".)
#[derive(Drop)]
pub struct Entry {
    /// Its place in the journal, counted from 1.
    pub sequence: u64,
    /// The job that caused it.
    pub job: Option<Name>,
    /// When, as the clock counts.
    pub moment: u64,
    /// The commit cycle that it belongs to, named by the sequence of its first entry.
    pub group: Option<u64>,
    /// The number of the member, counted from 1 in order of creation.
    pub member: Option<u32>,
    /// The relative record number.
    pub rrn: Option<u32>,
    pub kind: EntryKind,
}

/// An entry without its sequence. The draft of a commit cycle's start has no group.
#[derive(Drop)]
pub struct Draft {
    pub job: Option<Name>,
    pub moment: u64,
    pub group: Option<u64>,
    pub member: Option<u32>,
    pub rrn: Option<u32>,
    pub kind: EntryKind,
}

impl Draft {
    /// The entry that it becomes at this place of the journal.
    pub fn numbered(self, sequence: u64) -> Entry
        ensures { result ≡ numbered self sequence }
    {
        let Draft {
            job,
            moment,
            group,
            member,
            rrn,
            kind,
        } = self;
        let group = match kind {
            EntryKind::CommitCycleStarted => Some(sequence),
            _ => group,
        };
        Entry {
            sequence,
            job,
            moment,
            group,
            member,
            rrn,
            kind,
        }
    }
}

impl Entry {
    /// A copy in memory of its own.
    pub fn copied(&self, alloc: Global) -> Result<Entry, AllocError>
        ensures { IfOk result (λ e. e ≡ self.now) }
    {
        Ok(Entry {
            sequence: self.sequence,
            job: self.job,
            moment: self.moment,
            group: self.group,
            member: self.member,
            rrn: self.rrn,
            kind: self.kind.copied(alloc)?,
        })
    }
}
