//! The replies of the library: what was done, or the first refusal.
ghost use Rattle.std.specs.Prelude.{◌≡◌};
ghost use Rattle.std.specs.List.{All};
ghost use Rattle.entry_codec.specs.Spelling.{HasSpelling};

use crate::value_lists::Values;
use dds_source::DdsFault;
use entry_codec::Entry;
use field_types::faults::RecordFault;
use field_types::names::Name;
use std::marker::Model;

/// What no call may pass.
#[derive(Clone, Copy, PartialEq)]
pub enum LimitKind {
    Files,
    Members,
    MemberNumbers,
    Paths,
    Opens,
    Locks,
    LibraryBytes,
    GroupChanges,
    GroupBytes,
    BlockBytes,
    DisplayEntries,
    Receivers,
    Sequences,
}

/// A name that isn't there, or a receiver's number.
#[derive(Clone, Copy)]
pub enum Missing {
    Name(Name),
    Receiver(u32),
}

/// Entries of the journal in order. Each has a spelling there.
#[derive(Drop)]
pub struct Entries {
    entries: Vec<Entry>,
}

impl Model for Entries {
    ghost use Rattle.std.specs.Prelude.{List};
    ghost use Rattle.std.specs.List.{All};
    ghost use Rattle.entry_codec.specs.declared.entries.Entry.{Entry};
    ghost use Rattle.entry_codec.specs.Spelling.{HasSpelling};

    ghost Value = { List Entry };

    ghost view = { λ e. e.entries.items };

    ghost invariant = { λ e. All HasSpelling e.entries.items };
}

impl Entries {
    /// These entries.
    pub fn from_vec(entries: Vec<Entry>) -> Entries
        requires { All HasSpelling entries.items }
        ensures { result ≡ entries.items }
    {
        Entries { entries }
    }

    /// The entries in order.
    pub fn as_slice(&self) -> &[Entry]
        ensures entries { result.now ≡ self.now }
        ensures spelled { All HasSpelling result.now }
    {
        self.entries.as_slice()
    }
}

/// A record that was read.
#[derive(Drop)]
pub struct RecordRead {
    /// The format's name.
    pub format: Name,
    pub rrn: u32,
    pub values: Values,
}

/// What a call answers.
#[derive(Drop)]
pub enum Reply {
    Done,
    Record(RecordRead),
    /// A record was added at this relative record number.
    Added { rrn: u32 },
    /// The closed part of a range, and how many slot changes were made.
    Range { first: u64, last: u64, changes: u32 },
    Receiver { number: u32 },
    Sequence { number: u64 },
    Entries(Entries),

    RecordInUse { job: u32, member: u32, rrn: u32 },
    HeldByGroup { rrn: u32 },
    PlaceInUse { rrn: u32 },
    HeldToBoundary,
    NotFound,
    EndOfFile,
    BeginOfFile,
    NoCurrentRecord,
    WrongOpen,
    NoDefinition,
    AlreadyStarted,
    NoSuchEntry,
    MemberFull,
    StoreFault,
    NoMemory,
    DuplicateKey { file: Name, rrn: u32 },
    NoSuchName(Missing),
    NameExists { name: Name },
    Dependents { name: Name },
    BadValue(RecordFault),
    DdsFault(DdsFault),
    InUse { job: u32 },
    NotJournaled { member: u32 },
    PendingChanges { group: u64 },
    Straddled { group: u64 },
    DoesNotFit { sequence: u64, rrn: u32 },
    NeedsBoth { sequence: u64 },
    Gap { sequence: u64 },
    NotRemovable { sequence: u64 },
    ReceiverGone { sequence: u64 },
    BlockChanged { sequence: u64 },
    StillNeeded { sequence: u64 },
    LimitReached { which: LimitKind, number: u64 },
}
