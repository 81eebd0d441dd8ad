//! The kinds of journal entries, each with what its body holds. (Journal Management, "Journal code
//! finder".) What stands in front of the body is in `entries.rt`.
use commit_level::Level;
use field_types::names::Name;
use field_types::texts::{Image, SourceText};

/// The fewest bytes that a record has.
pub const MIN_RECORD_LENGTH: usize = 1;

/// The most bytes that a record has.
pub const MAX_RECORD_LENGTH: usize = 32_766;

/// Whether a file holds records of its own.
#[derive(Clone, Copy, PartialEq)]
pub enum FileKind {
    /// It holds records.
    Physical,
    /// It shows the records of physical files.
    Logical,
}

/// Which images the journal keeps of a record that is changed.
#[derive(Clone, Copy, PartialEq)]
pub enum Images {
    /// *AFTER: the record as the change leaves it.
    After,
    /// *BOTH: besides, the record as it was before.
    Both,
}

/// What happened, with what the entry's body holds of it. In front stand the code and the type.
#[derive(Drop)]
pub enum EntryKind {
    /// D CT: a file was created from this source, a physical one with its first member.
    FileCreated {
        kind: FileKind,
        name: Name,
        source: SourceText,
    },
    /// D DT: a file was deleted.
    FileDeleted {
        name: Name,
    },
    /// D AM: a member was added to a file.
    MemberAdded {
        file: Name,
        name: Name,
    },

    /// F JM: journaling of a member began, which then had so many slots.
    JournalingStarted {
        images: Images,
        slots: u32,
    },
    /// F IS: a record that was live when journaling began.
    InitialSlot {
        image: Image,
    },
    /// F EJ: journaling of a member ended.
    JournalingEnded,
    /// F CR: a member was cleared.
    MemberCleared,
    /// F RG: a member lost its deleted slots.
    MemberReorganized,
    /// F AY: the changes of a range of sequences were applied to a member.
    ChangesApplied {
        first: u64,
        last: u64,
        changes: u32,
    },
    /// F RC: the changes of a range of sequences were removed from a member.
    ChangesRemoved {
        first: u64,
        last: u64,
        changes: u32,
    },

    /// R PT: a record was added.
    RecordAdded {
        image: Image,
    },
    /// R PX: a record was added at a place that the request named.
    RecordAddedAtNumber {
        image: Image,
    },
    /// R UB: a record before its update.
    BeforeImage {
        image: Image,
    },
    /// R UP: a record after its update. `has_before`: the entry before is its before image.
    AfterImage {
        has_before: bool,
        image: Image,
    },
    /// R DL: a record was deleted, which looked so where before images are kept.
    RecordDeleted {
        before: Option<Image>,
    },
    /// R BR: a record before an undo changed it.
    UndoBeforeImage {
        image: Image,
    },
    /// R UR: a record after an undo. `has_before`: the entry before is its before image; where there
    /// is none, the place was deleted.
    UndoAfterImage {
        has_before: bool,
        image: Image,
    },
    /// R DR: an undo deleted a record, which looked so.
    UndoDelete {
        image: Image,
    },

    /// C BC: commitment control was started at this lock level.
    CommitmentStarted {
        level: Level,
    },
    /// C SC: a commit cycle began.
    CommitCycleStarted,
    /// C CM: the changes of a commit cycle were committed.
    CommitCycleCommitted,
    /// C RB: the changes of a commit cycle were rolled back.
    CommitCycleRolledBack,
    /// C EC: commitment control was ended.
    CommitmentEnded,

    /// J IA: the journal was taken up again after an abnormal end.
    AbnormalEnd,
    /// J NR: the receiver ends here, and this one follows it.
    NextReceiver {
        number: u32,
    },
    /// J PR: the receiver begins here, and this one came before it.
    PreviousReceiver {
        number: u32,
    },
}
