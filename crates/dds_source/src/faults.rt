//! What can be wrong with a source, and where it stands.
ghost use Rattle.std.specs.Prelude.{◌≡◌};
ghost use Rattle.dds_source.specs.declared.faults.SourceError.TheVariants.{NoMemory};

use std::alloc::{AllocError, AllocFailed};

/// What is wrong. Where several causes hold at one place, the one that stands first here counts.
#[derive(Clone, Copy, PartialEq)]
pub enum DdsCause {
    /// A position that stays blank isn't, or holds another character than it may.
    BadColumn,
    /// A name that isn't one, is missing, or stands where none may.
    BadName,
    /// A length, decimal positions or a hexadecimal literal that isn't one.
    BadNumber,
    /// An apostrophe, a parenthesis or a continuation that isn't finished.
    UnfinishedText,
    /// A line, or the keyword ALL, that may not stand there.
    OutOfOrder,
    /// Two formats, fields or key fields of one name.
    DuplicateName,
    /// A length that is missing or outside its bounds.
    BadLength,
    /// Decimal positions that are missing, outside their bounds, or not allowed.
    BadDecimals,
    /// A data type or usage that isn't one.
    BadType,
    /// A keyword that isn't one at that place.
    UnknownKeyword,
    /// Arguments that the keyword doesn't take.
    BadArguments,
    /// Keywords that exclude one another, or one that stands twice.
    Conflict,
    /// No record format, or one without what it needs.
    NoFormat,
    /// A name that isn't a field of what it is looked for in.
    NoSuchField,
    /// A reference to what isn't there.
    UnknownReference,
    /// A number above its limit.
    TooLarge,
    /// A based-on file that isn't a physical file.
    NoBase,
    /// A field that the based-on file doesn't have.
    NoBaseField,
    /// Key or join fields that don't go together.
    KeyMismatch,
    /// A key of a join file that isn't the primary file's.
    JoinKeyNotPrimary,
    /// Usage both on a field that can only be read.
    ReadOnlyMapping,
    /// A field too narrow for its base.
    Narrowing,
}

/// A cause and its place.
#[derive(Clone, Copy, PartialEq)]
pub struct DdsFault {
    /// Counted from 1.
    pub line: u32,
    /// The first position of the entry or keyword at fault, counted from 1.
    pub column: u32,
    pub cause: DdsCause,
}

/// Why a source wasn't read.
#[derive(Drop)]
pub enum SourceError {
    /// Memory ran out; the source may be fine.
    NoMemory,
    /// The source's first fault.
    Fault(DdsFault),
}

impl From<AllocError> for SourceError {
    ghost from_gives = { λ _ e. e ≡ NoMemory };

    fn from(_e: AllocError) -> SourceError {
        SourceError::NoMemory
    }
}

impl<T: Drop> From<AllocFailed<T>> for SourceError {
    ghost from_gives = { λ _ e. e ≡ NoMemory };

    fn from(_e: AllocFailed<T>) -> SourceError {
        SourceError::NoMemory
    }
}
