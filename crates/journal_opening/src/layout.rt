//! Where the roots and the first receiver stand. The pages are docs/formats/roots.md and docs/formats/receivers.md.

/// The area of the root records.
pub const ROOT_AREA: u32 = 0;

/// The area of receiver 1.
pub const FIRST_AREA: u32 = 3;

/// The sequence of the first entry that a journal ever has.
pub const FIRST_SEQUENCE: u64 = 1;

/// The version of the logs.
pub const VERSION: u32 = 1;

/// So many entries are read at a time.
pub const PIECE: u64 = 1000;
