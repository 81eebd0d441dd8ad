//! Where roots and states stand. The page is docs/formats/roots.md.

/// The area of the root records.
pub const ROOT_AREA: u32 = 0;

/// The version of their logs.
pub const VERSION: u32 = 1;

/// Where the first gate of a log stands, behind the header.
pub const FIRST_GATE: u64 = 32;

/// Where its first block begins, with its length.
pub const FIRST_BLOCK: u64 = 33;

/// Where the first block's bytes begin.
pub const FIRST_BYTE: u64 = 37;
