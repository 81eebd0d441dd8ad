//! Limits of logical files.

/// The most formats of a file.
pub const MOST_FORMATS: usize = 16;

/// The most files of a join.
pub const MOST_JOINED: usize = 8;

/// The most key fields of a format.
pub const MOST_KEY_FIELDS: usize = 32;

/// The most bytes of a key in a record.
pub const MOST_KEY_BYTES: usize = 120;
