//! When a history is full.

/// The most calls other than ENDJOB that a history keeps.
pub const MOST_CALLS: u64 = 200_000;

/// The counted bytes at which a history is full: 256 MiB.
pub const MOST_BYTES: u64 = 268_435_456;
