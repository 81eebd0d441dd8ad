//! What no input may pass, beside the limit of jobs.

/// The most bytes of an input.
pub const MOST_INPUT: usize = 16_777_216;

/// The most sources of an input.
pub const MOST_SOURCES: usize = 1_000;
