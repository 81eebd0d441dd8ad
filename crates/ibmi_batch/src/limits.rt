//! What a run may be given.

/// The most bytes of an input: 16 MiB.
pub const MOST_INPUT: usize = 16_777_216;
