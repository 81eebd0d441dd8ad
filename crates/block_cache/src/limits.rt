//! How much a cache keeps.

/// So many decoded blocks are kept.
pub const MOST_BLOCKS: usize = 64;

/// A block with entries of more bytes isn't kept.
pub const MOST_BYTES: usize = 2 << 20;
