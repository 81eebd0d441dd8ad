//! What no call may pass, beside the limits of files, opens and locks.

/// The most members of a file.
pub const MOST_MEMBERS: usize = 32;

/// The greatest sequence of the journal before a request that deposits entries.
pub const LAST_SEQUENCE: u64 = 4_611_686_018_427_387_903;

/// The greatest number of a receiver.
pub const LAST_RECEIVER: u32 = 100_000;

/// The most entries that DSPJRN shows.
pub const MOST_DISPLAYED: usize = 100;

/// The most bytes of all members, deleted slots counted.
pub const MOST_LIBRARY_BYTES: u64 = 1_073_741_824;

/// The most changes of all open commit cycles together.
pub const MOST_GROUP_CHANGES: usize = 100_000;

/// The most bytes of images that the entries which take these changes back would carry.
pub const MOST_GROUP_BYTES: u64 = 268_435_456;

/// The most bytes of the entries of an APYJRNCHG, an RMVJRNCHG or a checkpoint.
pub const MOST_BLOCK_BYTES: u64 = 534_773_760;

/// The most different access paths over one member.
pub const MOST_PATHS: usize = 32;
