//! What no call may pass, and what a history may hold.

/// The most files of a library.
pub const MOST_FILES: usize = 500;

/// The greatest number of a member.
pub const LAST_MEMBER: u32 = 4_000_000_000;

/// The most opens of a job.
pub const MOST_OPENS: usize = 32;

/// The most jobs of a session.
pub const MOST_JOBS: usize = 64;
