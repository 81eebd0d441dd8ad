//! The limits of what a journal may say. Those of a member's slots are in `member_slots`.

/// No member has a number above this one.
pub const LAST_MEMBER: u32 = 4_000_000_000;
