//! What changes the status of a member.
use entry_codec::Images;

/// A change of a member's status.
#[derive(Clone, Copy)]
pub enum StatusChange {
    /// A record was changed.
    Touched,
    /// The records have lost their numbers.
    Renumbered { sequence: u64 },
    /// Journaling began.
    Journaled { sequence: u64, images: Images },
    /// Journaling ended, where the member had so many records.
    Unjournaled { sequence: u64, records: u32 },
}
