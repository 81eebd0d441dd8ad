//! The level of commitment control, of which locks, journal entries and jobs all speak.
#![tactic(auto)]

/// The lock level of a commitment definition (Commitment Control, "Lock levels").
#[derive(Clone, Copy, PartialEq)]
pub enum Level {
    /// *CHG: records that are changed, added or deleted stay locked to the boundary.
    Chg,
    /// *CS: a record that is read stays locked besides, until the next read.
    Cs,
    /// *ALL: every record that is read stays locked to the boundary.
    All,
}
