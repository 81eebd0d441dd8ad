//! APYJRNCHG and RMVJRNCHG over the memory of a library: the changes of a range of the journal are made again in a member, or
//! taken out of it. Begin with `commands.rt`.
#![tactic(auto)]

mod commands;
mod ends;
mod fits;
mod found;
mod kept;
mod plans;
mod tells;
mod walks;
mod wanted;

pub use commands::{apply_changes, remove_changes};
pub use ends::breaks;
pub use wanted::{RangeWanted, range_wanted};
