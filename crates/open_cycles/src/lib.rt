//! The open commit cycles and the slot changes that they made, found by hashes. Begin with `cycles.rt`.
#![tactic(auto)]

mod changes;
mod cycles;
mod kept;
mod restored;
mod tables;

pub use changes::OpenChange;
pub use cycles::OpenCycles;
pub use restored::HasSlots;
