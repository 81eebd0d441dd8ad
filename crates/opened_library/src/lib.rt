//! A library opened from the store that keeps it. Begin with `opening.rt`.
#![tactic(auto)]

mod building;
mod judging;
mod opening;

pub use kept_library;
pub use opening::open_library;
