//! The journal of a store, restarted: opened, its attached receiver begun, and what its end leaves open rolled back. Begin with
//! `restarting.rt`.
#![tactic(auto)]

mod beginning;
mod restarting;

pub use beginning::begin_receiver;
pub use restarting::{RestartedJournal, restart_journal};
