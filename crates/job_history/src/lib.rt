//! The history of a run: the calls in the order in which they were made, and when it is full.
#![tactic(auto)]

mod counting;
pub mod history;
pub mod limits;

pub use library_model::calls::Call;
