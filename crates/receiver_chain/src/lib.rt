//! The journal's receivers on the disk as one list of blocks, whole after any stop.
#![tactic(auto)]

mod chain;
mod dropping;
mod fault;
mod laws;
mod link;
mod looks;
mod numbers;
mod opening;
mod switching;

pub use chain::Chain;
pub use fault::ChainFault;
pub use laws::{one_list, one_reading};
pub use numbers::{FIRST_RECEIVER, MAX_RECEIVER};
pub use opening::open;
