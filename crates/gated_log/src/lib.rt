//! A list of blocks in one area of a store, whole after any stop: each block stands behind a gate that is opened,
//! in a write of its own, once the block is on the disk.
#![tactic(auto)]

mod fault;
mod layout;
mod log;
mod opening;
mod reading;

pub use fault::{LogFault, StoreFault};
pub use layout::{FRAME, MAX_BLOCK, put_frame};
pub use log::{Log, create, format};
pub use opening::open;
pub use reading::one_reading;
