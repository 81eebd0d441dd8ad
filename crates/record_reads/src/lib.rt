//! The requests that set positions and read records: SETLL, SETGT, READ, READP, READE, READPE and CHAIN, through opens of
//! physical files and of logical ones, joins among them, by their keys and in arrival order. Begin with `reads.rt`.
#![tactic(auto)]

mod asked;
mod plans;
mod positions;
mod reads;
mod shown;

pub use positions::{set_greater_than, set_lower_limit};
pub use reads::{chain, read, read_equal, read_prior, read_prior_equal};
