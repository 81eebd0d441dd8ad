//! The blocks of a journal's book that were read last, decoded: a range of sequences whose blocks all stand here is read
//! without the store. Begin with `cache.rt`.
#![tactic(auto)]

mod block;
mod cache;
mod copies;
mod laws;
mod limits;
mod lookup;
mod reading;
mod sizes;

pub use cache::BlockCache;
pub use laws::{sizes_are_lengths, stretches_stay};
pub use limits::{MOST_BLOCKS, MOST_BYTES};
