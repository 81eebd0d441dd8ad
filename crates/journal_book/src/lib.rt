//! The journal as a list of entries over the chain of its receivers: which entries the areas of a store spell, how they
//! are read, deposited and forced, and what a stop may leave of them.
#![tactic(auto)]

mod blocks;
mod book;
mod bounds;
mod dropping;
mod fault;
mod grammar;
mod laws;
mod opening;
mod placing;
mod ranges;
mod starts;
mod switching;

pub use book::Book;
pub use bounds::BlockBounds;
pub use fault::BookFault;
pub use laws::one_reading;
pub use opening::open;
