//! The journal of a library on a disk: a book that takes the entries of whole calls without memory, and is forced where a call
//! ends. Begin with `journal.rt`.
#![tactic(auto)]

mod calls;
mod journal;
mod reading;
mod spelled;
mod waiting;

pub use journal::{KeptJournal, MUCH};
