//! What of a library's journal is in memory: the entries that aren't on the disk yet, the receivers, and the last checkpoint. Begin with `journal.rt`.
#![tactic(auto)]

mod ends;
pub mod journal;

pub use journal::MemoryJournal;
