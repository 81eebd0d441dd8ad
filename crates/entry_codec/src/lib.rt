//! The entries of a journal: what each kind says, and its one spelling in bytes.
//! `kinds.rt` has the kinds, `entries.rt` what stands in front of each.
#![tactic(auto)]

mod entries;
mod fields;
mod fronts;
mod kinds;
mod list;
mod parts;
mod places;
mod reading;
mod unread;
mod writing;

pub use entries::{Draft, Entry};
pub use kinds::{EntryKind, FileKind, Images, MAX_RECORD_LENGTH, MIN_RECORD_LENGTH};
pub use reading::{one_spelling, read_entry};
pub use writing::{entry_length, write_entry};
