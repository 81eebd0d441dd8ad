//! A sorted list of access path entries that never needs memory to change. Read `list.rt` first.
#![tactic(auto)]

mod counting;
mod directory;
mod entries;
mod halves;
mod keys;
mod laws;
mod list;
mod page;
mod positions;
mod search;

pub use counting::Steps;
pub use entries::{Entry, EntryRef, are_in_order};
pub use keys::{Key, OfKey};
pub use laws::{insertion, one_order, removal, walk_backward, walk_forward};
pub use list::Pages;
pub use page::{FILLED_PAGE_ENTRIES, LEAST_PAGE_ENTRIES, MOST_PAGE_ENTRIES};
pub use positions::Position;
