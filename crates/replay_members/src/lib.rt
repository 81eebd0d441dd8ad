//! The members that a journal leaves, each with its slots, found by their numbers. Begin with `members.rt`.
#![tactic(auto)]

mod member;
mod members;
mod slots;

pub use member::Member;
pub use members::Members;
pub use slots::{fits, has_place, is_slot_at};
