//! What a journal's entries leave, read one after another. Begin with `acts.rt`.
#![tactic(auto)]

mod acts;
pub mod laws;
mod pairs;
mod slots;

pub use acts::{MemberAct, SlotChange, read_act};
pub use pairs::ends_pair;
pub use slots::{is_same_cycle, is_same_slot};
