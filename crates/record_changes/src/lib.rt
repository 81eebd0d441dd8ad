//! WRITE, UPDATE, DELETE and UNLOCK over the memory of a library. Begin with `write.rt`; what a changed slot brings about
//! stands in `change_slot.rt`.
#![tactic(auto)]

mod change_slot;
mod cycles;
mod delete;
mod entries;
mod images;
mod locks;
mod planned;
mod prepare;
mod refusals;
mod unlock_record;
mod update;
mod write;

pub use delete::delete_record;
pub use unlock_record::unlock;
pub use update::update_record;
pub use write::write_record;
