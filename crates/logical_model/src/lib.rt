//! What physical and logical files show of records and store in them, by their data descriptions. The definitions are in
//! `specs/`; nothing runs. Begin with `specs/Bases.antt`.
#![tactic(auto)]

pub use dds_logical;
pub use member_slots;
