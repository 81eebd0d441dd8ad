//! The bytes of fields: names, texts, numbers, and the types of the data description.
#![tactic(auto)]

pub mod byte_lists;
pub mod faults;
pub mod kinds;
pub mod lists;
pub mod names;
pub mod texts;
pub mod values;
