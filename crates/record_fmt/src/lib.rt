//! Record formats: their fields in order, and the bytes of a record.
#![tactic(auto)]

pub mod formats;
pub mod packing;
pub mod records;

pub use field_types::faults::RecordFault;
pub use field_values;
