//! What a logical file is by its data description: from a source to the file, or to the source's first fault. The meaning
//! stands in `specs/`, the whole in `specs/Logical.antt`.
#![tactic(auto)]

mod arguments;
mod attributes;
pub mod bases;
mod fields;
mod first;
mod format_faults;
mod format_lines;
mod format_views;
mod given_names;
mod join_faults;
mod join_field_faults;
mod join_fields;
mod join_lines;
mod join_links;
mod join_pairs;
pub mod join_views;
mod joined_files;
mod joins_described;
mod key_mismatches;
mod keys;
mod keyword_names;
pub mod keyword_places;
mod keyword_rules;
mod layout;
pub mod limits;
mod line_order;
mod literals;
pub mod logical_files;
mod named_fields;
mod names;
mod origins;
mod parts;
mod rules_said;
mod selections;
mod source_faults;
mod tested_fields;
mod tests_said;
mod texts;
pub mod views;
mod whole_file;

pub use bases::Bases;
pub use dds_physical;
pub use file_model;
pub use join_views::{JoinView, JoinedField, JoinedFile};
pub use logical_files::{LogicalFault, logical};
pub use record_fmt;
pub use views::{LogicalSpec, View, Views};
