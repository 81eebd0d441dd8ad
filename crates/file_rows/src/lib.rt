//! The worked rows of files: what the definitions of `file_model` give is computed by the check, and compared with
//! what the manuals' rules give by hand. Nothing depends on this crate.
#![tactic(auto, unfolding(field_values::specs::FieldBytes::held, field_values::specs::FieldBytes::written, field_values::specs::FieldBytes::as_held, field_values::specs::FieldBytes::fault_of, decimal_order::specs::DecimalOrder::compare_numbers))]

mod formats;
mod joins;
mod keys;
mod positions;
mod selection;
mod shared;
mod views;
