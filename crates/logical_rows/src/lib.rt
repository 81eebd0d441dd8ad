//! Rows of logical files: what sources describe over physical files, or their first fault, by the definitions of
//! `dds_logical`. A check computes each; nothing runs here.
#![tactic(auto, unfolding(dds_source::specs::Lines::positions, dds_source::specs::Lines::line_of, dds_source::specs::Lines::last_line, dds_source::specs::Lines::counted_lines, dds_source::specs::Continuation::line_text, dds_source::specs::Continuation::joined_text, dds_source::specs::KeywordTexts::keywords_in, dds_source::specs::ArgumentTexts::arguments_in, dds_source::specs::ArgumentTexts::argument_of, dds_source::specs::Entries::columns_of, dds_source::specs::Reading::keyword_of, dds_source::specs::Reading::keywords_of, dds_source::specs::Reading::specification_of, dds_source::specs::Reading::extended, dds_source::specs::Reading::source_in, ebc_text::specs::CodePage::ebcdic_of, field_values::specs::FieldBytes::fault_of, dds_logical::specs::Logical::logical_specification, dds_logical::specs::Logical::logical_faults, dds_logical::specs::Logical::logical_of))]

pub mod fault_rows;
pub mod join_rows;
pub mod keyword_fault_rows;
pub mod record_rows;
pub mod rows;
