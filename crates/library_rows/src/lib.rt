//! The worked rows of a library's calls: what the definitions of `library_steps` give is computed by the check, and compared with what the
//! manuals' rules give by hand. Nothing depends on this crate.
#![tactic(auto, unfolding(library_steps::specs::Step::change, library_steps::specs::Journaling::start_plan, library_steps::specs::Journaling::end_plan, library_steps::specs::Opens::open_plan, library_steps::specs::WriteRecord::write_plan, library_steps::specs::ChangeRecord::update_plan, library_steps::specs::ChangeRecord::delete_plan, library_steps::specs::ChangeRecord::unlock_plan, library_steps::specs::Reads::read_plan, library_steps::specs::Reads::read_equal_plan, library_steps::specs::Reads::chain_plan, library_steps::specs::Reads::position_plan, library_steps::specs::Ranges::apply_plan, library_steps::specs::Ranges::remove_plan, library_steps::specs::Commitment::start_plan, library_steps::specs::Commitment::end_plan, library_steps::specs::Receivers::attach_plan, library_steps::specs::Receivers::give_up_plan, library_steps::specs::JournalReads::display_plan, library_steps::specs::MemberCommands::add_plan, library_steps::specs::MemberCommands::empty_plan, library_steps::specs::Checkpoint::save_plan, library_steps::specs::DeleteFile::delete_plan, record_fmt::specs::Records::record_given, record_fmt::specs::Records::record_held, field_values::specs::FieldBytes::held, field_values::specs::FieldBytes::written, field_values::specs::FieldBytes::as_held, field_values::specs::FieldBytes::fault_of, library_steps::specs::CreatePhysicalFile::create_plan, library_steps::specs::CreateLogicalFile::create_logical_plan, library_steps::specs::WriteRecord::place_plan, decimal_order::specs::DecimalOrder::compare_numbers, dds_source::specs::Continuation::line_text, dds_source::specs::Continuation::joined_text, dds_source::specs::Reading::keyword_faults, dds_source::specs::Reading::keyword_of, dds_source::specs::Reading::keywords_of, dds_source::specs::Reading::joined_faults, dds_source::specs::Reading::specification_of, dds_source::specs::Reading::extended, dds_source::specs::Reading::source_in, dds_source::specs::Reading::faults_in, dds_source::specs::Reading::source_of, dds_source::specs::Entries::line_faults, dds_source::specs::Entries::columns_of, dds_source::specs::Lines::positions, dds_source::specs::Lines::line_of, dds_source::specs::Lines::last_line, dds_source::specs::Lines::counted_lines, dds_source::specs::ArgumentTexts::arguments_in, dds_source::specs::ArgumentTexts::argument_of, dds_source::specs::KeywordTexts::keywords_in))]

mod change_refusals;
mod commitment;
mod commitment_refusals;
mod file_refusals;
mod journal_refusals;
mod keys;
mod limit_refusals;
mod locks;
mod logical;
mod members;
mod ranges;
mod read_refusals;
mod receivers;
