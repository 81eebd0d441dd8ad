//! Help beside the fixed texts of the statuses: what the faulty line of an input looks like, and what is known to be wrong
//! with it. Begin with `script.rt`; every text of help is a `HelpText`.
#![tactic(auto)]

mod cards;
mod characters;
mod columns;
mod command_line;
mod commands;
mod dds_faults;
mod ended_jobs;
mod help_text;
mod hint;
mod job_lines;
mod lines;
mod names;
mod parameters;
mod script;
mod statements;
mod stores;
mod unjournaled;
mod visible;
mod words;

pub use command_line::{terminal_help, words_help};
pub use ended_jobs::jobs_help;
pub use help_text::HelpText;
pub use script::{line_help, script_help};
pub use stores::{FolderTrouble, folder_help};
pub use unjournaled::unjournaled_help;
pub use visible::MOST_SHOWN;
