//! What CRTPF, CRTLF, DLTF, ADDPFM, CLRPFM, RGZPFM, STRJRNPF, ENDJRNPF, OPNDBF and CLOF do to a library in memory.
//! Begin with `delete.rt`: it has the form of all.
#![tactic(auto)]

pub mod create;
pub mod delete;
pub mod journaling;
pub mod member_commands;
pub mod opens;
mod records;
pub mod views;

pub use create::create_physical_file;
pub use delete::delete_file;
pub use journaling::{end_journaling, start_journaling};
pub use member_commands::{add_member, clear_member, reorganize_member};
pub use opens::{close_file, open_file};
pub use views::create_logical_file;
