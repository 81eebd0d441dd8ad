//! A store made that of an empty library, and the journal that a store holds, opened: its roots, the entries of its receivers,
//! and what they leave. Begin with `opening.rt`.
#![tactic(auto)]

mod deposited;
mod fault;
mod formatting;
mod layout;
mod limits;
mod opening;
mod replaying;
mod written;

pub use fault::{FormatFault, OpenFault};
pub use formatting::format_library;
pub use opening::{OpenedJournal, open_journal};
pub use replaying::take_all;
