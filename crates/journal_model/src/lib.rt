//! What a list of journal entries means: slot changes and the ranges of them that are removed and applied, replay,
//! the settled records, restart. Nothing runs here. The definitions are in `specs/`, their laws in these modules.
#![tactic(auto)]

mod limits;
mod members;
mod ranges;
mod replays;
mod restarts;

pub use entry_codec;
pub use limits::LAST_MEMBER;
