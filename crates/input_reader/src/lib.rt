//! An input: the scripts that its bytes spell, or the least line at fault. Begin with `specs/Input.antt`; `input.rt` has the call.
#![tactic(auto)]

pub mod input;
mod jobs;
pub mod laws;
mod schedules;
mod sources;
