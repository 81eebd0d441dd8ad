//! The language of job scripts, as it is after reading: its statements, and what a job asks next.
//! Begin with `statements.rt` and `specs/Asks.antt`.
#![tactic(auto)]

pub mod forms;
pub mod operands;
pub mod progress;
pub mod refusals;
mod requests;
pub mod statements;
pub mod steps;
mod values;
mod variables;
