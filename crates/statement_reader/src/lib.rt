//! One statement of a job's script, read from its text. Begin with `reading.rt` and `specs/Statements.antt`.
#![tactic(auto)]

mod arguments;
mod commands;
mod control;
mod literals;
mod numbers;
mod operands;
mod parameters;
mod phrases;
mod positions;
pub mod reading;
mod refusal_names;
pub mod variables;
pub mod words;
