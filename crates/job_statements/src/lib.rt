//! The statements of a job, read from its lines. Begin with `specs/Texts.antt` and `specs/Reading.antt`.
#![tactic(auto)]

mod askable;
pub mod reading;
pub mod rows;
mod statements;
mod texts;
