//! What a command line asks for: a library made, jobs run over it with their listing, and what it has shown. Begin with `batch.rt`.
#![tactic(auto)]

pub mod batch;
mod formatting;
pub mod limits;
mod opening;
mod reading;
mod running;
mod showing;
pub mod status;
pub mod words;
