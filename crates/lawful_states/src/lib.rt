//! What holds of a library's state between calls, and what each change of it keeps: definitions and lemmas alone. Nothing runs here. Begin with
//! `specs/Lawful.antt`.
#![tactic(auto)]

pub mod changes;

pub use library_steps;
