//! The words of a listing, read back: names, numbers, values, and what a word stands for. Begin with `words.rt`.
#![tactic(auto)]

pub mod answers;
pub mod choices;
pub mod commands;
pub mod entry_types;
pub mod numbers;
pub mod parameters;
pub mod values;
pub mod words;
