//! The worked rows of journals: what the definitions of `journal_model` give is computed by the check, and compared
//! with what the manuals' rules give by hand. Nothing depends on this crate.
#![tactic(auto)]

mod ranges;
mod replays;
