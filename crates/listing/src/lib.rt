//! The listing of a run: a line for each call with its reply. Its texts stand in `specs/`.
#![tactic(auto)]

pub mod entries;
pub mod history_listing;
mod parameters;
pub mod replies;
pub mod requests;
pub mod texts;
