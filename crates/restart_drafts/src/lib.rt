//! The drafts of the entries by which a restart rolls back the commit cycles that a journal leaves open. Begin with `drafts.rt`.
#![tactic(auto)]

mod drafts;
mod undos;

pub use drafts::{By, restart_drafts};
