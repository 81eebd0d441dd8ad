//! The requests about the journal itself: DSPJRN, CHGJRN and DLTJRNRCV, over the memory of a library.
#![tactic(auto)]

mod display;
mod receivers;
mod spelled;

pub use display::{display_journal, display_wanted};
pub use receivers::{apply_attach, attach_drafts, delete_receiver, plan_attach, prepare_attach};
