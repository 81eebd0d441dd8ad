//! A listing read back. Begin with `listings.rt`.
#![tactic(auto)]

mod entries;
mod entry_bodies;
mod entry_fields;
pub mod laws;
mod lines;
pub mod listings;
mod refusals;
mod replies;
mod requests;
mod spelled_entries;
