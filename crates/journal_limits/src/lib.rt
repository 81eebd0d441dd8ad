//! How the members of a journal that is read entry by entry stay within their limits: one test of the member that an entry names.
//! Nothing runs here. Begin with `specs/Lengths.antt`.
#![tactic(auto)]

pub mod laws;
