//! A run: the jobs' calls one after another, each what its script asks, with the library's reply.
#![tactic(auto)]

mod session;

pub use session::{Ran, Session, Stepped};
