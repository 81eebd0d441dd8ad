//! What can be asked of a library, and what it replies. Begin with `requests.rt`.
#![tactic(auto)]

pub mod calls;
pub mod limits;
pub mod replies;
pub mod requests;
pub mod sources;
pub mod value_lists;
