//! The library over a store, and the one call that answers a request. Begin with `library.rt`.
#![tactic(auto)]

mod answering;
mod cached;
mod dispatch;
mod kinds;
mod laws;
pub mod library;
mod reading;
mod told;

pub use kept_library;
pub use library_model::calls::Call;
pub use library_model::replies::Reply;
pub use library_model::requests::Request;
pub use library_model::sources::Sources;
