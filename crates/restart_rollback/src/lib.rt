//! How a restart rolls back the commit cycles that a journal leaves open. Begin with `rollback.rt`.
#![tactic(auto)]

mod fault;
mod rollback;

pub use fault::RestartFault;
pub use journal_opening;
pub use rollback::roll_back;
