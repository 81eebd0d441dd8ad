//! The slots that APYJRNCHG and RMVJRNCHG give to a member, beside the member as it stands: what each takes the place of, and which image
//! before and after it the access paths have to follow.
#![tactic(auto)]

mod changes;
mod standing;

pub use changes::image_changes;
pub use standing::{slots_after, stood};
