//! Which calls are on the disk before they are answered: told from the request and from what it deposited, since no request hands back whether its change
//! asks for it.
#![tactic(auto)]

mod forced;
mod laws;

pub use forced::is_forced;
pub use laws::asked_is_forced;
