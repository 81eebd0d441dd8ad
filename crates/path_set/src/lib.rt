//! The access paths that a library keeps, each once for all files whose specifications are equal. Begin with
//! `specs/KeptPaths.antt`, then `set.rt`.
#![tactic(auto)]

mod by_member;
pub mod faults;
mod kept;
pub mod key_laws;
pub mod laws;
mod many;
pub mod many_laws;
pub mod member_laws;
pub mod moves;
pub mod over;
pub mod rebuilding;
pub mod repeated;
pub mod set;

pub use path_entrants;
