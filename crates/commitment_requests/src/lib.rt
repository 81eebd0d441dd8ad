//! The requests of commitment control, and the end of a job, over the memory of a library: STRCMTCTL and ENDCMTCTL in
//! `control.rt`, COMMIT, ROLLBACK and ENDJOB in `boundaries.rt`.
#![tactic(auto)]

pub mod boundaries;
pub mod control;

pub use boundaries::{commit, end_job, rollback};
pub use control::{end_commitment, start_commitment};
pub use library_parts;
