//! Reading the rows of a join logical file by position; no row is kept. Begin with `specs/NextRow.antt`, then
//! `specs/Wanted.antt`, `specs/Places.antt` and `specs/Rows.antt`.
#![tactic(auto)]

pub mod laws;
pub mod levels;
pub mod matches;
pub mod positions;
pub mod rows;
pub mod trials;
pub mod wanted;
