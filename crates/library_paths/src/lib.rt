//! Which access paths the files of a library have, and that the kept ones are theirs. Begin with `specs/AllPaths.antt`.
#![tactic(auto)]

pub mod laws;
