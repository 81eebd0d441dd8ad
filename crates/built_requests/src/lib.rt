//! Which requests the library answers so far: one predicate, which keeps the others out of a run. It goes with the last of them.
#![tactic(auto)]
