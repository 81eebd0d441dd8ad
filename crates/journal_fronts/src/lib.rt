//! What a stop leaves of the calls of a run, and what it leaves once one of them was answered. The definitions are in `specs/`; nothing runs.
//! Begin with `specs/Fronts.antt`.
#![tactic(auto)]

pub use deposited_entries;
