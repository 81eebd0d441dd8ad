//! The one error of the outside. Each object counts its own faults; the traits say when the count rises.

/// The object's own failure: its count of faults rose in the call. A count is a u64 that stands still at its end.
#[derive(Clone, Copy, Debug)]
pub struct Failed;
