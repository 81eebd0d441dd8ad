//! Keys that open commit cycles keep, and how new keys are asked about.

/// A record whose key an open commit cycle of the job keeps to itself.
#[derive(Clone, Copy)]
pub struct Reservation {
    pub job: u32,
    pub rrn: u32,
}

/// Whether the keys that come into unique paths are kept by open commit cycles, or those of other records.
#[derive(Clone, Copy, PartialEq)]
pub enum Test {
    Reserved,
    Repeated,
}
