//! What a read finds.

/// A record that a read found, and the format by which it is shown.
#[derive(Clone, Copy)]
pub struct Found {
    pub format: u16,
    pub rrn: u32,
}
