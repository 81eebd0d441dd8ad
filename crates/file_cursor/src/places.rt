//! What is read, where a position is set, and what a read finds.
use access_path::path::Path;
use member_slots::member::Member;

/// The order in which an open reads.
#[derive(Clone, Copy)]
pub enum Order<'a> {
    /// By relative record number.
    Arrival(&'a Member),
    /// By key.
    Path(&'a Path),
}

/// A place to which a position is set.
#[derive(Clone, Copy)]
pub enum Place<'a> {
    /// Before all entries (*LOVAL).
    Low,
    /// Past all entries (*HIVAL).
    High,
    /// By the bytes of the first positions of a key.
    Key(&'a [u8]),
    /// By a relative record number.
    Rrn(u32),
}

/// The record that a read found. Its key is empty in arrival order.
#[derive(Clone, Copy)]
pub struct Hit<'a> {
    pub format: u16,
    pub rrn: u32,
    pub key: &'a [u8],
}
