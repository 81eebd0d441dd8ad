//! What is asked of an open.

/// By what a read finds its record.
#[derive(Clone, Copy)]
pub enum ReadBy<'a> {
    /// The first after the position.
    Next,
    /// The last before it.
    Prior,
    /// The first after the position, where its key begins with these bytes.
    NextEqual(&'a [u8]),
    /// The last before it, where its key begins with these bytes.
    PriorEqual(&'a [u8]),
    /// The first whose key begins with these bytes.
    FirstEqual(&'a [u8]),
    /// The record of this relative record number.
    Number(u32),
}
