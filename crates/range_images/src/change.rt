//! A slot change as its entries have it, borrowed from them. How it is read stands in `reading.rt`.
ghost use Rattle.std.specs.Prelude.{◌≤◌};

/// The slot on one side of a change.
#[derive(Clone, Copy)]
pub(crate) enum Side<'a> {
    Live(&'a [u8]),
    Deleted,
}

/// The slot before a change, where the journal tells it, and the slot after it.
#[derive(Clone, Copy)]
pub(crate) struct Sides<'a> {
    pub(crate) before: Option<Side<'a>>,
    pub(crate) after: Side<'a>,
}

/// A slot change and the sequence of its entry.
#[derive(Clone, Copy)]
pub(crate) struct SlotChange<'a> {
    pub(crate) sequence: u64,
    pub(crate) rrn: u32,
    pub(crate) group: Option<u64>,
    pub(crate) sides: Sides<'a>,
    ghost counted: { 1 ≤ rrn },
}
