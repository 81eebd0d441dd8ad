//! Why entries were not read.
ghost use Rattle.std.specs.Prelude.{◌≡◌};
ghost use Rattle.journal_book.specs.declared.fault.BookFault.TheVariants.{NoMemory};

use std::alloc::{AllocError, AllocFailed};

/// Why entries were not read.
#[derive(Clone, Copy, Debug)]
pub enum BookFault {
    /// The sequences are no range of the journal's.
    NoSuchEntry,
    /// The first one was given up with its receiver. The first sequence that is kept.
    ReceiverGone { sequence: u64 },
    /// The store failed: its count of faults rose.
    StoreFault,
    /// A block isn't read back as its entries. Its first sequence, its area, and its first byte there.
    BlockChanged { sequence: u64, area: u32, at: u64 },
    /// There was no memory.
    NoMemory,
}

impl From<AllocError> for BookFault {
    ghost from_gives = { λ _ e. e ≡ NoMemory };

    fn from(_: AllocError) -> Self {
        BookFault::NoMemory
    }
}

impl<T: Drop> From<AllocFailed<T>> for BookFault {
    ghost from_gives = { λ _ e. e ≡ NoMemory };

    fn from(_: AllocFailed<T>) -> Self {
        BookFault::NoMemory
    }
}
