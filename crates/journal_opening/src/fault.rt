//! Why a store was not formatted, or its journal not opened.
ghost use Rattle.std.specs.Prelude.{◌≡◌};
ghost use Rattle.journal_opening.specs.declared.fault.FormatFault.TheVariants.{StoreFault as FormatStoreFault};
ghost use Rattle.journal_opening.specs.declared.fault.OpenFault.TheVariants.{StoreFault as OpenStoreFault};

use gated_log::StoreFault;
use store_model::Failed;

/// Why a store was not made that of an empty library.
#[derive(Clone, Copy, Debug)]
pub enum FormatFault {
    /// Area 0 has bytes: there is a library, or something else.
    Exists,
    /// The store failed: its count of faults rose.
    StoreFault,
    /// There was no memory. Nothing was written in area 0.
    NoMemory,
}

/// Why the journal of a store was not opened.
#[derive(Clone, Copy, Debug)]
pub enum OpenFault {
    /// Area 0 is empty: no library was made here.
    NotALibrary,
    /// The store holds no journal that can be replayed. An area, and a byte in it: the first one of what is at fault.
    Damaged { area: u32, at: u64 },
    /// The store failed: its count of faults rose.
    StoreFault,
    /// There was no memory.
    NoMemory,
}

impl From<Failed> for FormatFault {
    ghost from_gives = { λ _ e. e ≡ FormatStoreFault };

    fn from(_: Failed) -> Self {
        FormatFault::StoreFault
    }
}

impl From<StoreFault> for FormatFault {
    ghost from_gives = { λ _ e. e ≡ FormatStoreFault };

    fn from(_: StoreFault) -> Self {
        FormatFault::StoreFault
    }
}

impl From<Failed> for OpenFault {
    ghost from_gives = { λ _ e. e ≡ OpenStoreFault };

    fn from(_: Failed) -> Self {
        OpenFault::StoreFault
    }
}
