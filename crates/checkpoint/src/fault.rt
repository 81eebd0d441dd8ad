//! Why a root or a state was not written.
ghost use Rattle.std.specs.Prelude.{◌≡◌};
ghost use Rattle.checkpoint.specs.declared.fault.SaveFault.TheVariants.{StoreFault as Fault, NoMemory};

use gated_log::StoreFault;
use std::alloc::{AllocError, AllocFailed};

/// Why a root or a state was not written.
#[derive(Clone, Copy, Debug)]
pub enum SaveFault {
    /// The store failed: its count of faults rose. Open the roots again before they are used.
    StoreFault,
    /// There was no memory. Nothing was written.
    NoMemory,
}

impl From<StoreFault> for SaveFault {
    ghost from_gives = { λ _ e. e ≡ Fault };

    fn from(_: StoreFault) -> Self {
        SaveFault::StoreFault
    }
}

impl From<AllocError> for SaveFault {
    ghost from_gives = { λ _ e. e ≡ NoMemory };

    fn from(_: AllocError) -> Self {
        SaveFault::NoMemory
    }
}

impl<T: Drop> From<AllocFailed<T>> for SaveFault {
    ghost from_gives = { λ _ e. e ≡ NoMemory };

    fn from(_: AllocFailed<T>) -> Self {
        SaveFault::NoMemory
    }
}
