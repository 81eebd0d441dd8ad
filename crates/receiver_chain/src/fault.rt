//! Why the next receiver was not attached.
ghost use Rattle.std.specs.Prelude.{◌≡◌};
ghost use Rattle.receiver_chain.specs.declared.fault.ChainFault.TheVariants.{StoreFault as Fault, NoMemory};

use gated_log::StoreFault;
use std::alloc::{AllocError, AllocFailed};

/// Why the next receiver was not attached.
#[derive(Clone, Copy, Debug)]
pub enum ChainFault {
    /// The store failed: its count of faults rose. Open the chain again before it is used.
    StoreFault,
    /// There was no memory. The chain is as it was.
    NoMemory,
}

impl From<StoreFault> for ChainFault {
    ghost from_gives = { λ _ e. e ≡ Fault };

    fn from(_: StoreFault) -> Self {
        ChainFault::StoreFault
    }
}

impl From<AllocError> for ChainFault {
    ghost from_gives = { λ _ e. e ≡ NoMemory };

    fn from(_: AllocError) -> Self {
        ChainFault::NoMemory
    }
}

impl<T: Drop> From<AllocFailed<T>> for ChainFault {
    ghost from_gives = { λ _ e. e ≡ NoMemory };

    fn from(_: AllocFailed<T>) -> Self {
        ChainFault::NoMemory
    }
}
