//! Why a journal was not brought to its end.
ghost use Rattle.std.specs.Prelude.{◌≡◌};
ghost use Rattle.restart_rollback.specs.declared.fault.RestartFault.TheVariants.{NoMemory, StoreFault as RestartStoreFault};

use gated_log::StoreFault;
use std::alloc::AllocError;

/// Why a journal was not brought to its end.
#[derive(Clone, Copy, Debug)]
pub enum RestartFault {
    /// The store failed: its count of faults rose.
    StoreFault,
    /// There was no memory.
    NoMemory,
}

impl From<AllocError> for RestartFault {
    ghost from_gives = { λ _ e. e ≡ NoMemory };

    fn from(_: AllocError) -> Self {
        RestartFault::NoMemory
    }
}

impl From<StoreFault> for RestartFault {
    ghost from_gives = { λ _ e. e ≡ RestartStoreFault };

    fn from(_: StoreFault) -> Self {
        RestartFault::StoreFault
    }
}
