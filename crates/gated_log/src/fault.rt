//! Why a call on a log fails.
ghost use Rattle.std.specs.Prelude.{◌≡◌};
ghost use Rattle.gated_log.specs.declared.fault.LogFault.TheVariants.{StoreFault as Fault, NoMemory};

use std::alloc::{AllocError, AllocFailed};
use store_model::Failed;

/// The store failed: its count of faults rose. Open the log again before it is used.
#[derive(Clone, Copy, Debug)]
pub struct StoreFault;

/// Why a log was not opened, or a block not read.
#[derive(Clone, Copy, Debug)]
pub enum LogFault {
    /// The store failed: its count of faults rose.
    StoreFault,
    /// The area is no log. The first byte of the header, gate or block at fault.
    Damaged { area: u32, at: u64 },
    /// There was no memory.
    NoMemory,
}

impl From<Failed> for StoreFault {
    fn from(_: Failed) -> Self {
        StoreFault
    }
}

impl From<Failed> for LogFault {
    ghost from_gives = { λ _ e. e ≡ Fault };

    fn from(_: Failed) -> Self {
        LogFault::StoreFault
    }
}

impl From<AllocError> for LogFault {
    ghost from_gives = { λ _ e. e ≡ NoMemory };

    fn from(_: AllocError) -> Self {
        LogFault::NoMemory
    }
}

impl<T: Drop> From<AllocFailed<T>> for LogFault {
    ghost from_gives = { λ _ e. e ≡ NoMemory };

    fn from(_: AllocFailed<T>) -> Self {
        LogFault::NoMemory
    }
}

impl From<StoreFault> for LogFault {
    ghost from_gives = { λ _ e. e ≡ Fault };

    fn from(_: StoreFault) -> Self {
        LogFault::StoreFault
    }
}
