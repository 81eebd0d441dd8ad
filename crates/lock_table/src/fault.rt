//! Why a call of the lock table is refused.

use std::alloc::AllocError;

/// Why no room for locks was made.
#[derive(Clone, Copy, PartialEq)]
pub enum LockFault {
    /// More locks than [`MOST_LOCKS`](crate::MOST_LOCKS): release some first.
    Full,
    /// Memory has run out.
    NoMemory,
}

/// Another job holds a lock that clashes: ask again once it is released.
#[derive(Clone, Copy, PartialEq)]
pub struct InUse {
    /// The least such job.
    pub job: u32,
}

impl From<AllocError> for LockFault {
    ghost use Rattle.std.specs.Prelude.{◌≡◌};
    ghost use Rattle.lock_table.specs.declared.fault.LockFault.TheVariants.{NoMemory};

    ghost from_gives = { λ _ fault. fault ≡ NoMemory };

    fn from(_: AllocError) -> LockFault {
        LockFault::NoMemory
    }
}
