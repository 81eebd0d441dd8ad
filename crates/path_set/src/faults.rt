//! Why a path is not kept.
ghost use Rattle.std.specs.Prelude.{◌≡◌};

use std::alloc::AllocError;

#[derive(Clone, Copy, PartialEq)]
pub enum PathFault {
    /// The path may have no equal keys, and a later record has the key of the record of this number, the least such one.
    Equal { rrn: u32 },
    NoMemory,
}

impl From<AllocError> for PathFault {
    ghost use Rattle.path_set.specs.declared.faults.PathFault.TheVariants.{NoMemory};

    ghost from_gives = { λ _ e. e ≡ NoMemory };

    fn from(_e: AllocError) -> PathFault {
        PathFault::NoMemory
    }
}
