//! Why a request does nothing.
ghost use Rattle.std.specs.Prelude.{◌≡◌};
ghost use Rattle.parts_model.specs.declared.stop.Stop.TheVariants.{NoMemory};

use library_model::replies::Reply;
use std::alloc::{AllocError, AllocFailed};

/// Why a request does nothing.
#[derive(Drop)]
pub enum Stop {
    NoMemory,
    /// The first refusal that holds.
    Refused(Reply),
}

impl From<AllocError> for Stop {
    ghost from_gives = { λ _ stop. stop ≡ NoMemory };

    fn from(_error: AllocError) -> Stop {
        Stop::NoMemory
    }
}

impl<T: Drop> From<AllocFailed<T>> for Stop {
    ghost from_gives = { λ _ stop. stop ≡ NoMemory };

    fn from(_error: AllocFailed<T>) -> Stop {
        Stop::NoMemory
    }
}
