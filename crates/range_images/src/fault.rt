//! Why the changes of a range aren't made.
ghost use Rattle.std.specs.Prelude.{◌≡◌};
ghost use Rattle.range_images.specs.declared.fault.ImagesFault.TheVariants.{NoMemory};

use std::alloc::AllocError;

/// Why the changes of a range aren't made, with the sequence of the entry that shows it.
#[derive(Clone, Copy, Debug, PartialEq, Drop)]
pub enum RangeFault {
    /// Journaling of the member began or ended within the range.
    Gap { sequence: u64 },
    /// The member was cleared or reorganized within the range.
    NotRemovable { sequence: u64 },
    /// The slot before the change isn't in the journal.
    NeedsBoth { sequence: u64 },
    /// The record of this relative number isn't as the entry has it.
    DoesNotFit { sequence: u64, rrn: u32 },
}

/// Why there are no changes to be made.
#[derive(Clone, Copy, Debug, PartialEq, Drop)]
pub enum ImagesFault {
    /// Out of memory: try again with more.
    NoMemory,
    Refused(RangeFault),
}

impl From<AllocError> for ImagesFault {
    ghost from_gives = { λ _ e. e ≡ NoMemory };

    fn from(_e: AllocError) -> ImagesFault {
        ImagesFault::NoMemory
    }
}
