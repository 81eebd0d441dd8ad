//! One place of a member. What a member makes of its places stands in `member.rt`.
ghost use Rattle.std.specs.Prelude.{◌≡◌, IfOk};

use field_types::texts::Image;
use std::alloc::{AllocError, Global};

/// A place of a member (Database Programming, "Relative record number").
#[derive(Drop)]
pub enum Slot {
    /// A record stands there.
    Live(Image),
    /// Its record was deleted; the place keeps its number until the member is reorganized.
    Deleted,
}

impl Slot {
    /// A copy in memory of its own.
    pub fn copied(&self, alloc: Global) -> Result<Slot, AllocError>
        ensures { IfOk result (λ slot. slot ≡ self.now) }
    {
        match self {
            Slot::Live(image) => Ok(Slot::Live(image.copied(alloc)?)),
            Slot::Deleted => Ok(Slot::Deleted),
        }
    }
}
