//! The slots that a range gives to a member.
ghost use Rattle.std.specs.Prelude.{◌≡◌};

use crate::slot_given::SlotGiven;
use std::marker::Model;

/// What places of the member become, in the order of the walk. Contracts see the list.
#[derive(Drop)]
pub struct Changes {
    given: Vec<SlotGiven>,
}

impl Model for Changes {
    ghost use Rattle.std.specs.Prelude.{List};
    ghost use Rattle.range_images.specs.declared.slot_given.SlotGiven.{SlotGiven};

    ghost Value = { List SlotGiven };

    ghost view = { λ c. c.given.items };
}

impl Changes {
    pub(crate) fn new(given: Vec<SlotGiven>) -> Changes
        ensures { result ≡ given.items }
    {
        Changes { given }
    }

    /// The slots in their order.
    pub fn as_slice(&self) -> &[SlotGiven]
        ensures { result.now ≡ self.now }
    {
        self.given.as_slice()
    }

    /// The slots, to be put where they belong.
    pub fn into_vec(self) -> Vec<SlotGiven>
        ensures { result.items ≡ self }
    {
        self.given
    }
}
