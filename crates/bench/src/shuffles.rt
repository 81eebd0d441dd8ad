//! How many records a run has, and the orders in which their keys come.
ghost use Rattle.std.specs.Prelude.{◌≤◌};
ghost use Rattle.member_slots.specs.declared.member.TheConstants.{MOST_SLOTS};

use member_slots::member::MOST_SLOTS;
use std::alloc::{AllocError, Global};

/// How many records a run has: one to as many as a member holds.
#[derive(Clone, Copy)]
pub(crate) struct RecordCount {
    number: u32,
    ghost within: { number ≤ MOST_SLOTS },
}

impl RecordCount {
    /// That many; `None` where a member can't hold them, or where there are none.
    pub(crate) fn new(number: u32) -> Option<RecordCount> {
        if number > 0 && u64::from(number) <= MOST_SLOTS {
            Some(RecordCount { number })
        } else {
            None
        }
    }

    /// Twice as many; `None` where a member can't hold them.
    pub(crate) fn twice(self) -> Option<RecordCount> {
        RecordCount::new(self.number * 2)
    }

    /// How many whole hundreds they are, or one.
    pub(crate) fn hundreds(self) -> RecordCount {
        RecordCount::new((self.number / 100).max(1)).unwrap_or(self)
    }

    /// The number.
    pub(crate) fn number(self) -> u32
        ensures { result ≤ MOST_SLOTS }
    {
        self.number
    }
}

/// An order of keys by a linear congruence: each number is the one before it times `multiplier` plus `increment`, modulo a power
/// of two. With a multiplier that is one more than a multiple of four and an odd increment each number below that power
/// comes once.
#[derive(Clone, Copy)]
pub(crate) struct Shuffle {
    multiplier: u32,
    increment: u32,
}

/// The order in which records are written.
pub(crate) const WRITTEN: Shuffle = Shuffle {
    multiplier: 1_664_525,
    increment: 1_013_904_223,
};

/// The order in which they are looked for, which is another one.
pub(crate) const SOUGHT: Shuffle = Shuffle {
    multiplier: 22_695_477,
    increment: 1,
};

impl Shuffle {
    /// The keys from 0 on, as many as there are records, in this order.
    pub(crate) fn keys(self, alloc: Global, records: RecordCount) -> Result<Vec<u32>, AllocError> {
        let steps = records.number().next_power_of_two();
        let mut keys = Vec::with_capacity(alloc, records.number() as usize)?;
        let mut number: u32 = 0;
        for _ in 0..steps {
            number = number
                .wrapping_mul(self.multiplier)
                .wrapping_add(self.increment)
                % steps;
            if number < records.number() {
                keys.push(number)?;
            }
        }
        Ok(keys)
    }
}
