//! A slot change that an open commit cycle made. Those of all open commit cycles are in `kept.rt`.
ghost use Rattle.std.specs.Prelude.{◌≡◌};
ghost use Rattle.journal_model.specs.Replay.{is_in};

use member_slots::slot::Slot;
use std::marker::Model;

/// A slot change that an open commit cycle made in a member. Its place counts from 0.
#[derive(Drop)]
pub struct OpenChange {
    pub member: u32,
    pub place: u32,
    pub cycle: u64,
    pub before: Option<Slot>,
    pub after: Slot,
}

impl Model for OpenChange {
    ghost use Rattle.journal_model.specs.Rollback.{MemberChange};
    ghost use Rattle.journal_replay.specs.Open.{open_change};

    ghost Value = { MemberChange };

    ghost view = { λ c. open_change c.member c.place c.cycle c.before c.after };
}

impl OpenChange {
    /// Whether the commit cycle made it.
    pub fn is_of(&self, cycle: u64) -> bool
        ensures { result ≡ is_in cycle self.now.change }
    {
        self.cycle == cycle
    }
}
