//! The status of a member, beside its slots.
ghost use Rattle.std.specs.Prelude.{◌≡◌};
ghost use Rattle.lawful_states.specs.CreatePhysicalFile.{new_status};
ghost use Rattle.lawful_states.specs.MemberCommands.{renumbered};
ghost use Rattle.lawful_states.specs.Statuses.{after};

use entry_codec::Images;
use lawful_states::changes::StatusChange;
use std::marker::Model;

/// The status of a member: whether it is journaled, and what became of its records while it wasn't.
#[derive(Clone, Copy)]
pub struct MemberStatus {
    number: u32,
    images: Option<Images>,
    changed: bool,
    records_then: u32,
    last_break: u64,
}

impl Model for MemberStatus {
    ghost use Rattle.lawful_states.specs.State as state;

    ghost Value = { state.MemberStatus };

    ghost view = { λ s. record {
      number = s.number;
      images = s.images;
      changed = s.changed;
      records_then = s.records_then;
      last_break = s.last_break;
    } };

    ghost inverse = { λ v. record {
      number = v.number;
      images = v.images;
      changed = v.changed;
      records_then = v.records_then;
      last_break = v.last_break;
    } };
}

impl MemberStatus {
    /// That of a member that was never journaled, nor changed.
    pub fn new(number: u32) -> MemberStatus
        ensures { result ≡ new_status number }
    {
        MemberStatus {
            number,
            images: None,
            changed: false,
            records_then: 0,
            last_break: 0,
        }
    }

    /// The member's number.
    pub fn number(&self) -> u32
        ensures { result ≡ self.now.number }
    {
        self.number
    }

    /// The images that the journal keeps of its records, where it is journaled.
    pub fn images(&self) -> Option<Images>
        ensures { result ≡ self.now.images }
    {
        self.images
    }

    /// Whether it was changed since its journaling ended, or ever where it had none.
    pub fn changed(&self) -> bool
        ensures { result ≡ self.now.changed }
    {
        self.changed
    }

    /// How many records it had when its journaling ended.
    pub fn records_then(&self) -> u32
        ensures { result ≡ self.now.records_then }
    {
        self.records_then
    }

    /// The sequence at which its journaling last began or ended, or its records lost their numbers.
    pub fn last_break(&self) -> u64
        ensures { result ≡ self.now.last_break }
    {
        self.last_break
    }

    /// The status after a change.
    pub(crate) fn after(self, change: StatusChange) -> MemberStatus
        ensures { result ≡ after change self }
    {
        match change {
            StatusChange::Touched => MemberStatus {
                changed: self.changed || self.images.is_none(),
                ..self
            },
            StatusChange::Renumbered { sequence } => self.renumbered(sequence),
            StatusChange::Journaled { sequence, images } => MemberStatus {
                images: Some(images),
                changed: false,
                last_break: sequence,
                ..self
            },
            StatusChange::Unjournaled { sequence, records } => MemberStatus {
                images: None,
                changed: false,
                records_then: records,
                last_break: sequence,
                ..self
            },
        }
    }

    fn renumbered(self, sequence: u64) -> MemberStatus
        ensures { result ≡ renumbered sequence self }
    {
        if self.images.is_some() {
            MemberStatus {
                last_break: sequence,
                ..self
            }
        } else {
            MemberStatus {
                changed: true,
                ..self
            }
        }
    }
}
