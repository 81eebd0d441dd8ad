//! What an entry names: a group, a member, a record. The rules stand in `specs/Placing.antt`.
ghost use Rattle.std.specs.Prelude.{◌≡◌};
ghost use Rattle.entry_codec.specs.Placing.{is_placed_at};

/// What an entry of a kind has to name.
#[derive(Clone, Copy)]
pub enum Place {
    /// Neither a group nor a member.
    Library,
    /// A member, and no record.
    Member,
    /// A record, outside every group.
    Slot,
    /// A record, in a group or in none.
    Record,
    /// A group or none, and no member.
    Commitment,
    /// The group that begins here.
    CycleStart,
    /// The group that ends here.
    CycleEnd,
}

/// The numbers in front of an entry that name something.
#[derive(Clone, Copy)]
pub struct Named {
    pub sequence: u64,
    pub group: Option<u64>,
    pub member: Option<u32>,
    pub rrn: Option<u32>,
}

impl Named {
    /// Whether they name the group, the member and the record that an entry at this place has to.
    pub fn fit(&self, place: Place) -> bool
        ensures { result ≡ is_placed_at place self.now.sequence self.now.group self.now.member self.now.rrn }
    {
        let Named {
            sequence,
            group,
            member,
            rrn,
        } = *self;
        let in_library = member.is_none() && rrn.is_none();
        let in_member = matches!(member, Some(1..)) && rrn.is_none();
        let at_record = matches!(member, Some(1..)) && matches!(rrn, Some(1..));
        match place {
            Place::Library => group.is_none() && in_library,
            Place::Member => group.is_none() && in_member,
            Place::Slot => group.is_none() && at_record,
            Place::Record => !matches!(group, Some(0)) && at_record,
            Place::Commitment => !matches!(group, Some(0)) && in_library,
            Place::CycleStart => matches!(group, Some(own @ 1..) if own == sequence) && in_library,
            Place::CycleEnd => matches!(group, Some(1..)) && in_library,
        }
    }
}
