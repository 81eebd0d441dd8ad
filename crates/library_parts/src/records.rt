//! What requests ask of a member: its slots, its places, its room, and the images that the journal keeps of it.
ghost use Rattle.std.specs.Prelude.{◌≡◌, ◌≤◌, length, Some, None, IfSome, MatchOption, option_map, option_copied};
ghost use Rattle.member_slots.specs.Member.{is_full, slot_at};
ghost use Rattle.member_slots.specs.Members.{member_at, member_of};
ghost use Rattle.library_steps.specs.State.{memory_of};
ghost use Rattle.library_steps.specs.Records.{live_record};
ghost use Rattle.library_steps.specs.SlotChange.{images_of, is_behind_last};
ghost use Rattle.library_steps.specs.WriteRecord.{next_place, has_room};
ghost use Rattle.library_steps.specs.declared.limits.TheConstants.{MOST_LIBRARY_BYTES};
ghost use Rattle.library_steps.specs.Ranges.{library_bytes};
ghost use Rattle.parts_model.specs.Answers.{Allows};

use crate::contents::Contents;
use entry_codec::Images;
use library_model::replies::{LimitKind, Reply};
use library_steps::limits::MOST_LIBRARY_BYTES;
use member_slots::member::Member;
use member_slots::slot::Slot;
use parts_model::Stop;

impl Contents {
    /// The member with that number.
    pub fn member(&self, number: u32) -> Option<&Member>
        ensures { MatchOption result (member_at number self.now.state.members ≡ None) (λ m. member_at number self.now.state.members ≡ Some m.now.state) }
    {
        self.members.at(number)
    }

    /// The slot at a relative record number of a member.
    pub fn slot(&self, member: u32, rrn: u32) -> Option<&Slot>
        ensures { option_copied result ≡ slot_at (member_of member self.now.state.members) rrn }
    {
        let member = self.members.at(member)?;
        if rrn == 0 || rrn > member.slots() {
            return None;
        }
        Some(member.slot(rrn))
    }

    /// The image of the record at a relative record number of a member.
    pub fn live_image(&self, member: u32, rrn: u32) -> Option<&[u8]>
        ensures image { option_map (λ image. image.now) result ≡ live_record member rrn (memory_of self.now.state) }
        ensures fits { IfSome result (λ image. length image.now ≡ (member_of member self.now.state.members).record_length) }
    {
        let member = self.members.at(member)?;
        if rrn == 0 || rrn > member.slots() {
            return None;
        }
        match member.slot(rrn) {
            Slot::Live(image) => Some(image.as_bytes()),
            Slot::Deleted => None,
        }
    }

    /// Whether the member takes no further slot.
    pub fn is_full(&self, member: u32) -> bool
        ensures { result ≡ is_full (member_of member self.now.state.members) }
    {
        match self.members.at(member) {
            Some(member) => member.is_full(),
            None => false,
        }
    }

    /// The relative record number behind the last slot of the member.
    pub fn next_place(&self, member: u32) -> u32
        ensures { result ≡ next_place member (memory_of self.now.state) }
    {
        match self.members.at(member) {
            Some(member) => member.slots() + 1,
            None => 1,
        }
    }

    /// Whether the relative record number is the one behind the last slot of the member.
    pub fn is_behind_last(&self, member: u32, rrn: u32) -> bool
        ensures { result ≡ is_behind_last member rrn (memory_of self.now.state) }
    {
        rrn == self.next_place(member)
    }

    /// The refusal where the member, or the library, has no room for one slot more. Any other place needs none.
    pub fn has_room(&self, behind_last: bool, member: u32) -> Result<(), Stop>
        ensures { Allows result (has_room behind_last member (memory_of self.now.state)) }
    {
        if !behind_last {
            return Ok(());
        }
        if self.is_full(member) {
            return Err(Stop::Refused(Reply::MemberFull));
        }
        if self.member_bytes() + u64::from(self.record_length(member)) > MOST_LIBRARY_BYTES {
            return Err(Stop::Refused(Reply::LimitReached {
                which: LimitKind::LibraryBytes,
                number: MOST_LIBRARY_BYTES,
            }));
        }
        Ok(())
    }

    /// The images that the journal keeps of the member's records.
    pub fn images_of(&self, member: u32) -> Option<Images>
        ensures { result ≡ images_of member (memory_of self.now.state) }
    {
        match self.catalogue.member(member) {
            Some(status) => status.images(),
            None => None,
        }
    }

    /// The bytes of each record of the member.
    pub fn record_length(&self, member: u32) -> u32
        ensures { result ≡ (member_of member self.now.state.members).record_length }
    {
        match self.members.at(member) {
            Some(member) => member.length(),
            None => 0,
        }
    }

    /// The bytes of all members, with those of their deleted slots.
    pub fn member_bytes(&self) -> u64
        ensures value { result ≡ library_bytes self.now.state.members }
        ensures few { result ≤ MOST_LIBRARY_BYTES }
    {
        self.member_bytes
    }
}
