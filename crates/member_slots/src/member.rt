//! One member: its slots by relative record number. Several members by number stand in `members.rt`.
ghost use Rattle.std.specs.Prelude.{◌≡◌, ℕ, ◌+◌, ◌-◌, ◌≤◌, ◌<◌, length, Some, IsTrue, IsErr, IfOk, OnOk, OnErr, ◌↔◌};
ghost use Rattle.member_slots.specs.Member.{FitsSlot, IsMember, empty_member, slot_at, is_full, appended, changed, cleared, reorganized};

use crate::slot::Slot;
use field_types::texts::Image;
use std::alloc::{AllocError, Global};
use std::marker::Model;

/// The most slots that a member has.
pub const MOST_SLOTS: u64 = 1_000_000;

/// The most bytes of a member, with those of its deleted slots: 256 MiB.
pub const MOST_BYTES: u64 = 268_435_456;

/// The member has as many slots or bytes as a member may have.
#[derive(Drop)]
pub struct MemberFull;

/// A member of a physical file (Database Programming, "Physical file members").
/// Beside its slots, contracts see the room that it has for more.
#[derive(Drop)]
pub struct Member {
    record_length: u32,
    slots: Vec<Slot>,
}

impl Model for Member {
    ghost use Rattle.std.specs.Prelude.{◌-◌, vec_len, vec_capacity};
    ghost use Rattle.member_slots.specs.Member.{RoomyMember, IsMember};

    ghost Value = { RoomyMember };

    ghost view = { λ m. record {
      state = record { record_length = m.record_length; slots = m.slots.items };
      spare = vec_capacity m.slots - vec_len m.slots;
    } };

    ghost invariant = { λ m. IsMember (record { record_length = m.record_length; slots = m.slots.items }) };
}

impl Member {
    /// A member without slots, of records of that many bytes. It keeps the allocator.
    pub fn new(alloc: Global, length: u32) -> Member
        ensures { result.state ≡ empty_member length }
    {
        Member {
            record_length: length,
            slots: Vec::new(alloc),
        }
    }

    /// The bytes of each record.
    pub fn length(&self) -> u32
        ensures value { result ≡ self.now.state.record_length }
        ensures lawful { IsMember self.now.state }
    {
        self.record_length
    }

    /// The number of slots, which is the last relative record number.
    pub fn slots(&self) -> u32
        ensures value { result ≡ length self.now.state.slots }
        ensures lawful { IsMember self.now.state }
    {
        self.slots.len() as u32
    }

    /// Whether one more slot would pass 1,000,000 slots or 256 MiB.
    pub fn is_full(&self) -> bool
        ensures { result ≡ is_full self.now.state }
    {
        let number = self.slots.len() as u64 + 1;
        number > MOST_SLOTS || number * u64::from(self.record_length) > MOST_BYTES
    }

    /// The slot at a relative record number, which count from 1.
    pub fn slot(&self, rrn: u32) -> &Slot
        requires { (1 ≤ rrn) × (rrn ≤ length self.now.state.slots) }
        ensures value { slot_at self.now.state rrn ≡ Some result.now }
        ensures fits { FitsSlot self.now.state.record_length result.now }
    {
        &self.slots[rrn as usize - 1]
    }

    /// Makes room for at least that many further slots.
    pub fn reserve(&mut self, more: u32) -> Result<(), AllocError>
        ensures unchanged { self.new.state ≡ self.old.state }
        ensures kept { self.old.spare ≤ self.new.spare }
        ensures refused { OnErr result (self.new ≡ self.old) }
        ensures room { OnOk result (more ≤ self.new.spare) }
        ensures short { OnErr result (self.old.spare < more) }
    {
        self.slots.reserve(more as usize)
    }

    /// Adds a record behind the last slot and answers its relative record number. The image of a refused record is let go.
    pub fn append(&mut self, image: Image) -> Result<u32, MemberFull>
        requires room { 1 ≤ self.old.spare }
        requires fits { length image ≡ self.old.state.record_length }
        ensures full { IsErr result ↔ IsTrue (is_full self.old.state) }
        ensures number { IfOk result (λ rrn. rrn ≡ length self.old.state.slots + 1) }
        ensures appended { OnOk result (self.new.state ≡ appended self.old.state image) }
        ensures spent { OnOk result (self.new.spare ≡ self.old.spare - 1) }
        ensures refused { OnErr result (self.new ≡ self.old) }
        ensures lawful { IsMember self.new.state }
    {
        if self.is_full() {
            return Err(MemberFull);
        }
        self.slots.push_reserved(Slot::Live(image));
        Ok(self.slots.len() as u32)
    }

    /// Puts a slot at a relative record number and hands back the one that stood there.
    pub fn set(&mut self, rrn: u32, slot: Slot) -> Slot
        requires place { (1 ≤ rrn) × (rrn ≤ length self.old.state.slots) }
        requires fits { FitsSlot self.old.state.record_length slot }
        ensures before { slot_at self.old.state rrn ≡ Some result }
        ensures changed { self.new.state ≡ changed self.old.state rrn slot }
        ensures spare { self.new.spare ≡ self.old.spare }
        ensures fits { FitsSlot self.old.state.record_length result }
        ensures lawful { IsMember self.new.state }
    {
        std::mem::replace(&mut self.slots[rrn as usize - 1], slot)
    }

    /// Removes all slots (CLRPFM).
    pub fn clear(&mut self)
        ensures cleared { self.new.state ≡ cleared self.old.state }
        ensures lawful { IsMember self.new.state }
        ensures spare { self.old.spare ≤ self.new.spare }
    {
        self.slots.clear();
    }

    /// Removes the deleted slots, so that the records are numbered anew in their order (RGZPFM).
    pub fn reorganize(&mut self)
        ensures reorganized { self.new.state ≡ reorganized self.old.state }
        ensures spare { self.old.spare ≤ self.new.spare }
        ensures lawful { IsMember self.new.state }
    {
        self.slots.retain(|slot| matches!(slot, Slot::Live(_)));
    }
}
