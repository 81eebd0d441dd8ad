//! The members of a library by their numbers. One member stands in `member.rt`.
ghost use Rattle.std.specs.Prelude.{◌≡◌, ℕ, ◌+◌, ◌-◌, ◌≤◌, ◌<◌, [], length, Some, None, IsTrue, IsSome, IsOk, IsErr, IfSome, IfOk, IfErr, OnOk, OnErr, MatchOption, AllPairs, ◌↔◌};
ghost use Rattle.member_slots.specs.Member.{FitsSlot, slot_at, is_full, appended, changed, cleared, reorganized};
ghost use Rattle.member_slots.specs.Entries.{AreEntries, IsPlace, IsGap, members_of};
ghost use Rattle.member_slots.specs.Members.{AreMembers, member_at, member_of, with_member, put_member, without_member, spare_at, with_item, put_item, without_item};

use crate::member::{Member, MemberFull};
use crate::slot::Slot;
use field_types::texts::Image;
use std::alloc::{AllocError, Global};
use std::marker::Model;

#[derive(Drop)]
struct Entry {
    number: u32,
    member: Member,
}

/// Members by their numbers, in ascending order. Beside them, contracts see the spare slots of each, and how many members
/// more there is room for.
#[derive(Drop)]
pub struct Members {
    entries: Vec<Entry>,
}

impl Model for Members {
    ghost use Rattle.std.specs.Prelude.{◌-◌, vec_len, vec_capacity};
    ghost use Rattle.member_slots.specs.Members.{RoomyMembers};

    ghost Value = { RoomyMembers };

    ghost use Rattle.member_slots.specs.Entries.{members_of, AreEntries};

    ghost view = { λ m. members_of m.entries.items (vec_capacity m.entries - vec_len m.entries) };

    ghost invariant = { λ m. AreEntries m.entries.items };
}

impl Members {
    /// No members. It keeps the allocator.
    pub fn new(alloc: Global) -> Members
        ensures members { result.members ≡ [] }
        ensures spares { result.spares ≡ [] }
    {
        Members {
            entries: Vec::new(alloc),
        }
    }

    /// The member with that number.
    pub fn at(&self, number: u32) -> Option<&Member>
        ensures found { MatchOption result (member_at number self.now.members ≡ None) (λ m. member_at number self.now.members ≡ Some m.now.state) }
        ensures spare { IfSome result (λ m. m.now.spare ≡ spare_at number self.now) }
        ensures lawful { AreMembers self.now.members }
    {
        match place_of(&self.entries, number) {
            Ok(place) => Some(&self.entries[place].member),
            Err(_) => None,
        }
    }

    /// Makes room for one member more.
    pub fn make_room(&mut self) -> Result<(), AllocError>
        ensures members { self.new.members ≡ self.old.members }
        ensures spares { self.new.spares ≡ self.old.spares }
        ensures room { OnOk result (1 ≤ self.new.room) }
        ensures refused { OnErr result (self.new ≡ self.old) }
    {
        self.entries.reserve(1)
    }

    /// Keeps the member under that number, in place of one that is there. A refused member is let go.
    pub fn put(&mut self, number: u32, m: Member) -> Result<(), AllocError>
        ensures put { OnOk result (self.new.members ≡ put_member number m.state self.old.members) }
        ensures spares { OnOk result (self.new.spares ≡ put_item number m.spare self.old.spares) }
        ensures refused { OnErr result (self.new.members ≡ self.old.members) }
        ensures refused_spares { OnErr result (self.new.spares ≡ self.old.spares) }
        ensures replaces { IsSome (member_at number self.old.members) → IsOk result }
        ensures fits { 1 ≤ self.old.room → IsOk result }
    {
        // What is kept is a member.
        let _ = m.length();
        match place_of(&self.entries, number) {
            Ok(place) => {
                self.entries[place] = Entry { number, member: m };
                Ok(())
            }
            Err(place) => Ok(self.entries.insert(place, Entry { number, member: m })?),
        }
    }

    /// Hands the member with that number out; it is no longer among the members.
    pub fn take(&mut self, number: u32) -> Option<Member>
        ensures taken { MatchOption result (member_at number self.old.members ≡ None) (λ m. member_at number self.old.members ≡ Some m.state) }
        ensures spare { IfSome result (λ m. m.spare ≡ spare_at number self.old) }
        ensures gone { self.new.members ≡ without_member number self.old.members }
        ensures spares { self.new.spares ≡ without_item number self.old.spares }
    {
        match place_of(&self.entries, number) {
            Ok(place) => Some(self.entries.remove(place).member),
            Err(_) => None,
        }
    }

    /// Makes room in the member with that number for at least that many further slots.
    pub fn reserve(&mut self, number: u32, more: u32) -> Result<(), AllocError>
        requires { IsSome (member_at number self.old.members) }
        ensures unchanged { self.new.members ≡ self.old.members }
        ensures kept { spare_at number self.old ≤ spare_at number self.new }
        ensures reserved { OnOk result (more ≤ spare_at number self.new) }
        ensures short { OnErr result (spare_at number self.old < more) }
        ensures refused { OnErr result (self.new ≡ self.old) }
        ensures other_spares { self.new.spares ≡ with_item number (spare_at number self.new) self.old.spares }
        ensures room { self.new.room ≡ self.old.room }
    {
        let place = place_of_member(&self.entries, number);
        self.entries[place].member.reserve(more)
    }

    /// Adds a record to the member with that number, behind its last slot, and answers its relative record number.
    /// The image of a refused record is let go.
    pub fn append(&mut self, number: u32, image: Image) -> Result<u32, MemberFull>
        requires there { IsSome (member_at number self.old.members) }
        requires room { 1 ≤ spare_at number self.old }
        requires fits { length image ≡ (member_of number self.old.members).record_length }
        ensures full { IsErr result ↔ IsTrue (is_full (member_of number self.old.members)) }
        ensures number { IfOk result (λ rrn. rrn ≡ length (member_of number self.old.members).slots + 1) }
        ensures appended { OnOk result (self.new.members ≡ with_member number (appended (member_of number self.old.members) image) self.old.members) }
        ensures spent { OnOk result (self.new.spares ≡ with_item number (spare_at number self.old - 1) self.old.spares) }
        ensures refused { OnErr result (self.new ≡ self.old) }
        ensures room { self.new.room ≡ self.old.room }
    {
        let place = place_of_member(&self.entries, number);
        self.entries[place].member.append(image)
    }

    /// Puts a slot at a relative record number of the member with that number, and hands back the one that stood there.
    pub fn set(&mut self, number: u32, rrn: u32, slot: Slot) -> Slot
        requires there { IsSome (member_at number self.old.members) }
        requires place { (1 ≤ rrn) × (rrn ≤ length (member_of number self.old.members).slots) }
        requires fits { FitsSlot (member_of number self.old.members).record_length slot }
        ensures before { slot_at (member_of number self.old.members) rrn ≡ Some result }
        ensures changed { self.new.members ≡ with_member number (changed (member_of number self.old.members) rrn slot) self.old.members }
        ensures spares { self.new.spares ≡ self.old.spares }
        ensures room { self.new.room ≡ self.old.room }
        ensures fits { FitsSlot (member_of number self.old.members).record_length result }
    {
        let place = place_of_member(&self.entries, number);
        self.entries[place].member.set(rrn, slot)
    }

    /// Removes all slots of the member with that number (CLRPFM).
    pub fn clear(&mut self, number: u32)
        requires { IsSome (member_at number self.old.members) }
        ensures cleared { self.new.members ≡ with_member number (cleared (member_of number self.old.members)) self.old.members }
        ensures kept { spare_at number self.old ≤ spare_at number self.new }
        ensures other_spares { self.new.spares ≡ with_item number (spare_at number self.new) self.old.spares }
        ensures room { self.new.room ≡ self.old.room }
    {
        let place = place_of_member(&self.entries, number);
        self.entries[place].member.clear();
    }

    /// Removes the deleted slots of the member with that number, so that its records are numbered anew in their order (RGZPFM).
    pub fn reorganize(&mut self, number: u32)
        requires { IsSome (member_at number self.old.members) }
        ensures reorganized { self.new.members ≡ with_member number (reorganized (member_of number self.old.members)) self.old.members }
        ensures kept { spare_at number self.old ≤ spare_at number self.new }
        ensures other_spares { self.new.spares ≡ with_item number (spare_at number self.new) self.old.spares }
        ensures room { self.new.room ≡ self.old.room }
    {
        let place = place_of_member(&self.entries, number);
        self.entries[place].member.reorganize();
    }
}

// Where the number's entry is, or where it would go.
fn place_of(entries: &[Entry], number: u32) -> Result<usize, usize>
    requires { AreEntries entries.now }
    ensures found { IfOk result (IsPlace entries.now number) }
    ensures absent { IfErr result (IsGap entries.now number) }
{
    entries.binary_search_by_key(&number, |entry| entry.number)
}

// Where the entry of a member that is there is.
fn place_of_member(entries: &[Entry], number: u32) -> usize
    requires sorted { AreEntries entries.now }
    requires there { IsSome (member_at number (members_of entries.now 0).members) }
    ensures { IsPlace entries.now number result }
{
    place_of(entries, number).unwrap()
}
