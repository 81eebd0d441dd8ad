//! What effects change of members: their slots and their statuses.
ghost use Rattle.std.specs.Prelude.{◌≡◌, ℕ, ◌+◌, ◌-◌, ◌≤◌, None, false, length, unwrap_or, IsSome, IfSome, IfOk, OnOk};
ghost use Rattle.std.specs.Option.{option_copied};
ghost use Rattle.member_slots.specs.declared.slot.Slot.TheVariants.{Live, Deleted};
ghost use Rattle.member_slots.specs.Member.{FitsSlot, cleared, is_full, reorganized, slot_at};
ghost use Rattle.member_slots.specs.Members.{AreMembers, member_at, member_of, with_item};
ghost use Rattle.access_path.specs.KeyFields.{AreBytes};
ghost use Rattle.parts_model.specs.MemberSteps.{image_in};
ghost use Rattle.library_steps.specs.declared.limits.TheConstants.{MOST_LIBRARY_BYTES};
ghost use Rattle.library_steps.specs.Ranges.{library_bytes};
ghost use Rattle.library_steps.specs.Records.{slot_there};
ghost use Rattle.library_steps.specs.SlotChange.{touched, with_slot};
ghost use Rattle.library_steps.specs.State.{memory_of, with_status};
ghost use Rattle.library_steps.specs.Uses.{user_of};
ghost use Rattle.library_steps.specs.WriteRecord.{next_place};
ghost use Rattle.parts_model.specs.Rooms.{HasSlotRoom, spare_slots};
ghost use Rattle.parts_model.specs.Indexed.{HasBytes};
ghost use Rattle.parts_model.specs.Moved.{AreMovesOf, AreRemade, HasMovesRoom};
ghost use Rattle.lawful_states.specs.Slots.{MayStand, weight, with_live};
ghost use Rattle.library_steps.specs.MemberCommands.{renumbered, with_slots};
ghost use Rattle.library_steps.specs.Journaling.{journaled_from, no_longer_journaled};

use crate::contents::Contents;
use entry_codec::Images;
use field_types::texts::Image;
use member_slots::member::Member;
use member_slots::members::Members;
use member_slots::slot::Slot;
use parts_model::path_set::moves::Moves;
use parts_model::path_set::rebuilding::Rebuilt;
use std::alloc::{AllocError, Global};

/// A slot that stood at a place, and the moves that put it back in all paths.
#[derive(Drop)]
pub struct SlotTaken {
    pub slot: Slot,
    pub back: Moves,
}

impl Contents {
    /// The moves of a change of the record in all paths, with memory for them, for the undoing of all changes that open commit
    /// cycles hold, and for those of so many changes more. Nothing is changed.
    pub fn prepare_moves(
        &mut self,
        member: u32,
        rrn: u32,
        new: &Slot,
        more: u32,
    ) -> Result<Moves, AllocError>
        requires there { IsSome (member_at member self.old.state.members) }
        requires first { 1 ≤ rrn }
        requires fits { FitsSlot (member_of member self.old.state.members).record_length new.now }
        requires values { MayStand self.old.state member new.now }
        ensures state { self.new.state ≡ self.old.state }
        ensures others { self.new.room ≡ record self.old.room { paths = self.new.room.paths } }
        ensures moves { IfOk result (λ moves. AreMovesOf self.new member rrn new.now moves) }
        ensures room { OnOk result (HasMovesRoom self.new member (more + 2)) }
    {
        let Some(held) = changes_with(self.jobs.changes_held(), more) else {
            return Err(AllocError);
        };
        // What holds of all files, members and kept paths.
        let _files = self.catalogue.len();
        let _kept = self.paths.kept();
        of_bytes(new);
        let old = live_image(&self.members, member, rrn);
        self.paths.prepare(member, rrn, old, image_in(new), held)
    }

    /// Adds a record behind the last slot of the member, and answers the moves that take it back.
    pub fn append_record(&mut self, member: u32, image: Image, moves: Moves) -> Moves
        requires there { IsSome (member_at member self.old.state.members) }
        requires open_ended { is_full (member_of member self.old.state.members) ≡ false }
        requires few { library_bytes self.old.state.members + (member_of member self.old.state.members).record_length ≤ MOST_LIBRARY_BYTES }
        requires room { HasSlotRoom self.old.room member }
        requires fits { length image ≡ (member_of member self.old.state.members).record_length }
        requires values { MayStand self.old.state member (Live image) }
        requires moves { AreMovesOf self.old member (next_place member (memory_of self.old.state)) (Live image) moves }
        requires moves_room { HasMovesRoom self.old member 1 }
        ensures back { AreMovesOf self.new member (next_place member (memory_of self.old.state)) Deleted result }
        ensures left { (more : ℕ) → HasMovesRoom self.old member (more + 1) → HasMovesRoom self.new member more }
        ensures memory { memory_of self.new.state ≡ with_slot member (next_place member (memory_of self.old.state)) (Live image) (memory_of self.old.state) }
        ensures entries { self.new.state.entries ≡ self.old.state.entries }
        ensures room { self.new.room ≡ record self.old.room { spares = self.new.room.spares; paths = self.new.room.paths } }
        ensures spent { self.new.room.spares ≡ with_item member (spare_slots self.old.room member - 1) self.old.room.spares }
    {
        // What holds of all kept paths.
        let _kept = self.paths.kept();
        are_bytes(image.as_bytes());
        let bytes = self.record_length(member);
        let _rrn = self.members.append(member, image).unwrap();
        self.member_bytes += u64::from(bytes);
        self.paths.change(moves)
    }

    /// Puts a slot at a place that the member has, and hands back the one that stood there and the moves that take it back.
    pub fn set_slot(&mut self, member: u32, rrn: u32, slot: Slot, moves: Moves) -> SlotTaken
        requires there { IsSome (member_at member self.old.state.members) }
        requires place { (1 ≤ rrn) × (rrn ≤ length (member_of member self.old.state.members).slots) }
        requires fits { FitsSlot (member_of member self.old.state.members).record_length slot }
        requires values { MayStand self.old.state member slot }
        requires moves { AreMovesOf self.old member rrn slot moves }
        requires moves_room { HasMovesRoom self.old member 1 }
        ensures before { result.slot ≡ slot_there member rrn (memory_of self.old.state) }
        ensures fitted { FitsSlot (member_of member self.old.state.members).record_length result.slot }
        ensures stood { MayStand self.old.state member result.slot }
        ensures back { AreMovesOf self.new member rrn result.slot result.back }
        ensures left { (more : ℕ) → HasMovesRoom self.old member (more + 1) → HasMovesRoom self.new member more }
        ensures memory { memory_of self.new.state ≡ with_slot member rrn slot (memory_of self.old.state) }
        ensures entries { self.new.state.entries ≡ self.old.state.entries }
        ensures room { self.new.room ≡ record self.old.room { paths = self.new.room.paths } }
    {
        // What holds of all kept paths.
        let _kept = self.paths.kept();
        of_bytes(&slot);
        let slot = self.members.set(member, rrn, slot);
        let back = self.paths.change(moves);
        SlotTaken { slot, back }
    }

    /// A record of the member was changed.
    pub fn touch(&mut self, member: u32)
        ensures memory { memory_of self.new.state ≡ with_status member touched (memory_of self.old.state) }
        ensures entries { self.new.state.entries ≡ self.old.state.entries }
        ensures room { self.new.room ≡ self.old.room }
    {
        self.catalogue.touch(member);
    }

    /// The member is journaled from that sequence on.
    pub fn start_journaling(&mut self, member: u32, sequence: u64, images: Images)
        ensures memory { memory_of self.new.state ≡ with_status member (journaled_from sequence images) (memory_of self.old.state) }
        ensures entries { self.new.state.entries ≡ self.old.state.entries }
        ensures room { self.new.room ≡ self.old.room }
    {
        self.catalogue.journaled(member, sequence, images);
    }

    /// The member is no longer journaled. It had so many records then.
    pub fn end_journaling(&mut self, member: u32, sequence: u64, records: u32)
        ensures memory { memory_of self.new.state ≡ with_status member (no_longer_journaled sequence records) (memory_of self.old.state) }
        ensures entries { self.new.state.entries ≡ self.old.state.entries }
        ensures room { self.new.room ≡ self.old.room }
    {
        self.catalogue.unjournaled(member, sequence, records);
    }

    /// The member's records have lost their numbers.
    pub fn renumber(&mut self, member: u32, sequence: u64)
        ensures memory { memory_of self.new.state ≡ with_status member (renumbered sequence) (memory_of self.old.state) }
        ensures entries { self.new.state.entries ≡ self.old.state.entries }
        ensures room { self.new.room ≡ self.old.room }
    {
        self.catalogue.renumbered(member, sequence);
    }

    /// The paths of the member as they will be without its slots.
    pub fn paths_cleared(&self, member: u32) -> Result<Rebuilt, AllocError>
        requires { IsSome (member_at member self.now.state.members) }
        ensures { IfOk result (AreRemade self.now member cleared) }
    {
        let Some(held) = changes_with(self.jobs.changes_held(), 0) else {
            return Err(AllocError);
        };
        // What holds of all files, members and kept paths.
        let _files = self.catalogue.len();
        let _kept = self.paths.kept();
        let _member = self.members.at(member);
        let empty = Member::new(self.alloc, self.record_length(member));
        self.paths
            .prepare_rebuild(&self.members, member, &empty, held)
    }

    /// The paths of the member as they will be without its deleted slots. It copies the records.
    pub fn paths_reorganized(&self, member: u32) -> Result<Rebuilt, AllocError>
        requires { IsSome (member_at member self.now.state.members) }
        ensures { IfOk result (AreRemade self.now member reorganized) }
    {
        let Some(held) = changes_with(self.jobs.changes_held(), 0) else {
            return Err(AllocError);
        };
        // What holds of all files and kept paths.
        let _files = self.catalogue.len();
        let _kept = self.paths.kept();
        let compact = without_deleted(self.alloc, self.members.at(member).unwrap())?;
        self.paths
            .prepare_rebuild(&self.members, member, &compact, held)
    }

    /// Removes all slots of the member, which no job uses.
    pub fn clear(&mut self, member: u32, paths: Rebuilt)
        requires there { IsSome (member_at member self.old.state.members) }
        requires unused { user_of member (memory_of self.old.state) ≡ None }
        requires paths { AreRemade self.old member cleared paths }
        ensures memory { memory_of self.new.state ≡ with_slots member cleared (memory_of self.old.state) }
        ensures entries { self.new.state.entries ≡ self.old.state.entries }
        ensures room { self.new.room ≡ record self.old.room { spares = self.new.room.spares; paths = self.new.room.paths } }
    {
        // What holds of all kept paths.
        let _kept = self.paths.kept();
        let before = self.weight(member);
        self.members.clear(member);
        self.paths.rebuild(paths);
        self.member_bytes -= before;
    }

    /// Removes the deleted slots of the member, which no job uses.
    pub fn reorganize(&mut self, member: u32, paths: Rebuilt)
        requires there { IsSome (member_at member self.old.state.members) }
        requires unused { user_of member (memory_of self.old.state) ≡ None }
        requires paths { AreRemade self.old member reorganized paths }
        ensures memory { memory_of self.new.state ≡ with_slots member reorganized (memory_of self.old.state) }
        ensures entries { self.new.state.entries ≡ self.old.state.entries }
        ensures room { self.new.room ≡ record self.old.room { spares = self.new.room.spares; paths = self.new.room.paths } }
    {
        // What holds of all kept paths.
        let _kept = self.paths.kept();
        let before = self.weight(member);
        self.members.reorganize(member);
        self.paths.rebuild(paths);
        let after = weight(&self.members, member);
        self.member_bytes = self.member_bytes - before + after;
    }

    pub(crate) fn weight(&self, member: u32) -> u64
        requires { IsSome (member_at member self.now.state.members) }
        ensures value { result ≡ weight (member_of member self.now.state.members) }
        ensures few { result ≤ library_bytes self.now.state.members }
    {
        let _ = &self.member_bytes;
        weight(&self.members, member)
    }
}

/// The bytes of a member, with those of its deleted slots.
pub(crate) fn weight(members: &Members, member: u32) -> u64
    ensures value { result ≡ weight (member_of member members.now.members) }
    ensures few { result ≤ 268435456 }
    ensures lawful { AreMembers members.now.members }
{
    match members.at(member) {
        Some(member) => u64::from(member.slots()) * u64::from(member.length()),
        None => 0,
    }
}

/// What a slot holds is of bytes.
pub(crate) fn of_bytes(slot: &Slot)
    ensures { HasBytes slot.now }
{
    match slot {
        Slot::Live(image) => are_bytes(image.as_bytes()),
        Slot::Deleted => {}
    }
}

/// An image is of bytes.
pub(crate) fn are_bytes(image: &[u8])
    ensures { AreBytes image.now }
{}

/// The image of the record at a relative record number of the member.
fn live_image(members: &Members, member: u32, rrn: u32) -> Option<&[u8]>
    ensures image { option_copied result ≡ image_in (unwrap_or (slot_at (member_of member members.now.members) rrn) Deleted) }
    ensures lawful { AreMembers members.now.members }
{
    let Some(member) = members.at(member) else {
        return None;
    };
    if rrn == 0 || rrn > member.slots() {
        return None;
    }
    image_in(member.slot(rrn))
}

/// The image of the record in the slot.
fn image_in(slot: &Slot) -> Option<&[u8]>
    ensures { option_copied result ≡ image_in slot.now }
{
    match slot {
        Slot::Live(image) => Some(image.as_bytes()),
        Slot::Deleted => None,
    }
}

/// How many changes are held, with so many more, where they can be counted.
pub(crate) fn changes_with(held: usize, more: u32) -> Option<u32>
    ensures { IfSome result (λ n. n ≡ held + more) }
{
    u32::try_from(held).ok()?.checked_add(more)
}

/// A copy of the member without its deleted slots.
fn without_deleted(alloc: Global, member: &Member) -> Result<Member, AllocError>
    ensures { IfOk result (λ compact. compact.state ≡ reorganized member.now.state) }
{
    let mut compact = Member::new(alloc, member.length());
    for place in 0..member.slots() {
        add_live(alloc, member.slot(place + 1), &mut compact)?;
    }
    Ok(compact)
}

/// Adds the record of a slot, where one stands in it. A member that is full counts as want of memory.
fn add_live(alloc: Global, slot: &Slot, compact: &mut Member) -> Result<(), AllocError>
    requires { FitsSlot compact.old.state.record_length slot.now }
    ensures { OnOk result (compact.new.state ≡ with_live slot.now compact.old.state) }
{
    let Slot::Live(image) = slot else {
        return Ok(());
    };
    compact.reserve(1)?;
    match compact.append(image.copied(alloc)?) {
        Ok(_) => Ok(()),
        Err(_) => Err(AllocError),
    }
}
