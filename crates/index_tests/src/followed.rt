//! A member with the kept paths over it, which follow its changes. `changes.rt` changes it at random.
ghost use Rattle.std.specs.Prelude.{◌≡◌, ◌≤◌, IfOk, OnOk, length};
ghost use Rattle.std.specs.Option.{option_copied};
ghost use Rattle.member_slots.specs.Members.{member_of};
ghost use Rattle.path_set.specs.RecordChanges.{HaveRoom, moves_in};
ghost use Rattle.path_set.specs.MemberSteps.{image_in, record_added};
ghost use Rattle.index_tests.specs.MemberRecords.{AreMovesOf, HaveRecords, IsFollowed, IsRecord, IsRecordSlot};

use crate::record_paths::{MEMBER, RECORD_BYTES};
use access_path::paths::Paths;
use field_types::texts::Image;
use file_model::paths::PathSpec;
use key_pages::{Key, Pages};
use member_slots::member::Member;
use member_slots::members::Members;
use member_slots::slot::Slot;
use path_set::faults::PathFault;
use path_set::moves::Moves;
use path_set::repeated::Repeated;
use path_set::set::PathSet;
use std::alloc::{AllocError, Global};
use std::marker::Model;

/// The member and the paths over it.
#[derive(Drop)]
pub(crate) struct Followed {
    members: Members,
    paths: PathSet,
}

impl Model for Followed {
    ghost use Rattle.index_tests.specs.MemberRecords.{MemberPaths, IsFollowed};

    ghost Value = { MemberPaths };

    ghost view = { λ f. record { members = f.members; paths = f.paths } };

    ghost invariant = { λ f. IsFollowed f.members.members f.paths.paths };
}

impl Followed {
    /// A member without records, and no paths.
    pub(crate) fn new(alloc: Global) -> Result<Followed, AllocError> {
        let mut members = Members::new(alloc);
        members.put(MEMBER, Member::new(alloc, RECORD_BYTES as u32))?;
        let paths = PathSet::new(alloc);
        Ok(Followed { members, paths })
    }

    /// How many slots the member has.
    pub(crate) fn slots(&self) -> u32
        ensures { result ≡ length (member_of 1 self.now.members.members).slots }
    {
        slots_of(&self.members)
    }

    /// Keeps a path of the specification.
    pub(crate) fn attach(&mut self, spec: PathSpec) -> Result<u64, PathFault>
        requires { HaveRecords spec.formats }
    {
        let id = self.paths.attach(spec, &self.members, 0)?;
        Ok(id)
    }

    /// Puts another slot at a place, and the paths follow.
    pub(crate) fn put(&mut self, rrn: u32, slot: Slot) -> Result<(), AllocError>
        requires place { (1 ≤ rrn) × (rrn ≤ length (member_of 1 self.old.members.members).slots) }
        requires fits { IsRecordSlot slot }
    {
        put_slot(&mut self.members, &mut self.paths, rrn, slot)
    }

    /// Has the paths follow as `put` does, and takes it back.
    pub(crate) fn put_and_take_back(&mut self, rrn: u32, slot: &Slot) -> Result<(), AllocError>
        requires place { (1 ≤ rrn) × (rrn ≤ length (member_of 1 self.old.members.members).slots) }
        requires fits { IsRecordSlot slot.now }
    {
        there_and_back(&self.members, &mut self.paths, rrn, slot)
    }

    /// Adds a record behind the last slot, and the paths follow.
    pub(crate) fn add(&mut self, image: Image) -> Result<(), AllocError>
        requires { IsRecord image }
    {
        add_record(&mut self.members, &mut self.paths, image)
    }

    /// The pages of a path.
    pub(crate) fn pages(&self, id: u64) -> Option<&Pages> {
        match self.paths.path(id) {
            Some(path) => Some(path.pages()),
            None => None,
        }
    }

    /// The key that a path has of a record.
    pub(crate) fn key(
        &self,
        alloc: Global,
        id: u64,
        image: &[u8],
    ) -> Result<Option<Key>, AllocError>
        requires { IsRecord image.now }
    {
        self.paths.key(alloc, id, 0, image)
    }

    /// The least other record with the key that a path has of an image.
    pub(crate) fn clash(&self, id: u64, image: &[u8], rrn: u32) -> Result<Option<u32>, AllocError>
        requires { IsRecord image.now }
    {
        self.paths.clash(id, 0, image, rrn)
    }

    /// The first of these paths with equal keys that may have none.
    pub(crate) fn repeated_among(&self, ids: &[u64]) -> Option<Repeated> {
        self.paths.repeated_among(ids)
    }
}

fn slots_of(members: &Members) -> u32
    ensures { result ≡ length (member_of 1 members.now.members).slots }
{
    match members.at(MEMBER) {
        Some(member) => member.slots(),
        None => 0,
    }
}

/// The image of the record that stands in a slot.
fn image_in(slot: &Slot) -> Option<&[u8]>
    ensures { option_copied result ≡ image_in slot.now }
{
    match slot {
        Slot::Live(image) => Some(image.as_bytes()),
        Slot::Deleted => None,
    }
}

/// The moves by which the paths follow another slot at a place.
fn prepared(
    members: &Members,
    paths: &mut PathSet,
    rrn: u32,
    slot: &Slot,
) -> Result<Moves, AllocError>
    requires place { (1 ≤ rrn) × (rrn ≤ length (member_of 1 members.now.members).slots) }
    requires followed { IsFollowed members.now.members paths.old.paths }
    requires fits { IsRecordSlot slot.now }
    ensures moves { IfOk result (λ moves. AreMovesOf members.now.members paths.old.paths rrn slot.now moves) }
    ensures room { OnOk result (HaveRoom 1 2 paths.new) }
    ensures paths { paths.new.paths ≡ paths.old.paths }
{
    let Some(member) = members.at(MEMBER) else {
        return Err(AllocError);
    };
    let old = image_in(member.slot(rrn));
    let new = image_in(slot);
    let moves = paths.prepare(MEMBER, rrn, old, new, 0)?;
    Ok(moves)
}

/// Puts the slot at its place, and makes the moves.
fn put_slot(
    members: &mut Members,
    paths: &mut PathSet,
    rrn: u32,
    slot: Slot,
) -> Result<(), AllocError>
    requires place { (1 ≤ rrn) × (rrn ≤ length (member_of 1 members.old.members).slots) }
    requires followed { IsFollowed members.old.members paths.old.paths }
    requires fits { IsRecordSlot slot }
    ensures { IsFollowed members.new.members paths.new.paths }
{
    let moves = prepared(members, paths, rrn, &slot)?;
    // What holds of all kept paths.
    let _kept = paths.kept();
    let _old = members.set(MEMBER, rrn, slot);
    let _back = paths.change(moves);
    Ok(())
}

/// Makes the moves of a slot that would be put at the place, and takes them back.
fn there_and_back(
    members: &Members,
    paths: &mut PathSet,
    rrn: u32,
    slot: &Slot,
) -> Result<(), AllocError>
    requires place { (1 ≤ rrn) × (rrn ≤ length (member_of 1 members.now.members).slots) }
    requires followed { IsFollowed members.now.members paths.old.paths }
    requires fits { IsRecordSlot slot.now }
    ensures { IsFollowed members.now.members paths.new.paths }
{
    let moves = prepared(members, paths, rrn, slot)?;
    let _kept = paths.kept();
    let back = paths.change(moves);
    let _again = paths.change_back(back);
    Ok(())
}

/// The moves by which the paths follow a record behind the last slot.
fn prepared_record(
    members: &Members,
    paths: &mut PathSet,
    image: &Image,
) -> Result<Moves, AllocError>
    requires followed { IsFollowed members.now.members paths.old.paths }
    requires fits { IsRecord image.now }
    ensures moves { IfOk result (λ moves. moves ≡ moves_in (record_added 1 image.now members.now.members) paths.old.paths) }
    ensures room { OnOk result (HaveRoom 1 2 paths.new) }
    ensures paths { paths.new.paths ≡ paths.old.paths }
{
    let Some(rrn) = slots_of(members).checked_add(1) else {
        return Err(AllocError);
    };
    let moves = paths.prepare(MEMBER, rrn, None, Some(image.as_bytes()), 0)?;
    Ok(moves)
}

/// Adds the record, and makes its moves.
fn add_record(members: &mut Members, paths: &mut PathSet, image: Image) -> Result<(), AllocError>
    requires followed { IsFollowed members.old.members paths.old.paths }
    requires fits { IsRecord image }
    ensures { IsFollowed members.new.members paths.new.paths }
{
    let moves = prepared_record(members, paths, &image)?;
    let _kept = paths.kept();
    members.reserve(MEMBER, 1)?;
    match members.append(MEMBER, image) {
        Ok(_) => {
            let _back = paths.change(moves);
            Ok(())
        }
        Err(_) => Err(AllocError),
    }
}
