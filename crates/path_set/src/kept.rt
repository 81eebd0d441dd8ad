//! One kept path, and paths in a list by ascending number. The set itself is in `set.rt`.
ghost use Rattle.std.specs.Prelude.{◌≡◌, ◌≢◌, ◌*◌, ◌+◌, ◌<◌, ◌≤◌, ◌++◌, ℕ, All, IfSome, IfNone, IsSome, IfOk, IfErr, OnOk, OnErr, HoldsAt, length, slice_index, insert, vec_len, vec_capacity};
ghost use Rattle.std.specs.Option.{option_copied};
ghost use Rattle.member_slots.specs.Members.{item_at};
ghost use Rattle.access_path.specs.PathBytes.{is_falling, members_of};
ghost use Rattle.path_entrants.specs.Formats.{keys_of};
ghost use Rattle.path_set.specs.KeptPaths.{entries_of, spare_of};
ghost use Rattle.path_set.specs.RecordChanges.{TakesImage, TakeImage, in_path, moves_at, moves_of, moves_in, HaveRoom};
ghost use Rattle.path_set.specs.Sharing.{CanBeKept};
ghost use Rattle.path_set.specs.ByMember.{AreNumbers};
ghost use Rattle.path_set.specs.Entries.{AreKept, IsPlace, IsGap, IsFirstFree, HasMoreRoom, with_files, change_of, paths_of};

use crate::by_member::PathOver;
use crate::moves::Moves;
use access_path::entrant::Entrant;
use access_path::path::Path;
use access_path::prepared::Prepared;
use file_model::paths::PathSpec;
use key_spec::Ties;
use member_slots::members::Members;
use path_entrants::entrant::SpecEntrant;
use path_entrants::same::is_same;
use std::alloc::{AllocError, Global};

/// How many paths can be counted.
pub const MOST_PATHS: usize = 4_294_967_295;

/// A kept path.
#[derive(Drop)]
pub struct Kept {
    /// Its number.
    pub(crate) id: u64,
    /// Its specification.
    pub(crate) by: SpecEntrant,
    /// How many files have it.
    pub(crate) files: u32,
    pub(crate) path: Path,
}

/// A change of a record that is to be prepared: its image before it and after it, none where it isn't live.
#[derive(Clone, Copy)]
pub struct Asked<'a> {
    pub(crate) member: u32,
    pub(crate) rrn: u32,
    pub(crate) old: Option<&'a [u8]>,
    pub(crate) new: Option<&'a [u8]>,
    /// The undos that are held.
    pub(crate) held: u32,
}

impl Kept {
    /// One file more has it. It answers its number, or that no more files can be counted.
    pub(crate) fn add_file(&mut self) -> Result<u64, AllocError>
        ensures id { IfOk result (λ id. id ≡ self.old.id) }
        ensures counted { OnOk result (self.new ≡ with_files self.old (self.old.files + 1)) }
        ensures refused { OnErr result (self.new ≡ self.old) }
    {
        let Some(files) = self.files.checked_add(1) else {
            return Err(AllocError);
        };
        self.files = files;
        Ok(self.id)
    }

    /// Prepares a change in each format over its member, and adds it to the moves.
    pub(crate) fn prepare(&mut self, asked: Asked<'_>, moves: &mut Moves) -> Result<(), AllocError>
        requires old { TakesImage asked.member (option_copied asked.old) self.old.by }
        requires new { TakesImage asked.member (option_copied asked.new) self.old.by }
        ensures moves { OnOk result (moves.new ≡ moves.old ++ in_path self.old.id (moves_of (change_of asked.entry) self.old.by)) }
        ensures same { HasMoreRoom self.old self.new }
        ensures room { OnOk result ((k : ℕ) → k < length (members_of self.old.by.formats) → slice_index (members_of self.old.by.formats) k ≡ asked.entry.member
            → (asked.entry.held + 2) * length (members_of self.old.by.formats) ≤ self.new.path.spare) }
    {
        for format in 0..self.by.formats() {
            self.prepare_format(format, asked, moves)?;
        }
        Ok(())
    }

    /// Prepares it in one format, where that is over the member.
    fn prepare_format(
        &mut self,
        format: u16,
        asked: Asked<'_>,
        moves: &mut Moves,
    ) -> Result<(), AllocError>
        requires there { format < length (members_of self.old.by.formats) }
        requires old { TakesImage asked.member (option_copied asked.old) self.old.by }
        requires new { TakesImage asked.member (option_copied asked.new) self.old.by }
        ensures moves { OnOk result (moves.new ≡ moves.old
            ++ in_path self.old.id (moves_at (keys_of self.old.by.formats) (change_of asked.entry) format (slice_index (members_of self.old.by.formats) format))) }
        ensures same { HasMoreRoom self.old self.new }
        ensures room { OnOk result (slice_index (members_of self.old.by.formats) format ≡ asked.entry.member → (asked.entry.held + 2) * length (members_of self.old.by.formats) ≤ self.new.path.spare) }
    {
        if self.by.member(format) != asked.member {
            return Ok(());
        }
        let change = self.path.prepare(
            &self.by, format, asked.rrn, asked.old, asked.new, asked.held,
        )?;
        moves.push(self.id, change)?;
        Ok(())
    }
}

/// Prepares a change in each of the paths over its member, which these are.
pub(crate) fn prepare_each(
    kept: &mut Vec<Kept>,
    over: &[PathOver],
    asked: Asked<'_>,
    moves: &mut Moves,
) -> Result<(), AllocError>
    requires sorted { AreKept kept.old.items }
    requires numbers { AreNumbers asked.member over.now (paths_of kept.old.items).paths }
    requires old { TakeImage asked.member (option_copied asked.old) (paths_of kept.old.items).paths }
    requires new { TakeImage asked.member (option_copied asked.new) (paths_of kept.old.items).paths }
    ensures sorted { AreKept kept.new.items }
    ensures moves { OnOk result (moves.new ≡ moves.old ++ moves_in (change_of asked.entry) (paths_of kept.old.items).paths) }
    ensures room { OnOk result (HaveRoom asked.entry.member (asked.entry.held + 2) (paths_of kept.new.items)) }
    ensures paths { (paths_of kept.new.items).paths ≡ (paths_of kept.old.items).paths }
    ensures rooms { (id : ℕ) → spare_of id (paths_of kept.old.items) ≤ spare_of id (paths_of kept.new.items) }
{
    for turn in 0..over.len() {
        let place = place_of_kept(kept.as_slice(), over[turn].id);
        kept[place].prepare(asked, moves)?;
    }
    Ok(())
}

/// The path of a specification over the members, with memory for the moves of so many changes.
pub(crate) fn path_over(
    alloc: Global,
    by: &SpecEntrant,
    members: &Members,
    held: u32,
) -> Result<Path, AllocError>
    requires { CanBeKept by.now members.now.members }
    ensures entries { IfOk result (λ path. path.entries ≡ entries_of by.now members.now.members) }
    ensures falling { IfOk result (λ path. path.falling ≡ is_falling by.now.ties) }
    ensures room { IfOk result (λ path. held * length by.now.formats ≤ path.spare) }
{
    let mut path = Path::new(alloc, is_falling(by.spec().ties));
    path.rebuild(by, members)?;
    path.reserve(inserts(held, by.formats())?)?;
    Ok(path)
}

pub(crate) fn is_falling(ties: Ties) -> bool
    ensures { result ≡ is_falling ties }
{
    match ties {
        Ties::Rising => false,
        Ties::Falling => true,
    }
}

/// The inserts that so many changes make in so many formats.
pub(crate) fn inserts(changes: u32, formats: u16) -> Result<u32, AllocError>
    ensures { IfOk result (λ more. more ≡ changes * formats) }
{
    match changes.checked_mul(u32::from(formats)) {
        Some(more) => Ok(more),
        None => Err(AllocError),
    }
}

/// Puts a path there. It takes no memory.
pub(crate) fn insert_kept(paths: &mut Vec<Kept>, place: usize, kept: Kept)
    requires within { place ≤ length paths.old.items }
    requires room { vec_len paths.old < vec_capacity paths.old }
    ensures { paths.new.items ≡ insert paths.old.items place kept }
{
    paths.insert(place, kept).unwrap();
}

/// Where the path of a number is, or where it would go.
pub(crate) fn place_of(kept: &[Kept], id: u64) -> Result<usize, usize>
    requires { AreKept kept.now }
    ensures found { IfOk result (IsPlace kept.now id) }
    ensures absent { IfErr result (IsGap kept.now id) }
{
    kept.binary_search_by_key(&id, |path| path.id)
}

/// Where the path of a number is, which is kept.
pub(crate) fn place_of_kept(kept: &[Kept], id: u64) -> usize
    requires sorted { AreKept kept.now }
    requires there { IsSome (item_at id (paths_of kept.now).paths) }
    ensures { IsPlace kept.now id result }
{
    place_of(kept, id).unwrap()
}

/// Where the path of a specification is.
pub(crate) fn place_of_spec(kept: &[Kept], spec: &PathSpec) -> Option<usize>
    ensures found { IfSome result (λ place. (place < length kept.now) × HoldsAt (λ path. path.by ≡ spec.now) kept.now place) }
    ensures absent { IfNone result (All (λ path. path.by ≢ spec.now) kept.now) }
{
    for place in 0..kept.len() {
        if is_same(kept[place].by.spec(), spec) {
            return Some(place);
        }
    }
    None
}

/// The least number that no path has. The path of a number before it stands at the place of that number.
pub(crate) fn first_free(kept: &[Kept]) -> usize
    ensures { IsFirstFree kept.now result }
{
    for place in 0..kept.len() {
        if kept[place].id != place as u64 {
            return place;
        }
    }
    kept.len()
}
