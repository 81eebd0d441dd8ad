//! The paths that a library keeps. A single one is in `kept.rt`, a prepared change in `moves.rt`; several changes are in
//! `many.rt`, paths made anew in `rebuilding.rt`, equal keys in `repeated.rt`.
ghost use Rattle.std.specs.Prelude.{◌≡◌, ◌+◌, ◌*◌, ◌≤◌, ◌⊎◌, ℕ, [], ◌∷◌, ◌++◌, Some, None, IsSome, IfSome, IfOk, OnOk, OnErr, MatchOption, MatchResult, IsErrOf, is_some, length, if◌then◌else◌};
ghost use Rattle.std.specs.Option.{option_copied};
ghost use Rattle.member_slots.specs.Members.{item_at, put_item};
ghost use Rattle.file_model.specs.Paths.{repeated_in};
ghost use Rattle.access_path.specs.PathBytes.{is_falling};
ghost use Rattle.access_path.specs.Moves.{opposite, FitsIn};
ghost use Rattle.path_entrants.specs.Formats.{CanBeAsked, keys_of};
ghost use Rattle.path_entrants.specs.Repeated.{least_repeated, TellsRepeated};
ghost use Rattle.path_set.specs.KeptPaths.{KeptPath, AreShared, spare_of, pages_at, entries_of};
ghost use Rattle.path_set.specs.RecordChanges.{TakeImage, moves_in, opposites, paths_after, CanBeMade, HaveRoom, count_in};
ghost use Rattle.path_set.specs.Entries.{change_of};
ghost use Rattle.path_set.specs.RebuiltPaths.{HaveRooms};
ghost use Rattle.path_set.specs.Sharing.{CanBeKept, IsNew, IsShared, IsPut, IsLeastFree, detached};

use crate::by_member::{PathOver, add_path, paths_of_member, remove_path};
use crate::faults::PathFault;
use crate::kept::{
    Asked, Kept, MOST_PATHS, first_free, insert_kept, path_over, place_of, place_of_kept,
    place_of_spec, prepare_each,
};
use crate::moves::{Moves, PathMove};
use access_path::entrant::Entrant;
use access_path::path::Path;
use access_path::paths::Paths;
use access_path::prepared::Prepared;
use file_model::paths::PathSpec;
use key_pages::Key;
use member_slots::members::Members;
use path_entrants::entrant::SpecEntrant;
use path_entrants::repeated::least_repeated;
use std::alloc::{AllocError, Global};
use std::marker::Model;

/// Paths by their numbers, each once. Beside them, contracts see the room of each.
#[derive(Drop)]
pub struct PathSet {
    pub(crate) alloc: Global,
    pub(crate) paths: Vec<Kept>,
    /// Which of them are over which members.
    pub(crate) by_member: Vec<PathOver>,
}

impl Model for PathSet {
    ghost use Rattle.path_set.specs.KeptPaths.{KeptPaths};
    ghost use Rattle.path_set.specs.Entries.{paths_of, AreKept};
    ghost use Rattle.path_set.specs.ByMember.{AreIndexed};

    ghost Value = { KeptPaths };

    ghost view = { λ s. paths_of s.paths.items };

    ghost invariant = { λ s. AreKept s.paths.items × AreIndexed s.paths.items s.by_member.items };
}

impl PathSet {
    /// No paths. It keeps the allocator.
    pub fn new(alloc: Global) -> PathSet
        ensures { result ≡ record { paths = []; rooms = [] } }
    {
        PathSet {
            alloc,
            paths: Vec::new(alloc),
            by_member: Vec::new(alloc),
        }
    }

    /// How many paths are kept: as many as there are different specifications that files have.
    pub fn kept(&self) -> u32
        ensures count { result ≡ length self.now.paths }
        ensures shared { AreShared self.now.paths }
        ensures rooms { HaveRooms self.now }
    {
        self.paths.len() as u32
    }

    /// The number of the path with that specification.
    pub fn number_of(&self, spec: &PathSpec) -> Option<u64>
        ensures { MatchOption result (IsNew spec.now self.now.paths) (λ id. (path : KeptPath) × (item_at id self.now.paths ≡ Some path) × (path.spec ≡ spec.now)) }
    {
        match place_of_spec(&self.paths, spec) {
            Some(place) => Some(self.paths[place].id),
            None => None,
        }
    }

    /// Gives a file its path, and answers the path's number. A path that isn't kept yet is made of the members, with
    /// memory for so many undos; where a path has more files than can be counted, memory counts as exhausted.
    pub fn attach(&mut self, spec: PathSpec, members: &Members, held: u32) -> Result<u64, PathFault>
        requires { CanBeKept spec members.now.members }
        ensures attached { IfOk result (λ id. IsShared spec id self.old.paths self.new.paths ⊎ IsPut spec members.now.members id self.old.paths self.new.paths) }
        ensures room { IfOk result (λ id. IsNew spec self.old.paths → held * length spec.formats ≤ spare_of id self.new) }
        ensures unique { OnOk result (TellsRepeated spec members.now.members → IsNew spec self.old.paths → repeated_in spec members.now.members ≡ None) }
        ensures equal { (rrn : ℕ) → TellsRepeated spec members.now.members → IsErrOf result (PathFault.Equal rrn) → IsNew spec self.old.paths × (repeated_in spec members.now.members ≡ Some rrn) }
        ensures rooms { (id : ℕ) → spare_of id self.old ≤ spare_of id self.new }
        ensures refused { OnErr result (self.new ≡ self.old) }
    {
        if let Some(id) = self.share(&spec)? {
            return Ok(id);
        }
        let by = SpecEntrant::new(spec);
        let path = path_over(self.alloc, &by, members, held)?;
        if let Some(rrn) = equal_keys(&by, &path) {
            return Err(PathFault::Equal { rrn });
        }
        let id = self.put(by, path)?;
        Ok(id)
    }

    /// Gives a file its path, as `attach` does, where no record is changed and no two keys are equal that may not be.
    pub fn restore(&mut self, spec: PathSpec, members: &Members) -> Result<u64, AllocError>
        requires { CanBeKept spec members.now.members }
        ensures attached { IfOk result (λ id. IsShared spec id self.old.paths self.new.paths ⊎ IsPut spec members.now.members id self.old.paths self.new.paths) }
        ensures rooms { (id : ℕ) → spare_of id self.old ≤ spare_of id self.new }
        ensures refused { OnErr result (self.new ≡ self.old) }
    {
        if let Some(id) = self.share(&spec)? {
            return Ok(id);
        }
        let by = SpecEntrant::new(spec);
        let path = path_over(self.alloc, &by, members, 0)?;
        let id = self.put(by, path)?;
        Ok(id)
    }

    /// Gives a file the path of a specification that is kept.
    fn share(&mut self, spec: &PathSpec) -> Result<Option<u64>, AllocError>
        ensures shared { MatchResult result
            (λ id. MatchOption id (IsNew spec.now self.old.paths × (self.new ≡ self.old)) (λ id. IsShared spec.now id self.old.paths self.new.paths)) (λ _. self.new ≡ self.old) }
        ensures rooms { self.new.rooms ≡ self.old.rooms }
    {
        match place_of_spec(&self.paths, spec) {
            Some(place) => Ok(Some(self.paths[place].add_file()?)),
            None => Ok(None),
        }
    }

    /// Keeps a path for one file, under the least free number.
    fn put(&mut self, by: SpecEntrant, path: Path) -> Result<u64, AllocError>
        requires falling { path.falling ≡ is_falling by.ties }
        requires absent { IsNew by self.old.paths }
        ensures number { IfOk result (λ id. IsLeastFree id self.old.paths) }
        ensures paths { IfOk result (λ id. self.new.paths ≡ put_item id (record { spec = by; files = 1; entries = path.entries }) self.old.paths) }
        ensures room { IfOk result (λ id. spare_of id self.new ≡ path.spare) }
        ensures rooms { (id : ℕ) → spare_of id self.old ≤ spare_of id self.new }
        ensures refused { OnErr result (self.new ≡ self.old) }
    {
        if self.paths.len() >= MOST_PATHS {
            return Err(AllocError);
        }
        let place = first_free(&self.paths);
        let id = place as u64;
        self.paths.reserve(1)?;
        add_path(&mut self.by_member, by.spec(), id)?;
        let files = 1;
        let kept = Kept {
            id,
            by,
            files,
            path,
        };
        insert_kept(&mut self.paths, place, kept);
        Ok(id)
    }

    /// Takes a file's path from it. The path goes with its last file.
    pub fn detach(&mut self, id: u64)
        ensures paths { self.new.paths ≡ detached id self.old.paths }
        ensures rooms { (other : ℕ) → IsSome (item_at other self.new.paths) → spare_of other self.new ≡ spare_of other self.old }
    {
        match place_of(&self.paths, id) {
            Ok(place) if self.paths[place].files > 1 => self.paths[place].files -= 1,
            Ok(place) => {
                self.paths.remove(place);
                remove_path(&mut self.by_member, id);
            }
            Err(_) => {}
        }
    }

    /// Prepares a change of the record of this number in each path of the member, and its undoing, and sets memory aside
    /// for the undos that are held, this one and one more. The entries stay. It looks at no other path.
    pub fn prepare(
        &mut self,
        member: u32,
        rrn: u32,
        old: Option<&[u8]>,
        new: Option<&[u8]>,
        held: u32,
    ) -> Result<Moves, AllocError>
        requires old { TakeImage member (option_copied old) self.old.paths }
        requires new { TakeImage member (option_copied new) self.old.paths }
        ensures moves { IfOk result (λ moves. moves ≡ moves_in (record { member = member; rrn = rrn; old = option_copied old.entry; new = option_copied new.entry }) self.old.paths) }
        ensures room { OnOk result (HaveRoom member (held + 2) self.new) }
        ensures paths { self.new.paths ≡ self.old.paths }
        ensures rooms { (id : ℕ) → spare_of id self.old ≤ spare_of id self.new }
    {
        let mut moves = Moves::new(self.alloc);
        let asked = Asked {
            member,
            rrn,
            old,
            new,
            held,
        };
        self.prepare_more(asked, &mut moves)?;
        Ok(moves)
    }

    /// Prepares a change in each path of the member, as `prepare` does, behind other moves.
    pub(crate) fn prepare_more(
        &mut self,
        asked: Asked<'_>,
        moves: &mut Moves,
    ) -> Result<(), AllocError>
        requires old { TakeImage asked.member (option_copied asked.old) self.old.paths }
        requires new { TakeImage asked.member (option_copied asked.new) self.old.paths }
        ensures moves { OnOk result (moves.new ≡ moves.old ++ moves_in (change_of asked.entry) self.old.paths) }
        ensures room { OnOk result (HaveRoom asked.entry.member (asked.entry.held + 2) self.new) }
        ensures paths { self.new.paths ≡ self.old.paths }
        ensures rooms { (id : ℕ) → spare_of id self.old ≤ spare_of id self.new }
    {
        let over = paths_of_member(&self.by_member, asked.member);
        prepare_each(&mut self.paths, over, asked, moves)?;
        Ok(())
    }

    /// Does a prepared change and gives the opposite. It takes no memory.
    pub fn change(&mut self, moves: Moves) -> Moves
        requires { CanBeMade moves self.old }
        ensures paths { self.new.paths ≡ paths_after moves self.old.paths }
        ensures opposite { result ≡ opposites moves }
        ensures rooms { (id : ℕ) → spare_of id self.old ≤ spare_of id self.new + count_in id moves }
    {
        let Moves { mut items } = moves;
        for turn in 0..items.len() {
            let PathMove { id, change } = items.pop_front().unwrap();
            let change = self.change_path(id, change);
            items.push_back_reserved(PathMove { id, change });
        }
        Moves { items }
    }

    /// Does a prepared change in one path and gives the opposite.
    pub(crate) fn change_path(&mut self, id: u64, change: Prepared) -> Prepared
        requires there { IsSome (item_at id self.old.paths) }
        requires fits { IfSome (item_at id self.old.paths) (λ path. FitsIn (is_falling path.spec.ties) change path.entries) }
        requires spare { 1 ≤ spare_of id self.old }
        ensures paths { self.new.paths ≡ paths_after (record { id = id; change = change } ∷ []) self.old.paths }
        ensures opposite { result ≡ opposite change }
        ensures rooms { (other : ℕ) → spare_of other self.old ≤ spare_of other self.new + count_in other (record { id = id; change = change } ∷ []) }
    {
        let place = place_of_kept(&self.paths, id);
        self.paths[place].path.change(change)
    }

    /// The key that a format of the path has of an image, where it selects it. There is none where no path has the number.
    pub fn key(
        &self,
        alloc: Global,
        id: u64,
        format: u16,
        image: &[u8],
    ) -> Result<Option<Key>, AllocError>
        requires { IfSome (item_at id self.now.paths) (λ path. CanBeAsked path.spec.formats format image.now) }
        ensures { IfOk result (λ key. MatchOption (item_at id self.now.paths) (key ≡ None) (λ path. key ≡ keys_of path.spec.formats format image.now)) }
    {
        match place_of(&self.paths, id) {
            Ok(place) => self.paths[place].by.key(alloc, format, image),
            Err(_) => Ok(None),
        }
    }
}

impl Paths for PathSet {
    ghost use Rattle.path_set.specs.KeptPaths.{pages_at};

    ghost paths = { pages_at };

    fn path(&self, id: u64) -> Option<&Path> {
        match place_of(&self.paths, id) {
            Ok(place) => Some(&self.paths[place].path),
            Err(_) => None,
        }
    }
}

/// The least record that has an equal later one, where the path may have none.
pub(crate) fn equal_keys(by: &SpecEntrant, path: &Path) -> Option<u32>
    ensures { result ≡ (if by.now.unique then least_repeated path.now.entries path.now.entries else None) }
{
    if by.spec().unique {
        least_repeated(path)
    } else {
        None
    }
}
