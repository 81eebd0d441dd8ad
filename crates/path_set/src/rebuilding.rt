//! Paths made anew where a member loses its records or their numbers, first beside the old ones, then in their places.
ghost use Rattle.std.specs.Prelude.{◌≡◌, ◌*◌, ◌≤◌, ℕ, [], ◌∷◌, ◌++◌, IsSome, IfOk, OnOk, length};
ghost use Rattle.member_slots.specs.Members.{NumberedMembers, member_at, with_member};
ghost use Rattle.access_path.specs.PathBytes.{is_falling};
ghost use Rattle.path_set.specs.KeptPaths.{entries_of};
ghost use Rattle.path_set.specs.RecordChanges.{HaveRoom};
ghost use Rattle.path_set.specs.Sharing.{CanBeKept};
ghost use Rattle.path_set.specs.MemberSteps.{paths_over};
ghost use Rattle.path_set.specs.RebuiltPaths.{CanBeRebuilt, AreRebuilt, HaveTies, kept_with, IsAdded};
ghost use Rattle.path_set.specs.Entries.{numbered, path_of};

use crate::by_member::paths_of_member;
use crate::kept::{Kept, inserts, is_falling, place_of, place_of_kept};
use crate::set::PathSet;
use access_path::entrant::Entrant;
use access_path::path::Path;
use member_slots::member::Member;
use member_slots::members::Members;
use path_entrants::entrant::SpecEntrant;
use std::alloc::{AllocError, Global};
use std::marker::Model;

/// A path made anew, for the path of its number.
#[derive(Drop)]
pub struct RebuiltPath {
    id: u64,
    path: Path,
}

impl Model for RebuiltPath {
    ghost use Rattle.key_pages.specs.EntryList.{EntryList};
    ghost use Rattle.member_slots.specs.Members.{Numbered};

    ghost Value = { Numbered EntryList };

    ghost view = { λ r. record { number = r.id; item = r.path } };
}

/// The paths of a member made anew. Contracts see their pages by number.
#[derive(Drop)]
pub struct Rebuilt {
    items: Vec<RebuiltPath>,
}

impl Model for Rebuilt {
    ghost use Rattle.std.specs.Prelude.{List};
    ghost use Rattle.key_pages.specs.EntryList.{EntryList};
    ghost use Rattle.member_slots.specs.Members.{Numbered};

    ghost Value = { List (Numbered EntryList) };

    ghost view = { λ r. r.items.items };
}

impl Rebuilt {
    fn new(alloc: Global) -> Rebuilt
        ensures { result ≡ [] }
    {
        Rebuilt {
            items: Vec::new(alloc),
        }
    }

    /// One path more.
    fn push(&mut self, id: u64, path: Path) -> Result<(), AllocError>
        ensures { OnOk result (self.new ≡ self.old ++ record { number = id; item = path } ∷ []) }
    {
        self.items.push(RebuiltPath { id, path })?;
        Ok(())
    }
}

impl PathSet {
    /// Makes each path over the member anew, of the members with this one in the place of the member of the number, and
    /// with memory for so many undos. The paths that are kept stay. Of a member without records a path takes no memory
    /// for entries.
    pub fn prepare_rebuild(
        &self,
        members: &Members,
        number: u32,
        member: &Member,
        held: u32,
    ) -> Result<Rebuilt, AllocError>
        requires there { IsSome (member_at number members.now.members) }
        requires can { CanBeRebuilt number (with_member number member.now.state members.now.members) self.now.paths }
        ensures { IfOk result (λ rebuilt. AreRebuilt (with_member number member.now.state members.now.members) held (paths_over number self.now.paths) rebuilt) }
    {
        let mut rebuilt = Rebuilt::new(self.alloc);
        let over = paths_of_member(&self.by_member, number);
        for turn in 0..over.len() {
            let place = place_of_kept(&self.paths, over[turn].id);
            let kept = &self.paths[place];
            add_rebuilt(
                self.alloc,
                kept,
                members,
                number,
                member,
                held,
                &mut rebuilt,
            )?;
        }
        Ok(rebuilt)
    }

    /// Puts paths made anew in the places of the old ones. It takes no memory.
    pub fn rebuild(&mut self, rebuilt: Rebuilt)
        requires { HaveTies rebuilt self.old.paths }
        ensures put { self.new ≡ kept_with rebuilt self.old }
        ensures room { (number held : ℕ) (members : NumberedMembers) → AreRebuilt members held (paths_over number self.old.paths) rebuilt → HaveRoom number held self.new }
    {
        // What holds of all kept paths.
        let _ = self.kept();
        let Rebuilt { mut items } = rebuilt;
        // The last first: where a number is there twice, the first path is the one that stays.
        while let Some(new) = items.pop() {
            self.put_rebuilt(new);
        }
    }

    /// Puts one path in the place of the old one, where a path has its number.
    fn put_rebuilt(&mut self, new: RebuiltPath)
        requires { HaveTies (new ∷ []) self.old.paths }
        ensures { self.new ≡ kept_with (new ∷ []) self.old }
    {
        let RebuiltPath { id, path } = new;
        match place_of(&self.paths, id) {
            Ok(place) => self.paths[place].path = path,
            Err(_) => {}
        }
    }
}

/// Makes a path anew and adds it.
fn add_rebuilt(
    alloc: Global,
    kept: &Kept,
    members: &Members,
    number: u32,
    member: &Member,
    held: u32,
    rebuilt: &mut Rebuilt,
) -> Result<(), AllocError>
    requires there { IsSome (member_at number members.now.members) }
    requires can { CanBeKept kept.now.by (with_member number member.now.state members.now.members) }
    ensures { OnOk result (IsAdded (with_member number member.now.state members.now.members) held (numbered path_of kept.now) rebuilt.old rebuilt.new) }
{
    let path = path_with(alloc, &kept.by, members, number, member, held)?;
    rebuilt.push(kept.id, path)
}

/// The path of a specification over the members with one in another state, with memory for the moves of so many changes.
fn path_with(
    alloc: Global,
    by: &SpecEntrant,
    members: &Members,
    number: u32,
    member: &Member,
    held: u32,
) -> Result<Path, AllocError>
    requires there { IsSome (member_at number members.now.members) }
    requires can { CanBeKept by.now (with_member number member.now.state members.now.members) }
    ensures entries { IfOk result (λ path. path.entries ≡ entries_of by.now (with_member number member.now.state members.now.members)) }
    ensures falling { IfOk result (λ path. path.falling ≡ is_falling by.now.ties) }
    ensures room { IfOk result (λ path. held * length by.now.formats ≤ path.spare) }
{
    let mut path = Path::new(alloc, is_falling(by.spec().ties));
    path.rebuild_with(by, members, number, member)?;
    path.reserve(inserts(held, by.formats())?)?;
    Ok(path)
}
