//! Several changes of a member's records, one after another, and their undoing.
ghost use Rattle.std.specs.Prelude.{◌≡◌, ◌+◌, ◌*◌, ◌≤◌, ℕ, All, IfOk, OnOk, length, map, reverse};
ghost use Rattle.path_set.specs.KeptPaths.{spare_of};
ghost use Rattle.path_set.specs.RecordChanges.{moves_in, opposites, paths_after, CanBeMade, HaveRoom, count_in};
ghost use Rattle.path_set.specs.ManyChanges.{change_in, TakeImages, moves_of_all};

use crate::kept::Asked;
use crate::moves::{ImageChange, Moves, PathMove};
use crate::set::PathSet;
use std::alloc::AllocError;

impl PathSet {
    /// Prepares changes of the member's records, each from what the ones before it leave, and their undoing, and sets
    /// memory aside for the undos that are held, the changes and their undoing. The entries stay.
    pub fn prepare_all(
        &mut self,
        member: u32,
        changes: &[ImageChange<'_>],
        held: u32,
    ) -> Result<Moves, AllocError>
        requires { All (TakeImages member self.old.paths) changes.now }
        ensures moves { IfOk result (λ moves. moves ≡ moves_of_all (map (change_in member) changes.now) self.old.paths) }
        ensures room { OnOk result (1 ≤ length changes.now → HaveRoom member (held + 2 * length changes.now) self.new) }
        ensures paths { self.new.paths ≡ self.old.paths }
        ensures rooms { (id : ℕ) → spare_of id self.old ≤ spare_of id self.new }
    {
        let mut moves = Moves::new(self.alloc);
        let undos = held_with(held, changes.len())?;
        for turn in 0..changes.len() {
            let change = changes[turn];
            let asked = Asked {
                member,
                rrn: change.rrn,
                old: change.old,
                new: change.new,
                held: undos,
            };
            self.prepare_more(asked, &mut moves)?;
        }
        Ok(moves)
    }

    /// Does prepared changes, the last one first, and gives the opposites in the order of the moves. So it takes back what
    /// `change` has given the opposites of. It takes no memory.
    pub fn change_back(&mut self, moves: Moves) -> Moves
        requires { CanBeMade (reverse moves) self.old }
        ensures paths { self.new.paths ≡ paths_after (reverse moves) self.old.paths }
        ensures opposite { result ≡ opposites moves }
        ensures rooms { (id : ℕ) → spare_of id self.old ≤ spare_of id self.new + count_in id moves }
    {
        let Moves { mut items } = moves;
        for turn in 0..items.len() {
            let PathMove { id, change } = items.pop_back().unwrap();
            let change = self.change_path(id, change);
            items.push_front_reserved(PathMove { id, change });
        }
        Moves { items }
    }
}

/// The undos that are held, all changes but one, and as many undos.
fn held_with(held: u32, changes: usize) -> Result<u32, AllocError>
    ensures { IfOk result (λ all. 1 ≤ changes → all + 2 ≡ held + 2 * changes) }
{
    let Ok(changes) = u32::try_from(changes) else {
        return Err(AllocError);
    };
    let Some(more) = changes.saturating_sub(1).checked_mul(2) else {
        return Err(AllocError);
    };
    match held.checked_add(more) {
        Some(all) => Ok(all),
        None => Err(AllocError),
    }
}
