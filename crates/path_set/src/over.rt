//! Which path is over a member.
ghost use Rattle.std.specs.Prelude.{◌≡◌, ◌&&◌, length};
ghost use Rattle.std.specs.Option.{option_map};
ghost use Rattle.std.specs.List.{find};
ghost use Rattle.path_set.specs.MemberSteps.{is_over, is_above, is_unique_over, paths_over};

use crate::by_member::paths_of_member;
use crate::kept::{Kept, place_of_kept};
use crate::set::PathSet;

impl PathSet {
    /// The number of the first path over a member.
    pub fn first_over(&self, member: u32) -> Option<u64>
        ensures { result ≡ option_map (λ path. path.number) (find (λ path. is_over member path.item.spec) self.now.paths) }
    {
        let over = paths_of_member(&self.by_member, member);
        if over.is_empty() {
            return None;
        }
        Some(over[0].id)
    }

    /// How many paths are over a member.
    pub fn count_over(&self, member: u32) -> usize
        ensures { result ≡ length (paths_over member self.now.paths) }
    {
        let over = paths_of_member(&self.by_member, member);
        over.len()
    }

    /// The least number of a path over a member that may have no equal keys, or the least above one that is given. It
    /// looks at the paths over the member alone.
    pub fn unique_over(&self, member: u32, after: Option<u64>) -> Option<u64>
        ensures { result ≡ option_map (λ path. path.number) (find (is_unique_over member after) self.now.paths) }
    {
        let over = paths_of_member(&self.by_member, member);
        for turn in 0..over.len() {
            let id = over[turn].id;
            let place = place_of_kept(&self.paths, id);
            if is_unique_above(&self.paths[place], after) {
                return Some(id);
            }
        }
        None
    }
}

/// Whether a path may have no equal keys, and its number comes after the one that is given, where one is.
fn is_unique_above(kept: &Kept, after: Option<u64>) -> bool
    ensures { result ≡ (kept.now.by.unique && is_above after kept.now.id) }
{
    kept.by.spec().unique && is_above(kept.id, after)
}

/// Whether a number comes after the one that is given, where one is.
fn is_above(id: u64, after: Option<u64>) -> bool
    ensures { result ≡ is_above after id }
{
    match after {
        Some(after) => after < id,
        None => true,
    }
}
