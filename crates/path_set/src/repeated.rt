//! Equal keys in paths that may have none.
ghost use Rattle.std.specs.Prelude.{◌≡◌, None, IfOk, IfSome, MatchOption, ℕ, ◌∷◌, []};
ghost use Rattle.std.specs.Option.{option_and_then};
ghost use Rattle.member_slots.specs.Members.{item_at};
ghost use Rattle.path_entrants.specs.Formats.{CanBeAsked};
ghost use Rattle.path_set.specs.EqualKeys.{repeated_of, first_repeated, clash_in};
ghost use Rattle.path_set.specs.Entries.{path_of};

use crate::kept::{Kept, place_of};
use crate::set::{PathSet, equal_keys};
use access_path::entrant::Entrant;
use std::alloc::{AllocError, Global};

/// A path that may have no equal keys and has some.
#[derive(Clone, Copy, PartialEq)]
pub struct Repeated {
    /// The number of the path.
    pub path: u64,
    /// The least record whose key a later one has.
    pub rrn: u32,
}

impl PathSet {
    /// The first of the paths of these numbers that may have no equal keys and has some. It looks at all entries of each
    /// path that may have none, and takes no memory.
    pub fn repeated_among(&self, ids: &[u64]) -> Option<Repeated>
        ensures { result ≡ first_repeated ids.now self.now.paths }
    {
        for turn in 0..ids.len() {
            if let Some(rrn) = self.repeated_in(ids[turn]) {
                return Some(Repeated {
                    path: ids[turn],
                    rrn,
                });
            }
        }
        None
    }

    /// The least record of the path that has an equal later one, where it may have none.
    fn repeated_in(&self, id: u64) -> Option<u32>
        ensures { result ≡ option_and_then repeated_of (item_at id self.now.paths) }
    {
        match place_of(&self.paths, id) {
            Ok(place) => {
                let kept = &self.paths[place];
                equal_keys(&kept.by, &kept.path)
            }
            Err(_) => None,
        }
    }

    /// The least other record that has the key which a format of the path would have of the image, where it selects it.
    /// There is none where no path has the number.
    pub fn clash(
        &self,
        id: u64,
        format: u16,
        image: &[u8],
        rrn: u32,
    ) -> Result<Option<u32>, AllocError>
        requires { IfSome (item_at id self.now.paths) (λ path. CanBeAsked path.spec.formats format image.now) }
        ensures { IfOk result (λ other. MatchOption (item_at id self.now.paths) (other ≡ None) (λ path. other ≡ clash_in format image.now rrn path)) }
    {
        match place_of(&self.paths, id) {
            Ok(place) => clash_at(self.alloc, &self.paths[place], format, image, rrn),
            Err(_) => Ok(None),
        }
    }
}

/// The least other record that has the key of the image in a kept path.
fn clash_at(
    alloc: Global,
    kept: &Kept,
    format: u16,
    image: &[u8],
    rrn: u32,
) -> Result<Option<u32>, AllocError>
    requires { CanBeAsked kept.now.by.formats format image.now }
    ensures { IfOk result (λ other. other ≡ clash_in format image.now rrn (path_of kept.now)) }
{
    match kept.by.key(alloc, format, image)? {
        Some(key) => Ok(kept.path.clash(&key, rrn)),
        None => Ok(None),
    }
}
