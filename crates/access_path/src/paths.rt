//! Kept paths by their numbers.
ghost use Rattle.std.specs.Prelude.{◌≡◌, ℕ, Option};
ghost use Rattle.std.specs.Option.{option_copied};
ghost use Rattle.key_order.specs.EntryList.{EntryList};

use crate::path::Path;

/// The paths that are kept.
pub trait Paths {
    ghost use Rattle.key_order.specs.EntryList.{EntryList};

    /// The path of each number, where there is one.
    ghost paths: { Self → ℕ → Option EntryList };

    fn path(&self, id: u64) -> Option<&Path>
        ensures { option_copied result ≡ paths self.now id };
}
