//! The files to which members belong, by the members' numbers.
ghost use Rattle.std.specs.Prelude.{◌≡◌, ◌≤◌, ℕ, None, Some, nat_eq, length, if◌then◌else◌};
ghost use Rattle.indexmap.specs.IndexMap.{get, spare};
ghost use Rattle.lawful_states.specs.Owners.{has_number};

use crate::members::Members;
use field_types::names::Name;
use indexmap::IndexMap;

/// The members belong to that file.
pub(crate) fn add_owned(owners: &mut IndexMap<u32, Name>, file: Name, members: &Members)
    requires { length members.now ≤ spare owners.old }
    ensures { (number : ℕ) → get nat_eq owners.new number ≡ (if has_number number members.now then Some file else get nat_eq owners.old number) }
{
    for (_, status) in members.as_slice() {
        let _replaced = owners.insert(status.number(), file).unwrap();
    }
}

/// The members belong to no file.
pub(crate) fn remove_owned(owners: &mut IndexMap<u32, Name>, members: &Members)
    ensures { (number : ℕ) → get nat_eq owners.new number ≡ (if has_number number members.now then None else get nat_eq owners.old number) }
{
    for (_, status) in members.as_slice() {
        let _owner = owners.swap_remove(&status.number());
    }
}
