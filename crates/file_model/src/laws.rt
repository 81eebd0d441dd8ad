//! Laws of the definitions, as contracts of functions that do nothing.
ghost use Rattle.std.specs.Prelude.{◌≡◌, ◌≢◌, ◌<◌, ℕ, ◌+◌, ◌∷◌, ◌++◌, List, length, All, if◌then◌else◌};
ghost use Rattle.std.specs.Cmp.{IsTotalOrder};
ghost use Rattle.key_spec.specs.declared.Ties.{Ties};
ghost use Rattle.file_model.specs.KeyOrder.{compare_values, compare_keys};
ghost use Rattle.file_model.specs.Paths.{PathEntry, compare_entries, entry_of, entries_in, path};
ghost use Rattle.file_model.specs.Selection.{selects};
ghost use Rattle.file_model.specs.declared.paths.PathFormat.{PathFormat};
ghost use Rattle.member_slots.specs.declared.slot.Slot.{Slot};
ghost use Rattle.member_slots.specs.declared.slot.Slot.TheVariants.{Live, Deleted};
ghost use Rattle.file_model.specs.declared.paths.PathSpec.{PathSpec};
ghost use Rattle.member_slots.specs.Members.{NumberedMembers};
ghost use Rattle.std.specs.List.Sorted.{IsStrictlySortedBy};
ghost use Rattle.file_model.specs.Sorting.{in_order, put_in_order};
ghost use Rattle.std.specs.declared.cmp.Ordering.TheVariants.{Equal};
ghost use Rattle.file_model.specs.Joins.{compare_places};

/// Any two keys, entries of a path, and rows of a join can be compared.
pub fn orders_are_total()
    ensures values { IsTotalOrder compare_values }
    ensures keys { IsTotalOrder compare_keys }
    ensures entries { (ties : Ties) → IsTotalOrder (compare_entries ties) }
    ensures rows { (ties : Ties) → IsTotalOrder (compare_places ties) }
{}

/// A path with one entry more is the path without it, and the entry put in its place, wherever it stands in arrival order.
pub fn entry_is_put_in_its_place()
    ensures { (ties : Ties) (front : List PathEntry) (entry : PathEntry) (after : List PathEntry)
        → All (λ other. compare_entries ties other entry ≢ Equal) front
        → in_order (compare_entries ties) (front ++ entry ∷ after) ≡ put_in_order (compare_entries ties) entry (in_order (compare_entries ties) (front ++ after)) }
{}

/// Each entry of a path comes before those after it, so no record of a format is there twice.
pub fn paths_are_in_order()
    ensures { (spec : PathSpec) (members : NumberedMembers) → IsStrictlySortedBy (compare_entries spec.ties) (path spec members) }
{}

/// A path with a record live is the path with that record deleted, and its entry put in its place where the format
/// selects it. The format's entries stand between those of other formats.
pub fn path_follows_a_change()
    ensures { (number : ℕ) (format : PathFormat) (ties : Ties) (before after : List PathEntry) (front back : List Slot) (image : List ℕ)
        → All (λ entry. entry.format < number) before
        → in_order (compare_entries ties) (before ++ entries_in number format (front ++ Live image ∷ back) ++ after)
        ≡ (let without = in_order (compare_entries ties) (before ++ entries_in number format (front ++ Deleted ∷ back) ++ after) in
        if selects format.rules image then put_in_order (compare_entries ties) (entry_of number format (1 + length front, image)) without else without) }
{}
