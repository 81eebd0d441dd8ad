//! Laws of the entries of kept paths, as contracts of functions that do nothing.
ghost use Rattle.std.specs.Prelude.{◌≡◌, ◌+◌, ℕ, Bool, List, [], ◌∷◌, ◌++◌, length, map};
ghost use Rattle.member_slots.specs.declared.slot.Slot.{Slot};
ghost use Rattle.member_slots.specs.declared.slot.Slot.TheVariants.{Deleted};
ghost use Rattle.key_order.below.key_pages.specs.declared.entries.Entry.{Entry};
ghost use Rattle.key_order.specs.Order.{IsInOrder};
ghost use Rattle.access_path.specs.KeptEntries.{KeyOf, slot_key, kept};
ghost use Rattle.member_slots.specs.Members.{NumberedMembers};
ghost use Rattle.key_order.below.file_model.specs.declared.paths.PathSpec.{PathSpec};
ghost use Rattle.key_order.specs.Paths.{path};
ghost use Rattle.access_path.specs.PathBytes.{is_falling, AreKeysFrom, members_of, in_bytes, IsInBytes};
ghost use Rattle.access_path.specs.Rebuilding.{member_slots};
ghost use Rattle.access_path.specs.Moves.{Move, opposite, moved, FitsIn};

/// The entries of a path are in order, and none is there twice.
pub fn kept_entries_are_in_order()
    ensures { (keys : KeyOf) (falling : Bool) (slots : List (List Slot)) → IsInOrder falling (kept keys falling slots) }
{}

/// A path over slots of which one is changed, under a format, is the path before with that record's entry moved.
pub fn path_follows_a_move()
    ensures fits { (keys : KeyOf) (falling : Bool) (before after : List (List Slot)) (front back : List Slot) (old new : Slot)
        → FitsIn falling (record { format = length before; rrn = 1 + length front; old = slot_key (keys (length before)) old; new = slot_key (keys (length before)) new })
        (kept keys falling (before ++ (front ++ old ∷ back) ∷ after)) }
    ensures moved { (keys : KeyOf) (falling : Bool) (before after : List (List Slot)) (front back : List Slot) (old new : Slot)
        → moved falling (record { format = length before; rrn = 1 + length front; old = slot_key (keys (length before)) old; new = slot_key (keys (length before)) new })
        (kept keys falling (before ++ (front ++ old ∷ back) ∷ after)) ≡ kept keys falling (before ++ (front ++ new ∷ back) ∷ after) }
{}

/// A move and then its opposite leave the entries as they were.
pub fn opposite_undoes_a_move()
    ensures fits { (falling : Bool) (m : Move) (entries : List Entry) → IsInOrder falling entries → FitsIn falling m entries
        → FitsIn falling (opposite m) (moved falling m entries) }
    ensures undone { (falling : Bool) (m : Move) (entries : List Entry) → IsInOrder falling entries → FitsIn falling m entries
        → moved falling (opposite m) (moved falling m entries) ≡ entries }
{}

/// A deleted slot behind the last one makes no difference, so that a record that is added is a move too.
pub fn deleted_slot_at_the_end()
    ensures { (keys : KeyOf) (falling : Bool) (before after : List (List Slot)) (slots : List Slot)
        → kept keys falling (before ++ (slots ++ Deleted ∷ []) ∷ after) ≡ kept keys falling (before ++ slots ∷ after) }
{}

/// Where the keys are those of a file's formats, the kept entries are the file's access path in bytes.
pub fn kept_entries_are_the_path()
    ensures { (spec : PathSpec) (members : NumberedMembers) (keys : KeyOf) → IsInBytes spec members → AreKeysFrom keys 0 spec.formats
        → kept keys (is_falling spec.ties) (member_slots (members_of spec.formats) members) ≡ map (in_bytes spec.formats) (path spec members) }
{}
