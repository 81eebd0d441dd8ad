//! Laws of the rows of a join file, as contracts of functions that do nothing.
ghost use Rattle.std.specs.Prelude.{◌≡◌, ℕ, ◌+◌, Bool, false, List, [], ◌∷◌, ◌++◌, map, filter, All, Option, Some, None};
ghost use Rattle.std.specs.List.Sorted.{IsStrictlySortedBy};
ghost use Rattle.std.specs.Option.{option_map};
ghost use Rattle.field_types.specs.declared.kinds.FieldType.{FieldType};
ghost use Rattle.field_types.specs.declared.values.Value.{Value};
ghost use Rattle.field_values.specs.FieldBytes.{held};
ghost use Rattle.member_slots.specs.Members.{NumberedMembers, AreMembers};
ghost use Rattle.access_path.specs.KeptEntries.{entry_with};
ghost use Rattle.access_path.specs.PathBytes.{in_bytes};
ghost use Rattle.key_pages.specs.declared.entries.Entry.{Entry};
ghost use Rattle.key_pages.specs.EntryList.{EntryList};
ghost use Rattle.key_pages.specs.Order.{IsInOrder};
ghost use Rattle.file_model.specs.declared.joins.JoinSpec.{JoinSpec};
ghost use Rattle.file_model.specs.declared.joins.Secondary.{Secondary};
ghost use Rattle.file_model.specs.declared.rules.Relation.TheVariants.{Equals};
ghost use Rattle.file_model.specs.KeyOrder.{KeyValue};
ghost use Rattle.file_model.specs.Joins.{Match, RecordAt, RowPlace, JoinRow, image_in, compare_matches, compare_places, matches_of, rows_of, secondary_path};
ghost use Rattle.file_model.specs.Positions.{Position, next_from, prior_from};
ghost use Rattle.file_model.specs.Selection.{is_related};
ghost use Rattle.access_path.specs.KeyFields.{AreBytes};
ghost use Rattle.join_rows.specs.declared.positions.MatchPlace.{MatchPlace};
ghost use Rattle.join_rows.specs.Rows.{CanBeRead, IsPlace, found_row};
ghost use Rattle.join_rows.specs.Standing.{CanBeStoodOn, AreKept};
ghost use Rattle.join_rows.specs.Levels.{isnt_before, isnt_after};
ghost use Rattle.join_rows.specs.Places.{AreJoinable, IsPathOf, IsFrom, IsSequence, key_from, number_from, sequence_bytes};
ghost use Rattle.join_rows.specs.NextRow.{rows_reading, next_row, prior_row, match_of, next_by_levels, prior_by_levels};
ghost use Rattle.join_rows.specs.Numbers.{matched_number};
ghost use Rattle.join_rows.specs.Search.{begins_with, is_match_after, is_match_before, next_match};
ghost use Rattle.join_rows.specs.Wanted.{sought_in, is_wanted};
ghost use Rattle.join_rows.specs.WantedBytes.{wanted_bytes};

/// Each row of a join file comes before those after it, so none is there twice.
pub fn rows_are_in_order()
    ensures { (spec : JoinSpec) (members : NumberedMembers) → IsStrictlySortedBy (compare_places spec.primary.ties) (map (λ row. row.place) (rows_of spec members)) }
{}

/// The first row after a position is found level by level, and so is the last before it.
pub fn rows_are_found_by_levels()
    ensures next { (spec : JoinSpec) (members : NumberedMembers) (position : Position RowPlace) → next_row spec members position ≡ next_by_levels spec members position }
    ensures prior { (spec : JoinSpec) (members : NumberedMembers) (position : Position RowPlace) → prior_row spec members position ≡ prior_by_levels spec members position }
    ensures next_place { (spec : JoinSpec) (members : NumberedMembers) (position : Position RowPlace)
        → option_map (λ row. row.place) (next_row spec members position) ≡ next_from (rows_reading spec members) position }
    ensures prior_place { (spec : JoinSpec) (members : NumberedMembers) (position : Position RowPlace)
        → option_map (λ row. row.place) (prior_row spec members position) ≡ prior_from (rows_reading spec members) position }
{}

/// A field has a value of JFLD exactly where it holds that which is looked for.
pub fn joined_values_are_held()
    ensures { (t : FieldType) (from : Option Value) (to : Value) (bytes : List ℕ) → held t bytes ≡ Some to → is_related Equals from (Some to) ≡ is_wanted (sought_in t from) to }
{}

/// The records of a secondary file that a row is joined to are the entries of its path whose keys begin with the bytes
/// that are wanted, in the order of the path. Those from a position on are those after a key and a number, and those up to
/// a record are those before one.
pub fn joined_records_are_entries()
    ensures none { (file : Secondary) (members : NumberedMembers) (row : JoinRow) → AreJoinable file members → AreBytes (image_in file.from row.images)
        → wanted_bytes file.pairs (image_in file.from row.images) ≡ None → matches_of file members row ≡ [] }
    ensures all { (file : Secondary) (members : NumberedMembers) (row : JoinRow) → AreJoinable file members → AreBytes (image_in file.from row.images)
        → (part : List ℕ) → wanted_bytes file.pairs (image_in file.from row.images) ≡ Some part → (list : EntryList) → IsPathOf list (secondary_path file) members
        → matches_of file members row ≡ map (λ entry. matched_number file members (Some entry.rrn)) (filter (begins_with part) list.entries) }
    ensures from { (file : Secondary) (members : NumberedMembers) (row : JoinRow) → AreJoinable file members → AreBytes (image_in file.from row.images)
        → (part : List ℕ) → wanted_bytes file.pairs (image_in file.from row.images) ≡ Some part → (list : EntryList) → IsPathOf list (secondary_path file) members
        → (place : Option (List Match)) → IsFrom file place
        → filter (λ m. isnt_before compare_matches place (match_of m)) (matches_of file members row)
        ≡ map (λ entry. matched_number file members (Some entry.rrn)) (filter (is_match_after false part (key_from file part place) (number_from place)) list.entries) }
    ensures until { (file : Secondary) (members : NumberedMembers) (row : JoinRow) → AreJoinable file members → AreBytes (image_in file.from row.images)
        → (part : List ℕ) → wanted_bytes file.pairs (image_in file.from row.images) ≡ Some part → (list : EntryList) → IsPathOf list (secondary_path file) members
        → (v : KeyValue) (rrn : ℕ) (rest : List Match) → IsSequence file v
        → filter (λ m. isnt_after compare_matches (Some (RecordAt v rrn ∷ rest)) (match_of m)) (matches_of file members row)
        ≡ map (λ entry. matched_number file members (Some entry.rrn)) (filter (is_match_before false part (part ++ sequence_bytes file.sequence v) (rrn + 1)) list.entries) }
{}

/// The matches after a key and a number are the next one, and those after its own key and number.
pub fn matches_follow_one_another()
    ensures some { (falling : Bool) (part key : List ℕ) (rrn : ℕ) (entries : List Entry) (found : Entry) → IsInOrder falling entries → All (λ entry. entry.format ≡ 0) entries
        → next_match falling part key rrn entries ≡ Some found
        → filter (is_match_after falling part key rrn) entries ≡ found ∷ filter (is_match_after falling part found.key found.rrn) entries }
    ensures none { (falling : Bool) (part key : List ℕ) (rrn : ℕ) (entries : List Entry) → next_match falling part key rrn entries ≡ None
        → filter (is_match_after falling part key rrn) entries ≡ [] }
{}

/// A position can be on each row that is found, and the bytes that it keeps of the row stand for the row's place.
pub fn found_rows_are_stood_on()
    ensures found { (spec : JoinSpec) (members : NumberedMembers) (primary : EntryList) (secondaries : List EntryList) → CanBeRead spec members primary secondaries → AreMembers members
        → (back : Bool) (position : Position RowPlace) (row : JoinRow) → found_row back spec members position ≡ Some row → CanBeStoodOn spec row.place }
    ensures kept { (spec : JoinSpec) (key : List ℕ) (rrn : ℕ) (places : List MatchPlace) (place : RowPlace) → CanBeStoodOn spec place
        → in_bytes spec.primary.formats place.primary ≡ entry_with 0 rrn key → AreKept spec.secondaries places place.matches → IsPlace spec key rrn places place }
{}
