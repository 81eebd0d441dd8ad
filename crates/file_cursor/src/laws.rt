//! Laws of what is found, as contracts of functions that do nothing.
ghost use Rattle.std.specs.Prelude.{◌≡◌, ◌≤◌, length, ℕ, false, List, [], ◌∷◌, All, map};
ghost use Rattle.std.specs.Option.{option_map};
ghost use Rattle.key_spec.specs.declared.KeyPart.{KeyPart};
ghost use Rattle.file_cursor.specs.Reading.{arrival_entries, AreNumbered};
ghost use Rattle.member_slots.specs.Member.{MemberState, IsMember};
ghost use Rattle.member_slots.specs.Members.{NumberedMembers, member_of};
ghost use Rattle.file_model.specs.declared.paths.PathFormat.{PathFormat};
ghost use Rattle.file_model.specs.declared.paths.PathSpec.{PathSpec};
ghost use Rattle.key_pages.specs.EntryList.{EntryList};
ghost use Rattle.key_spec.specs.declared.Ties.TheVariants.{Rising};
ghost use Rattle.file_model.specs.KeyOrder.{KeyValue};
ghost use Rattle.file_model.specs.Paths.{PathEntry, path};
ghost use Rattle.file_model.specs.Positions as model;
ghost use Rattle.access_path.specs.KeyBytes.{key_bytes};
ghost use Rattle.access_path.specs.KeyFields.{Matches};
ghost use Rattle.access_path.specs.PathBytes.{is_falling, in_bytes, IsInBytes};
ghost use Rattle.file_cursor.specs.Finding.{next_from, prior_from, next_equal, prior_equal, chain_key, chain_number};
ghost use Rattle.file_cursor.specs.PositionBytes.{IsEntryOf, AreGiven, IsPositionOf, position_in_bytes, IsArrivalPosition, position_by_number, by_number, HasKeysWithin};

/// Among the bytes of the entries of a path a read finds the bytes of what it finds among the entries. The values may be
/// given for the positions of several formats together.
pub fn bytes_are_found_as_entries()
    ensures next { (spec : PathSpec) (members : NumberedMembers) (parts : List KeyPart) (position : model.Position PathEntry)
        → IsInBytes spec members → All (λ key. Matches key parts) (map (λ format. format.key) spec.formats) → IsPositionOf spec.formats parts position
        → next_from (is_falling spec.ties) (map (in_bytes spec.formats) (path spec members)) (position_in_bytes spec.formats parts position)
        ≡ option_map (in_bytes spec.formats) (model.next_from (model.path_reading spec.ties (path spec members)) position) }
    ensures prior { (spec : PathSpec) (members : NumberedMembers) (parts : List KeyPart) (position : model.Position PathEntry)
        → IsInBytes spec members → All (λ key. Matches key parts) (map (λ format. format.key) spec.formats) → IsPositionOf spec.formats parts position
        → prior_from (is_falling spec.ties) (map (in_bytes spec.formats) (path spec members)) (position_in_bytes spec.formats parts position)
        ≡ option_map (in_bytes spec.formats) (model.prior_from (model.path_reading spec.ties (path spec members)) position) }
    ensures next_equal { (spec : PathSpec) (members : NumberedMembers) (parts : List KeyPart) (values : List KeyValue) (position : model.Position PathEntry)
        → IsInBytes spec members → All (λ key. Matches key parts) (map (λ format. format.key) spec.formats) → AreGiven parts values → IsPositionOf spec.formats parts position
        → next_equal (is_falling spec.ties) (map (in_bytes spec.formats) (path spec members)) (key_bytes parts values) (position_in_bytes spec.formats parts position)
        ≡ option_map (in_bytes spec.formats) (model.next_equal (model.path_reading spec.ties (path spec members)) values position) }
    ensures prior_equal { (spec : PathSpec) (members : NumberedMembers) (parts : List KeyPart) (values : List KeyValue) (position : model.Position PathEntry)
        → IsInBytes spec members → All (λ key. Matches key parts) (map (λ format. format.key) spec.formats) → AreGiven parts values → IsPositionOf spec.formats parts position
        → prior_equal (is_falling spec.ties) (map (in_bytes spec.formats) (path spec members)) (key_bytes parts values) (position_in_bytes spec.formats parts position)
        ≡ option_map (in_bytes spec.formats) (model.prior_equal (model.path_reading spec.ties (path spec members)) values position) }
    ensures chain { (spec : PathSpec) (members : NumberedMembers) (parts : List KeyPart) (values : List KeyValue)
        → IsInBytes spec members → All (λ key. Matches key parts) (map (λ format. format.key) spec.formats) → AreGiven parts values
        → chain_key (key_bytes parts values) (map (in_bytes spec.formats) (path spec members))
        ≡ option_map (in_bytes spec.formats) (model.chain_key (model.path_reading spec.ties (path spec members)) values) }
    ensures chain_number { (spec : PathSpec) (members : NumberedMembers) (n : ℕ)
        → chain_number n (map (in_bytes spec.formats) (path spec members))
        ≡ option_map (in_bytes spec.formats) (model.chain_number (model.path_reading spec.ties (path spec members)) n) }
    ensures entries { (spec : PathSpec) (members : NumberedMembers) → IsInBytes spec members → All (IsEntryOf spec.formats) (path spec members) }
{}

/// In arrival order a read finds what it finds among the records.
pub fn numbers_are_found_as_records()
    ensures next { (member : MemberState) (position : model.Position PathEntry) → IsArrivalPosition position
        → next_from false (arrival_entries member) (position_by_number position) ≡ option_map by_number (model.next_from (model.arrival_reading member) position) }
    ensures prior { (member : MemberState) (position : model.Position PathEntry) → IsArrivalPosition position
        → prior_from false (arrival_entries member) (position_by_number position) ≡ option_map by_number (model.prior_from (model.arrival_reading member) position) }
    ensures chain { (member : MemberState) (n : ℕ) → chain_number n (arrival_entries member) ≡ option_map by_number (model.chain_number (model.arrival_reading member) n) }
{}

/// The entries of a path of one format without keys stand by their numbers.
pub fn entries_without_keys_stand_by_number()
    ensures { (spec : PathSpec) (format : PathFormat) (members : NumberedMembers) (list : EntryList)
        → spec.formats ≡ format ∷ [] → format.key ≡ [] → spec.ties ≡ Rising → IsMember (member_of format.member members)
        → list.entries ≡ map (in_bytes spec.formats) (path spec members) → list.falling ≡ is_falling spec.ties → AreNumbered list }
{}

/// What a read of a path finds fits a cursor with room for the keys of its formats.
pub fn found_keys_fit()
    ensures { (most : ℕ) (spec : PathSpec) (members : NumberedMembers) → All (HasKeysWithin most members) spec.formats
        → All (λ entry. length entry.key ≤ most) (map (in_bytes spec.formats) (path spec members)) }
{}
