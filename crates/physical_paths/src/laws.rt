//! What holds of the access paths of physical files, as contracts of functions that do nothing.
ghost use Rattle.std.specs.Prelude.{◌≡◌, ◌≤◌, ℕ, Option, Ok, List, [], ◌∷◌, map, length, All};
ghost use Rattle.field_types.specs.declared.values.Value.{Value};
ghost use Rattle.member_slots.specs.Members.{NumberedMembers};
ghost use Rattle.record_fmt.specs.declared.formats.Format.{Format};
ghost use Rattle.dds_source.specs.declared.specifications.Source.{Source};
ghost use Rattle.dds_physical.specs.declared.physical_files.PhysicalSpec.{PhysicalSpec};
ghost use Rattle.dds_physical.specs.Physical.{physical_of};
ghost use Rattle.key_spec.specs.declared.KeyPart.{KeyPart};
ghost use Rattle.file_model.specs.FilePaths.{physical_path, key_parts};
ghost use Rattle.file_model.specs.KeyOrder.{given_key};
ghost use Rattle.access_path.below.key_order.specs.declared.widths.TheConstants.{MOST_POSITIONS};
ghost use Rattle.access_path.specs.KeyFields.{ArePositions, key_width};
ghost use Rattle.access_path.specs.GivenValues.{key_fault};
ghost use Rattle.access_path.specs.PathBytes.{IsInBytes};
ghost use Rattle.path_set.specs.Sharing.{CanBeKept};
ghost use Rattle.path_set.specs.RecordChanges.{TakesImage};
ghost use Rattle.file_cursor.specs.PositionBytes.{HasKeysWithin};
ghost use Rattle.physical_paths.specs.KeyedFiles.{IsKeyed, IsRecord, HasRecordsOf};
ghost use Rattle.std.specs.Prelude.{Some};

/// The key of a file that a source describes is by some of its fields.
pub fn described_files_are_keyed()
    ensures { (formats : List ℕ → Option Format) (source : Source) (spec : PhysicalSpec) → physical_of formats source ≡ Ok spec → IsKeyed spec }
{}

/// Every record of such a file can stand in its path, and the path of a member can be kept, with keys that are compared by their bytes.
pub fn records_stand_in_paths()
    ensures image { (spec : PhysicalSpec) (member : ℕ) (image : List ℕ) → IsKeyed spec → IsRecord spec.format.fields image → TakesImage member (Some image) (physical_path member spec.format.fields spec.keys) }
    ensures kept { (spec : PhysicalSpec) (member : ℕ) (members : NumberedMembers) → IsKeyed spec → HasRecordsOf spec.format.fields member members → CanBeKept (physical_path member spec.format.fields spec.keys) members }
    ensures bytes { (spec : PhysicalSpec) (member : ℕ) (members : NumberedMembers) → IsKeyed spec → HasRecordsOf spec.format.fields member members → IsInBytes (physical_path member spec.format.fields spec.keys) members }
    ensures within { (spec : PhysicalSpec) (member : ℕ) (members : NumberedMembers) → IsKeyed spec → HasRecordsOf spec.format.fields member members
        → All (HasKeysWithin (key_width (key_parts 0 spec.keys.parts)) members) (physical_path member spec.format.fields spec.keys).formats }
{}

/// The positions of a file's key are the same where its key fields alone stand one behind another, as in its path.
pub fn positions_stay_in_paths()
    ensures keys { (spec : PhysicalSpec) (member : ℕ) → map (λ format. format.key) (physical_path member spec.format.fields spec.keys).formats ≡ key_parts 0 spec.keys.parts ∷ [] }
    ensures allowed { (spec : PhysicalSpec) → IsKeyed spec → ArePositions (key_parts 0 spec.keys.parts) }
    ensures few { (spec : PhysicalSpec) → IsKeyed spec → length (key_parts 0 spec.keys.parts) ≤ MOST_POSITIONS }
    ensures fault { (at : ℕ) (parts : List KeyPart) (values : List Value) → key_fault (key_parts at parts) values ≡ key_fault parts values }
    ensures given { (at : ℕ) (parts : List KeyPart) (values : List Value) → given_key (key_parts at parts) values ≡ given_key parts values }
{}
