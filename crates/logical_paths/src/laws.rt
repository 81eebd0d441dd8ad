//! What holds of the access paths of logical files, as contracts of functions that do nothing.
ghost use Rattle.std.specs.Prelude.{◌≡◌, ◌≤◌, ℕ, Option, Some, Ok, List, map, length, All};
ghost use Rattle.member_slots.specs.Members.{NumberedMembers};
ghost use Rattle.file_model.below.record_fmt.specs.declared.formats.Field.{Field};
ghost use Rattle.access_path.below.key_order.specs.declared.widths.TheConstants.{MOST_POSITIONS};
ghost use Rattle.access_path.specs.KeyFields.{ArePositions, key_width};
ghost use Rattle.access_path.specs.PathBytes.{IsInBytes};
ghost use Rattle.physical_paths.specs.Sharing.{CanBeKept};
ghost use Rattle.physical_paths.specs.RecordChanges.{TakesImage};
ghost use Rattle.physical_paths.specs.PositionBytes.{HasKeysWithin};
ghost use Rattle.file_model.specs.FilePaths.{key_parts};
ghost use Rattle.dds_source.specs.declared.specifications.Source.{Source};
ghost use Rattle.dds_physical.specs.declared.physical_files.PhysicalSpec.{PhysicalSpec};
ghost use Rattle.dds_logical.specs.declared.views.LogicalSpec.{LogicalSpec};
ghost use Rattle.dds_logical.specs.declared.views.View.{View};
ghost use Rattle.dds_logical.specs.Logical.{logical_of};
ghost use Rattle.logical_laws.specs.Bases.{Bases};
ghost use Rattle.logical_laws.specs.FilePaths.{logical_paths, view_format};
ghost use Rattle.logical_laws.specs.Mapped.{AreBasesOf};
ghost use Rattle.logical_paths.specs.KeyedViews.{AreLaidOut, HasKeyIfUnique, HaveFewPairs, IsKeyedView, IsKeyedLogical, IsRecordOfBases, HaveRecords};

/// Every record of a base file can stand in each path over its member, and each path can be kept over members with records of their files, with keys that are
/// compared by their bytes.
pub fn records_stand_in_views()
    ensures image { (bases : Bases) (spec : LogicalSpec) (member : ℕ) (image : List ℕ) → IsKeyedLogical bases spec → IsRecordOfBases bases spec member image
        → All (λ path. TakesImage member (Some image) path) (logical_paths bases spec) }
    ensures kept { (bases : Bases) (spec : LogicalSpec) (members : NumberedMembers) → IsKeyedLogical bases spec → HaveRecords bases spec members
        → All (λ path. CanBeKept path members) (logical_paths bases spec) }
    ensures bytes { (bases : Bases) (spec : LogicalSpec) (members : NumberedMembers) → IsKeyedLogical bases spec → HaveRecords bases spec members
        → All (λ path. IsInBytes path members) (logical_paths bases spec) }
    ensures within { (bases : Bases) (spec : LogicalSpec) (members : NumberedMembers) → IsKeyedLogical bases spec → HaveRecords bases spec members
        → All (λ path. All (λ format. HasKeysWithin (key_width format.key) members format) path.formats) (logical_paths bases spec) }
{}

/// The positions of a format's key are the same in its file's path, where its key fields alone stand one behind another.
pub fn positions_stay_in_views()
    ensures keys { (bases : Bases) (views : List View) → map (λ format. format.key) (map (view_format bases) views) ≡ map (λ view. key_parts 0 view.keys.parts) views }
    ensures allowed { (base : List Field) (view : View) → IsKeyedView base view → ArePositions (key_parts 0 view.keys.parts) }
    ensures few { (base : List Field) (view : View) → IsKeyedView base view → length (key_parts 0 view.keys.parts) ≤ MOST_POSITIONS }
{}

/// What a data description describes over base files whose fields lie one behind another has its keys and its tests by fields of these.
pub fn described_views_are_keyed()
    ensures { (described : List ℕ → Option PhysicalSpec) (bases : Bases) (source : Source) (spec : LogicalSpec) → AreBasesOf described bases → logical_of described source ≡ Ok spec
        → AreLaidOut bases spec → HaveFewPairs spec → IsKeyedLogical bases spec }
{}

/// A file that is described has a key where no two records may have one key.
pub fn unique_files_have_keys()
    ensures { (described : List ℕ → Option PhysicalSpec) (source : Source) (spec : LogicalSpec) → logical_of described source ≡ Ok spec → HasKeyIfUnique spec }
{}
