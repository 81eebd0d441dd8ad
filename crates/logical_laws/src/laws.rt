//! Contracts of functions that do nothing.
ghost use Rattle.std.specs.Prelude.{◌≡◌, ℕ, Option, Some, Ok, IfSome, IsSome, List, [], ◌∷◌, slice_get, Contains};
ghost use Rattle.std.specs.List.{AllByRecursion};
ghost use Rattle.field_types.specs.declared.values.Value.{Value};
ghost use Rattle.file_model.specs.Layout.{IsLaidOut};
ghost use Rattle.member_slots.specs.Members.{NumberedMembers};
ghost use Rattle.dds_physical.below.dds_source.specs.declared.specifications.Source.{Source};
ghost use Rattle.dds_physical.specs.declared.physical_files.PhysicalSpec.{PhysicalSpec};
ghost use Rattle.logical_model.below.dds_logical.specs.declared.views.LogicalSpec.{LogicalSpec};
ghost use Rattle.logical_model.below.dds_logical.specs.declared.join_views.JoinView.{JoinView};
ghost use Rattle.logical_model.specs.Logical.{logical_of};
ghost use Rattle.file_model.specs.Paths.{PathEntry};
ghost use Rattle.file_model.specs.Joins.{RowPlace};
ghost use Rattle.logical_model.specs.Bases.{Bases, LogicalFile, base_names, base_members};
ghost use Rattle.logical_model.specs.FilePaths.{logical_paths};
ghost use Rattle.logical_model.specs.Formats.{given_in};
ghost use Rattle.logical_model.specs.Readings.{logical_reading, rows_reading};
ghost use Rattle.logical_laws.specs.Mapped.{IsSpecMapped, AreBasesOf, HoldDefaults, AreSameBases};
ghost use Rattle.logical_laws.specs.Found.{StandsIn, HoldsRecord};

/// What a data description describes stores in whole fields of its base files, which are among those that it was read over.
pub fn described_files_are_mapped()
    ensures mapped { (described : List ℕ → Option PhysicalSpec) (bases : Bases) (source : Source) (spec : LogicalSpec) → AreBasesOf described bases → logical_of described source ≡ Ok spec → IsSpecMapped bases spec }
    ensures there { (described : List ℕ → Option PhysicalSpec) (source : Source) (spec : LogicalSpec) → logical_of described source ≡ Ok spec → AllByRecursion (λ name. IsSome (described name)) (base_names spec) }
{}

/// What values make that are given through a format is a record of its base file, new or over an old one.
pub fn given_values_make_records()
    ensures { (bases : Bases) (spec : LogicalSpec) (number : ℕ) (name : List ℕ) (given : List (Option Value)) (old : Option (List ℕ)) (image : List ℕ)
        → IsSpecMapped bases spec → slice_get (base_names spec) number ≡ Some name → IsLaidOut (bases name).fields → HoldDefaults (bases name).fields
        → IfSome old (HoldsRecord (bases name).fields) → given_in bases (LogicalFile spec) number given old ≡ Ok image → HoldsRecord (bases name).fields image }
{}

/// Paths and members of a logical file are told by its own base files alone.
pub fn other_files_change_no_path()
    ensures paths { (bases other : Bases) (spec : LogicalSpec) → AreSameBases bases other spec → logical_paths bases spec ≡ logical_paths other spec }
    ensures members { (bases other : Bases) (spec : LogicalSpec) → AreSameBases bases other spec → base_members bases spec ≡ base_members other spec }
    ensures mapped { (bases other : Bases) (spec : LogicalSpec) → AreSameBases bases other spec → IsSpecMapped bases spec → IsSpecMapped other spec }
{}

/// What may be read through a logical file are records of its base members, that of the entry's format; of a join the primary's.
pub fn what_is_found_stands()
    ensures entries { (bases : Bases) (spec : LogicalSpec) (members : NumberedMembers) (entry : PathEntry) → Contains (logical_reading bases spec members).items entry → StandsIn (base_members bases spec) members entry }
    ensures rows { (bases : Bases) (view : JoinView) (members : NumberedMembers) (place : RowPlace) → Contains (rows_reading bases view members).items place → StandsIn ((bases view.primary).member ∷ []) members place.primary }
{}
