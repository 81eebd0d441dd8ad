//! What holds of join files, as contracts of functions that do nothing.
ghost use Rattle.std.specs.Prelude.{◌≡◌, ℕ, Option, Some, Ok, List, map};
ghost use Rattle.std.specs.List.{AllByRecursion, find};
ghost use Rattle.std.specs.Ordering.{is_eq};
ghost use Rattle.member_slots.specs.Members.{NumberedMembers};
ghost use Rattle.key_pages.specs.EntryList.{EntryList};
ghost use Rattle.dds_source.specs.declared.specifications.Source.{Source};
ghost use Rattle.logical_paths.below.dds_physical.specs.declared.physical_files.PhysicalSpec.{PhysicalSpec};
ghost use Rattle.dds_logical.specs.declared.join_views.JoinView.{JoinView};
ghost use Rattle.dds_logical.specs.declared.views.LogicalSpec.{LogicalSpec};
ghost use Rattle.dds_logical.specs.declared.views.LogicalSpec.TheVariants.{Join};
ghost use Rattle.dds_logical.specs.Logical.{logical_of};
ghost use Rattle.file_model.specs.FilePaths.{key_parts};
ghost use Rattle.file_model.specs.Joins.{JoinRow, RowPlace, compare_places, rows_of};
ghost use Rattle.logical_model.specs.Bases.{Bases};
ghost use Rattle.logical_model.specs.FilePaths.{join_of};
ghost use Rattle.logical_paths.specs.Mapped.{AreBasesOf, AreSameBases};
ghost use Rattle.logical_paths.specs.KeyedViews.{AreLaidOut, HaveRecords, IsKeyedJoin};
ghost use Rattle.join_position.specs.RowReads.{IsJoinOf};
ghost use Rattle.join_position.specs.RowStand.{JoinStand};
ghost use Rattle.join_records.specs.Linked.{IsLinkedLogical, fields_under};
ghost use Rattle.join_records.specs.ReadOver.{HasDefaults, IsReadOver};
ghost use Rattle.join_records.specs.Shown.{AreRecordsOf};

/// What a data description describes is joined from earlier files, by fields of theirs, and shows fields of its files.
pub fn described_joins_are_linked()
    ensures { (described : List ℕ → Option PhysicalSpec) (bases : Bases) (source : Source) (spec : LogicalSpec) → AreBasesOf described bases → logical_of described source ≡ Ok spec
        → AreLaidOut bases spec → IsLinkedLogical bases spec }
{}

/// What a join is made of is told by its own base files alone.
pub fn other_files_change_no_join()
    ensures join { (bases other : Bases) (view : JoinView) → AreSameBases bases other (Join view) → join_of bases view ≡ join_of other view }
    ensures linked { (bases other : Bases) (spec : LogicalSpec) → AreSameBases bases other spec → IsLinkedLogical bases spec → IsLinkedLogical other spec }
{}

/// The rows of a join can be read over members that have records of its files, by its paths, from where an open stands.
pub fn joins_can_be_read()
    ensures { (bases : Bases) (view : JoinView) (members : NumberedMembers) (primary : EntryList) (secondaries : List EntryList) (stand : JoinStand)
        → IsReadOver bases view members primary secondaries → key_parts 0 view.keys.parts ≡ stand.parts → map (λ joined. joined.sequence) view.secondaries ≡ stand.sequences
        → IsJoinOf stand (join_of bases view) members primary secondaries }
{}

/// The row at a place is made of records of its files.
pub fn rows_are_made_of_records()
    ensures { (bases : Bases) (view : JoinView) (members : NumberedMembers) (place : RowPlace) (row : JoinRow) → IsKeyedJoin bases view → HaveRecords bases (Join view) members
        → AllByRecursion (HasDefaults bases) view.secondaries → find (λ other. is_eq (compare_places view.keys.ties other.place place)) (rows_of (join_of bases view) members) ≡ Some row
        → AreRecordsOf (fields_under bases view) row.images }
{}
