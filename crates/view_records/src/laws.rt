//! What holds of the formats that a data description describes, as a contract of a function that does nothing.
ghost use Rattle.std.specs.Prelude.{◌≡◌, ℕ, Option, Ok, List};
ghost use Rattle.dds_source.specs.declared.specifications.Source.{Source};
ghost use Rattle.logical_paths.below.dds_physical.specs.declared.physical_files.PhysicalSpec.{PhysicalSpec};
ghost use Rattle.logical_model.below.dds_logical.specs.declared.views.LogicalSpec.{LogicalSpec};
ghost use Rattle.logical_model.specs.Logical.{logical_of};
ghost use Rattle.view_records.specs.Through.{HasFormats, HasBytesIn};

/// The fields of each format that is described are those of what it shows, and what they are made of has a byte.
pub fn described_views_show_their_formats()
    ensures formats { (described : List ℕ → Option PhysicalSpec) (source : Source) (spec : LogicalSpec) → logical_of described source ≡ Ok spec → HasFormats spec }
    ensures bytes { (described : List ℕ → Option PhysicalSpec) (source : Source) (spec : LogicalSpec) → logical_of described source ≡ Ok spec → HasBytesIn spec }
{}
