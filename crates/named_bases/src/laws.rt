//! Contracts of functions that do nothing.
ghost use Rattle.std.specs.Prelude.{◌≡◌, ℕ, Option, Ok, List, Contains, if◌then◌else◌, codes};
ghost use Rattle.std.specs.List.{AllByRecursion, list_any};
ghost use Rattle.std.specs.Str.{bytes_eq};
ghost use Rattle.entry_codec.specs.declared.kinds.FileKind.TheVariants.{Physical, Logical};
ghost use Rattle.dds_source.specs.declared.specifications.Source.{Source};
ghost use Rattle.dds_physical.specs.declared.physical_files.PhysicalSpec.{PhysicalSpec};
ghost use Rattle.dds_physical.specs.Keywords.{first_named};
ghost use Rattle.dds_physical.specs.References.{refers_to};
ghost use Rattle.dds_logical.specs.declared.views.LogicalSpec.{LogicalSpec};
ghost use Rattle.dds_logical.specs.FormatLines.{FormatLines, formats_in, is_join_file};
ghost use Rattle.dds_logical.specs.Logical.{logical_of};
ghost use Rattle.dds_logical.specs.Origins.{keyword_names};
ghost use Rattle.logical_model.specs.Bases.{base_names};
ghost use Rattle.restart_model.specs.Sources.{names_by};

/// Each file that PFILE or JFILE names in a source without a fault is a base file of the logical file that it describes: all that the formats name, and so
/// those that the journal says the source names.
pub fn named_files_are_bases()
    ensures formats { (bases : List ℕ → Option PhysicalSpec) (source : Source) (spec : LogicalSpec) → logical_of bases source ≡ Ok spec
        → AllByRecursion (λ (f : FormatLines). AllByRecursion (Contains (base_names spec))
        (keyword_names (first_named (if is_join_file (formats_in source.specifications) then codes "JFILE" else codes "PFILE") f.head.keywords))) (formats_in source.specifications) }
    ensures names { (bases : List ℕ → Option PhysicalSpec) (source : Source) (spec : LogicalSpec) → logical_of bases source ≡ Ok spec
        → AllByRecursion (Contains (base_names spec)) (names_by Logical source) }
{}

/// DLTF asks whether a physical file's source refers to a file, and the journal which files it names in REF and REFFLD: both tell the same.
pub fn sources_refer_to_what_they_name()
    ensures { (name : List ℕ) (source : Source) → refers_to name source ≡ list_any (bytes_eq name) (names_by Physical source) }
{}
