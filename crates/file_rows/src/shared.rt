//! The path that a file has by its fields and its key, and files that share one.
ghost use Rattle.std.specs.Prelude.{◌≡◌, List, [], ◌∷◌, ◌++◌, codes};
ghost use Rattle.file_model.specs.FilePaths.{physical_path, simple_path, every_record};
ghost use Rattle.file_rows.specs.Files.{number, of_records};
ghost use Rattle.file_rows.specs.Found.{rrns_of};
ghost use Rattle.file_rows.specs.LogicalFormats.{named_and_numbered, number_then_name, by_number_then_name, number_of_logical_then_name};

/// Records of a name and a number, by the number and then by the name from the last to the first.
pub fn path_of_a_physical_file()
    ensures { rrns_of (physical_path 1 named_and_numbered by_number_then_name) (of_records 1 ((codes "BBBBB" ++ number 2) ∷ (codes "AAAAA" ++ number 1) ∷ (codes "CCCCC" ++ number 2) ∷ []) ∷ [])
        ≡ 2 ∷ 3 ∷ 1 ∷ [] }
{}

/// A logical file that shows the number before the name under other names has the physical file's path where its key has
/// the same fields.
pub fn one_path_for_two_files()
    ensures { simple_path 1 every_record number_then_name number_of_logical_then_name ≡ physical_path 1 named_and_numbered by_number_then_name }
{}
