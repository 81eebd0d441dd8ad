//! What follows from the definitions.
ghost use Rattle.std.specs.Prelude.{◌≡◌, List, ℕ, Option, None, Ok};
ghost use Rattle.record_fmt.specs.declared.formats.Format.{Format};
ghost use Rattle.dds_source.specs.declared.specifications.Source.{Source};
ghost use Rattle.dds_source.specs.Faults.{first_after};
ghost use Rattle.dds_physical.specs.Physical.{physical_of, faults_of};
ghost use Rattle.dds_physical.specs.Order.{all_faults, AreInOrder};
ghost use Rattle.dds_physical.specs.Laws.{IsCopied, source_again, file_again};

/// A source that names each field of a file again and refers to it describes the same format.
pub fn references_copy()
    ensures { (formats : List ℕ → Option Format) (file : List ℕ) (format : Format) → IsCopied formats file format → physical_of formats (source_again file format) ≡ Ok (file_again format) }
{}

/// In the order of a text no fault is missed, though only the lines up to the first at fault are judged.
pub fn no_fault_is_missed()
    ensures { (formats : List ℕ → Option Format) (source : Source) → AreInOrder 0 source.last_line source.specifications → first_after None (faults_of formats source) ≡ first_after None (all_faults formats source) }
{}
