//! The physical files that a source may be over.
ghost use Rattle.std.specs.Prelude.{◌≡◌, Option, List, [], ℕ};
ghost use Rattle.std.specs.Option.{option_copied};
ghost use Rattle.record_fmt.specs.Layout.{IsLaidOut};
ghost use Rattle.dds_logical.specs.Bases.{fields_of_file, fields_of_name};

use dds_physical::PhysicalSpec;
use field_types::names::Name;
use record_fmt::formats::Field;

/// The physical files that are there.
pub trait Bases {
    ghost use Rattle.dds_physical.specs.declared.physical_files.PhysicalSpec.{PhysicalSpec};

    /// The file of a name, where there is one.
    ghost bases: { Self → List ℕ → Option PhysicalSpec };

    fn base(&self, file: &Name) -> Option<&PhysicalSpec>
        ensures { option_copied result ≡ bases self.now file.now };
}

/// The fields of a file; none where it isn't there.
pub(crate) fn fields_of_file<'a, B: Bases>(bases: &'a B, file: &Name) -> &'a [Field]
    ensures fields { result.now ≡ fields_of_file (B.bases bases.now) file.now }
    ensures laid_out { IsLaidOut result.now }
{
    match bases.base(file) {
        Some(spec) => spec.format.fields.as_slice(),
        None => no_fields(),
    }
}

pub(crate) fn no_fields() -> &'static [Field]
    ensures fields { result.now ≡ [] }
    ensures laid_out { IsLaidOut result.now }
{
    &[]
}

/// Of the file of a name, if there is a name.
pub(crate) fn fields_of_name<'a, B: Bases>(bases: &'a B, file: &Option<Name>) -> &'a [Field]
    ensures fields { result.now ≡ fields_of_name (B.bases bases.now) file.now }
    ensures laid_out { IsLaidOut result.now }
{
    match file {
        Some(file) => fields_of_file(bases, file),
        None => no_fields(),
    }
}
