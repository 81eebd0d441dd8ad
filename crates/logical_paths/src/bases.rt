//! The base files of a logical file.
ghost use Rattle.std.specs.Prelude.{◌≡◌};
ghost use Rattle.file_model.specs.Layout.{IsLaidOut};

use field_types::names::Name;
use file_model::record_fmt::formats::Field;

/// The base files of a logical file: the number of the member that it stands over, and the fields of its records.
pub trait BaseFiles {
    ghost use Rattle.logical_laws.specs.Bases.{Bases};

    /// The base files by their names.
    ghost bases: { Self → Bases };

    /// The number of the member of a file.
    fn member(&self, file: &Name) -> u32
        ensures { result ≡ (bases self.now file.now).member };

    /// The fields of a file's records.
    fn fields(&self, file: &Name) -> &[Field]
        ensures fields { result.now ≡ (bases self.now file.now).fields }
        ensures laid_out { IsLaidOut result.now };
}
