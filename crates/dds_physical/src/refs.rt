//! The files that a source may refer to.
ghost use Rattle.std.specs.Prelude.{◌≡◌, Option, List, ℕ};
ghost use Rattle.std.specs.Option.{option_copied};

use field_types::names::Name;
use record_fmt::formats::Format;

/// The physical files that are there, each with its record format.
pub trait Refs {
    ghost use Rattle.record_fmt.specs.declared.formats.Format.{Format};

    /// The format of the file of a name, where there is one.
    ghost formats: { Self → List ℕ → Option Format };

    fn format_of(&self, file: &Name) -> Option<&Format>
        ensures { option_copied result ≡ formats self.now file.now };
}
