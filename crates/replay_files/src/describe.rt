//! What the rules of data descriptions say of the files' sources.
ghost use Rattle.std.specs.Prelude.{◌≡◌, IfOk};
ghost use Rattle.std.specs.List.{list_any};
ghost use Rattle.std.specs.Str.{bytes_eq};

use crate::files::Files;
use entry_codec::FileKind;
use field_types::names::Name;
use field_types::texts::{Image, SourceText};
use std::alloc::AllocError;

/// Reads data descriptions. `files` are those that a description may refer to.
pub trait Describe {
    ghost use Rattle.journal_model.specs.Catalogue.{Descriptions};

    /// The rules.
    ghost rules: { Self → Descriptions };

    /// Whether the description is accepted beside the files.
    fn accepts(
        &self,
        files: &Files,
        kind: FileKind,
        source: &SourceText,
    ) -> Result<bool, AllocError>
        ensures { IfOk result (λ b. b ≡ (rules self.now).accepts files.now kind source.now) };

    /// Whether the description stands over the file of that name or refers to it.
    fn refers_to(
        &self,
        kind: FileKind,
        source: &SourceText,
        name: &Name,
    ) -> Result<bool, AllocError>
        ensures { IfOk result (λ b. b ≡ list_any (bytes_eq name.now) ((rules self.now).names kind source.now)) };

    /// The bytes of each record of the described file.
    fn record_length(&self, files: &Files, source: &SourceText) -> Result<u32, AllocError>
        ensures { IfOk result (λ n. n ≡ (rules self.now).record_length files.now source.now) };

    /// Whether the image is a record of the described file.
    fn is_record(
        &self,
        files: &Files,
        source: &SourceText,
        image: &Image,
    ) -> Result<bool, AllocError>
        ensures { IfOk result (λ b. b ≡ (rules self.now).is_record files.now source.now image.now) };
}
