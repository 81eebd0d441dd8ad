//! A source that was read, and the logical file that it describes.
ghost use Rattle.std.specs.Prelude.{◌≡◌, [], ◌∷◌, map};
ghost use Rattle.std.specs.List.{list_any};
ghost use Rattle.logical_model.specs.Bases.{base_names};
ghost use Rattle.library_model.specs.Named.{same_name};
ghost use Rattle.file_catalogue.specs.Views.{DescribesView, unread};

use dds_source::faults::SourceError;
use dds_source::read_source;
use field_types::names::Name;
use field_types::texts::SourceText;
use logical_model::dds_logical::{Bases, JoinedFile, LogicalFault, LogicalSpec, View, logical};
use std::alloc::Global;
use std::marker::Model;

/// The text of a source, and what it describes.
#[derive(Drop)]
pub struct DescribedView {
    text: SourceText,
    spec: LogicalSpec,
}

impl Model for DescribedView {
    ghost use Rattle.lawful_states.specs.CreateLogicalFile.{NewLogical};

    ghost Value = { NewLogical };

    ghost view = { λ d. record { source = d.text; spec = d.spec } };
}

impl DescribedView {
    /// Reads a source, which may be over the files of `bases`.
    pub fn read<B: Bases>(
        alloc: Global,
        text: &SourceText,
        bases: &B,
    ) -> Result<DescribedView, LogicalFault>
        ensures { DescribesView (B.bases bases.now) text.now result }
    {
        let source = match read_source(alloc, text.as_bytes()) {
            Ok(source) => source,
            Err(error) => return Err(unread(error)),
        };
        let spec = logical(alloc, &source, bases)?;
        let text = text.copied(alloc)?;
        Ok(DescribedView { text, spec })
    }

    /// The text.
    pub fn source(&self) -> &SourceText
        ensures { result.now ≡ self.now.source }
    {
        &self.text
    }

    /// The logical file.
    pub fn spec(&self) -> &LogicalSpec
        ensures { result.now ≡ self.now.spec }
    {
        &self.spec
    }

    /// Whether it is over the file.
    pub fn is_over(&self, file: &Name) -> bool
        ensures { result ≡ list_any (same_name file.now) (base_names self.now.spec) }
    {
        is_over(&self.spec, file)
    }
}

fn unread(error: SourceError) -> LogicalFault
    ensures { result ≡ unread error }
{
    match error {
        SourceError::NoMemory => LogicalFault::NoMemory,
        SourceError::Fault(fault) => LogicalFault::Fault(fault),
    }
}

/// Whether a logical file is over the file.
fn is_over(spec: &LogicalSpec, file: &Name) -> bool
    ensures { result ≡ list_any (same_name file.now) (base_names spec.now) }
{
    match spec {
        LogicalSpec::Simple(view) => is_same(file, &view.base),
        LogicalSpec::Multi(views) => is_over_one(views.as_slice(), file),
        LogicalSpec::Join(view) => {
            *file == view.primary || is_secondary(view.secondaries.as_slice(), file)
        }
    }
}

/// Whether the one file that a format is over is this one.
fn is_same(file: &Name, base: &Name) -> bool
    ensures { result ≡ list_any (same_name file.now) (base.now ∷ []) }
{
    *file == *base
}

/// Whether one of the formats is over the file.
fn is_over_one(views: &[View], file: &Name) -> bool
    ensures { result ≡ list_any (same_name file.now) (map (λ view. view.base) views.now) }
{
    for view in views {
        if *file == view.base {
            return true;
        }
    }
    false
}

/// Whether the file is one of the secondary files of a join.
fn is_secondary(secondaries: &[JoinedFile], file: &Name) -> bool
    ensures { result ≡ list_any (same_name file.now) (map (λ joined. joined.file) secondaries.now) }
{
    for joined in secondaries {
        if *file == joined.file {
            return true;
        }
    }
    false
}
