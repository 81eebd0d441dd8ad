//! A source that was read, and the file that it describes.
ghost use Rattle.std.specs.Prelude.{◌≡◌};
ghost use Rattle.dds_source.specs.Reading.{source_of};
ghost use Rattle.record_fmt.specs.Layout.{IsLaidOut};
ghost use Rattle.lawful_states.specs.DeleteFile.{source_refers};
ghost use Rattle.physical_paths.specs.KeyedFiles.{IsKeyed};
ghost use Rattle.file_catalogue.specs.Described.{Describes, unread};

use dds_physical::{PhysicalError, PhysicalSpec, Refs, physical, refers_to};
use dds_source::faults::SourceError;
use dds_source::read_source;
use dds_source::specifications::Source;
use field_types::names::Name;
use field_types::texts::SourceText;
use key_spec::KeySpec;
use record_fmt::formats::Format;
use std::alloc::Global;
use std::marker::Model;

/// The text of a source, and what it describes.
#[derive(Drop)]
pub struct Described {
    text: SourceText,
    /// The text as it was read, so that DLTF need not read it again.
    source: Source,
    spec: PhysicalSpec,
}

impl Model for Described {
    ghost use Rattle.std.specs.Prelude.{◌≡◌, Ok};
    ghost use Rattle.dds_source.specs.Reading.{source_of};
    ghost use Rattle.lawful_states.specs.CreatePhysicalFile.{NewFile};
    ghost use Rattle.physical_paths.specs.KeyedFiles.{IsKeyed};

    ghost Value = { NewFile };

    ghost view = { λ d. record { source = d.text; spec = d.spec } };

    ghost invariant = { λ d. (source_of d.text ≡ Ok d.source) × IsKeyed d.spec };
}

impl Described {
    /// Reads a source, which may refer to the files of `refs`.
    pub fn read<R: Refs>(
        alloc: Global,
        text: &SourceText,
        refs: &R,
    ) -> Result<Described, PhysicalError>
        ensures { Describes (R.formats refs.now) text.now result }
    {
        let source = match read_source(alloc, text.as_bytes()) {
            Ok(source) => source,
            Err(error) => return Err(unread(error)),
        };
        let spec = physical(alloc, &source, refs)?;
        let text = text.copied(alloc)?;
        Ok(Described { text, source, spec })
    }

    /// The text.
    pub fn source(&self) -> &SourceText
        ensures { result.now ≡ self.now.source }
    {
        &self.text
    }

    /// The record format. Its fields lie one behind the other, and the key is by them.
    pub fn format(&self) -> &Format
        ensures format { result.now ≡ self.now.spec.format }
        ensures laid_out { IsLaidOut self.now.spec.format.fields }
        ensures keyed { IsKeyed self.now.spec }
    {
        // Its fields lie one behind the other.
        let _fields = self.spec.format.fields.as_slice();
        &self.spec.format
    }

    /// The record format with the key.
    pub fn spec(&self) -> &PhysicalSpec
        ensures spec { result.now ≡ self.now.spec }
        ensures laid_out { IsLaidOut self.now.spec.format.fields }
        ensures keyed { IsKeyed self.now.spec }
    {
        // Its fields lie one behind the other.
        let _fields = self.spec.format.fields.as_slice();
        &self.spec
    }

    /// The key.
    pub fn keys(&self) -> &KeySpec
        ensures { result.now ≡ self.now.spec.keys }
    {
        &self.spec.keys
    }

    /// Whether the source names the file in REF or REFFLD.
    pub fn refers_to(&self, file: &Name) -> bool
        ensures { result ≡ source_refers file.now (source_of self.now.source) }
    {
        refers_to(&self.source, file)
    }
}

fn unread(error: SourceError) -> PhysicalError
    ensures { result ≡ unread error }
{
    match error {
        SourceError::NoMemory => PhysicalError::NoMemory,
        SourceError::Fault(fault) => PhysicalError::Fault(fault),
    }
}
