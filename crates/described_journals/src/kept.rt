//! What sources describe, kept so that none is read anew for each entry.
ghost use Rattle.std.specs.Prelude.{◌≡◌, Some, IfOk, IfSome};
ghost use Rattle.std.specs.Option.{option_copied};
ghost use Rattle.record_fmt.specs.Layout as layout;
ghost use Rattle.entry_codec.specs.declared.kinds.FileKind.TheVariants.{Physical};
ghost use Rattle.logical_model.specs.Bases.{PhysicalFile};
ghost use Rattle.named_bases.specs.Sources.{described_files, fields_beside, is_record_of, spec_beside};
ghost use Rattle.described_journals.specs.Kept.{Describes};

use crate::records::is_record_of;
use crate::settled::{
    MOST_SOURCE_BYTES, NamedFile, ReadDescription, are_there, is_same, read_description,
};
use dds_physical::PhysicalSpec;
use field_types::texts::{Image, SourceText};
use replay_files::Files;
use std::alloc::{AllocError, Global};
use std::marker::Model;

/// The most sources that are kept at a time.
const MOST_KEPT: usize = 64;

/// A source, the files that it names, and what it describes wherever these are there.
#[derive(Drop)]
pub struct KeptDescription {
    source: SourceText,
    others: Vec<NamedFile>,
    spec: PhysicalSpec,
}

impl Model for KeptDescription {
    ghost use Rattle.std.specs.Prelude.{List, ℕ};
    ghost use Rattle.described_journals.specs.Kept.{Describes};

    ghost Value = { List ℕ };

    ghost view = { λ k. k.source };

    ghost invariant = { λ k. Describes k.source k.others.items k.spec };
}

impl KeptDescription {
    /// What this source describes beside the files, where it is the one that is kept.
    fn beside(&self, files: &Files, source: &SourceText) -> Option<&PhysicalSpec>
        ensures { IfSome (option_copied result) (λ spec. spec_beside (described_files files.now) Physical source.now ≡ Some (PhysicalFile spec)) }
    {
        if is_same(&self.source, source) && are_there(files, self.others.as_slice()) {
            Some(&self.spec)
        } else {
            None
        }
    }
}

/// What this source describes beside the files, where it was kept.
fn kept_beside<'a>(
    kept: &'a [KeptDescription],
    files: &Files,
    source: &SourceText,
) -> Option<&'a PhysicalSpec>
    ensures { IfSome (option_copied result) (λ spec. spec_beside (described_files files.now) Physical source.now ≡ Some (PhysicalFile spec)) }
{
    for one in kept {
        if let Some(spec) = one.beside(files, source) {
            return Some(spec);
        }
    }
    None
}

/// Keeps what was read of a source. Where as many are kept as may be, these are forgotten.
fn keep(
    alloc: Global,
    kept: &mut Vec<KeptDescription>,
    source: &SourceText,
    read: ReadDescription,
) -> Result<(), AllocError>
    requires { IfSome read.others (λ others. Describes source.now others.items read.spec) }
{
    let ReadDescription { spec, others } = read;
    let Some(others) = others else {
        return Ok(());
    };
    if source.as_bytes().len() > MOST_SOURCE_BYTES {
        return Ok(());
    }
    if kept.len() >= MOST_KEPT {
        kept.clear();
    }
    let source = source.copied(alloc)?;
    kept.push(KeptDescription {
        source,
        others,
        spec,
    })?;
    Ok(())
}

/// The bytes of a record; 0 where something is wrong with the source.
pub(crate) fn record_length(
    alloc: Global,
    kept: &mut Vec<KeptDescription>,
    files: &Files,
    source: &SourceText,
) -> Result<u32, AllocError>
    ensures { IfOk result (λ n. n ≡ layout.record_length (fields_beside files.now source.now)) }
{
    if let Some(spec) = kept_beside(kept.as_slice(), files, source) {
        return Ok(spec.format.length());
    }
    match read_description(alloc, files, source)? {
        None => Ok(0),
        Some(read) => {
            let length = read.spec.format.length();
            keep(alloc, kept, source, read)?;
            Ok(length)
        }
    }
}

/// Whether the image is a record; where something is wrong with the source, whether it has no bytes.
pub(crate) fn is_record(
    alloc: Global,
    kept: &mut Vec<KeptDescription>,
    files: &Files,
    source: &SourceText,
    image: &Image,
) -> Result<bool, AllocError>
    ensures { IfOk result (λ b. b ≡ is_record_of (fields_beside files.now source.now) image.now) }
{
    if let Some(spec) = kept_beside(kept.as_slice(), files, source) {
        return Ok(is_record_of(&spec.format, image.as_bytes()));
    }
    match read_description(alloc, files, source)? {
        None => Ok(image.as_bytes().is_empty()),
        Some(read) => {
            let passes = is_record_of(&read.spec.format, image.as_bytes());
            keep(alloc, kept, source, read)?;
            Ok(passes)
        }
    }
}
