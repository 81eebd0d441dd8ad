//! What one source describes beside files that were described.
ghost use Rattle.std.specs.Prelude.{◌≡◌, IfOk};
ghost use Rattle.std.specs.Option.{option_map};
ghost use Rattle.entry_codec.specs.declared.kinds.FileKind.TheVariants.{Physical, Logical};
ghost use Rattle.named_bases.specs.Sources.{spec_beside};
ghost use Rattle.described_journals.specs.Files.{described_as, state_of};

use crate::described::DescribedFiles;
use dds_logical::LogicalFault;
use dds_physical::PhysicalError;
use entry_codec::FileKind;
use field_types::texts::SourceText;
use file_catalogue::{Described, DescribedView, FileBody};
use std::alloc::{AllocError, Global};

/// The file that a source describes beside these files; nothing where something is wrong with it.
pub(crate) fn body_beside(
    alloc: Global,
    files: &DescribedFiles,
    kind: FileKind,
    source: &SourceText,
) -> Result<Option<FileBody>, AllocError>
    ensures { IfOk result (λ body. option_map state_of body ≡ described_as source.now (spec_beside files.now kind source.now)) }
{
    match kind {
        FileKind::Physical => physical_beside(alloc, files, source),
        FileKind::Logical => logical_beside(alloc, files, source),
    }
}

fn physical_beside(
    alloc: Global,
    files: &DescribedFiles,
    source: &SourceText,
) -> Result<Option<FileBody>, AllocError>
    ensures { IfOk result (λ body. option_map state_of body ≡ described_as source.now (spec_beside files.now Physical source.now)) }
{
    match Described::read(alloc, source, files) {
        Ok(described) => Ok(Some(FileBody::Physical(described))),
        Err(PhysicalError::NoMemory) => Err(AllocError),
        Err(PhysicalError::Fault(_)) => Ok(None),
    }
}

pub(crate) fn logical_beside(
    alloc: Global,
    files: &DescribedFiles,
    source: &SourceText,
) -> Result<Option<FileBody>, AllocError>
    ensures { IfOk result (λ body. option_map state_of body ≡ described_as source.now (spec_beside files.now Logical source.now)) }
{
    match DescribedView::read(alloc, source, files) {
        Ok(described) => Ok(Some(FileBody::Logical(described))),
        Err(LogicalFault::NoMemory) => Err(AllocError),
        Err(LogicalFault::Fault(_)) => Ok(None),
    }
}
