//! The rules by which a journal is replayed: those of data descriptions.
ghost use Rattle.named_bases.specs.Sources.{descriptions};

use crate::kept::{KeptDescription, is_record, record_length};
use crate::naming::names;
use crate::needed::physical_beside;
use crate::reading::logical_beside;
use crate::whole::described_files;
use entry_codec::FileKind;
use field_types::names::Name;
use field_types::texts::{Image, SourceText};
use replay_files::{Describe, Files};
use std::alloc::{AllocError, Global};
use std::cell::RefCell;

/// Reads data descriptions, in memory of this allocator. What a physical file's source describes is kept for the next call.
#[derive(Drop)]
pub struct DataDescriptions {
    alloc: Global,
    kept: RefCell<Vec<KeptDescription>>,
}

impl DataDescriptions {
    /// Nothing was read yet.
    pub fn new(alloc: Global) -> DataDescriptions {
        DataDescriptions {
            alloc,
            kept: RefCell::new(Vec::new(alloc)),
        }
    }
}

impl Describe for DataDescriptions {
    ghost rules = { λ _. descriptions };

    /// Of a logical file all files are described anew, of a physical one those that its source names, and that these name.
    fn accepts(
        &self,
        files: &Files,
        kind: FileKind,
        source: &SourceText,
    ) -> Result<bool, AllocError> {
        match kind {
            FileKind::Physical => Ok(physical_beside(self.alloc, files, source)?.is_some()),
            FileKind::Logical => {
                let described = described_files(self.alloc, files)?;
                Ok(logical_beside(self.alloc, &described, source)?.is_some())
            }
        }
    }

    /// The source is read.
    fn refers_to(
        &self,
        kind: FileKind,
        source: &SourceText,
        name: &Name,
    ) -> Result<bool, AllocError> {
        names(self.alloc, kind, source, name)
    }

    /// Where the source isn't kept, it is read, and those files are described anew that it names, and that these name.
    fn record_length(&self, files: &Files, source: &SourceText) -> Result<u32, AllocError> {
        match self.kept.try_borrow_mut() {
            Ok(mut kept) => record_length(self.alloc, &mut kept, files, source),
            Err(_) => record_length(self.alloc, &mut Vec::new(self.alloc), files, source),
        }
    }

    /// As `record_length`.
    fn is_record(
        &self,
        files: &Files,
        source: &SourceText,
        image: &Image,
    ) -> Result<bool, AllocError> {
        match self.kept.try_borrow_mut() {
            Ok(mut kept) => is_record(self.alloc, &mut kept, files, source, image),
            Err(_) => is_record(self.alloc, &mut Vec::new(self.alloc), files, source, image),
        }
    }
}
