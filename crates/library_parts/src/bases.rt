//! The base files of a library's logical files.
ghost use Rattle.std.specs.Prelude.{◌≡◌, IfOk};
ghost use Rattle.library_steps.specs.LogicalFiles.{bases_in};
ghost use Rattle.library_steps.specs.Bases.{LogicalFile};
ghost use Rattle.library_steps.specs.FilePaths.{logical_paths};
ghost use Rattle.parts_model.specs.Steps.{own_path};
ghost use Rattle.parts_model.specs.Indexed.{rows_paths};

use crate::contents::Contents;
use field_types::names::Name;
use file_model::paths::PathSpec;
use library_steps::logical_model::dds_logical::LogicalSpec;
use parts_model::file_catalogue::Catalogue;
use parts_model::view_records::logical_paths::bases::BaseFiles;
use parts_model::view_records::logical_paths::paths::{logical_paths, own_path};
use record_fmt::formats::Field;
use std::alloc::AllocError;

/// The files of a library as the base files of its logical files.
#[derive(Clone, Copy)]
pub(crate) struct LibraryBases<'a> {
    pub(crate) files: &'a Catalogue,
}

impl BaseFiles for LibraryBases<'_> {
    ghost bases = { λ b. bases_in b.files.now.files };

    fn member(&self, file: &Name) -> u32 {
        let (member, _) = self.files.base_of(file);
        member
    }

    fn fields(&self, file: &Name) -> &[Field] {
        let (_, fields) = self.files.base_of(file);
        fields
    }
}

impl Contents {
    /// The path by which a logical file is read.
    pub(crate) fn own_path(&self, spec: &LogicalSpec) -> Result<PathSpec, AllocError>
        ensures { IfOk result (λ path. path ≡ own_path (bases_in self.now.state.files) spec.now) }
    {
        let bases = LibraryBases {
            files: &self.catalogue,
        };
        own_path(self.alloc, &bases, spec)
    }

    /// All paths of a logical file, that by which it is read first.
    pub(crate) fn all_paths(&self, spec: &LogicalSpec) -> Result<Vec<PathSpec>, AllocError>
        ensures { IfOk result (λ paths. paths.items ≡ logical_paths (bases_in self.now.state.files) spec.now) }
    {
        let bases = LibraryBases {
            files: &self.catalogue,
        };
        logical_paths(self.alloc, &bases, spec)
    }

    /// Those of a join over its secondary files; no other file has more than one.
    pub(crate) fn other_paths(&self, spec: &LogicalSpec) -> Result<Vec<PathSpec>, AllocError>
        ensures { IfOk result (λ paths. paths.items ≡ rows_paths (bases_in self.now.state.files) (LogicalFile spec.now)) }
    {
        let mut paths = self.all_paths(spec)?;
        let _own = paths.remove(0);
        Ok(paths)
    }
}
