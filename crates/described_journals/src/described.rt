//! Files that were described, in the order of their creation.
ghost use Rattle.std.specs.Prelude.{◌≡◌, [], ◌∷◌, ◌++◌, option_copied, OnOk};
ghost use Rattle.std.specs.Option.{option_and_then, option_map};
ghost use Rattle.library_model.specs.Named.{named};
ghost use Rattle.library_steps.specs.State.{physical_in};
ghost use Rattle.replay_files.specs.Files.{catalog_file};
ghost use Rattle.named_bases.specs.Sources.{format_named, spec_named};
ghost use Rattle.described_journals.specs.Files.{state_of, with_file};

use crate::reading::body_beside;
use dds_logical::Bases;
use dds_physical::{PhysicalSpec, Refs};
use field_types::names::Name;
use file_catalogue::FileBody;
use record_fmt::formats::Format;
use replay_files::File;
use std::alloc::{AllocError, Global};
use std::marker::Model;

/// A file by its name, its source and what that describes.
#[derive(Drop)]
pub struct DescribedFile {
    pub name: Name,
    pub body: FileBody,
}

impl Model for DescribedFile {
    ghost use Rattle.std.specs.Prelude.{List, ℕ};
    ghost use Rattle.library_steps.specs.State.{FileState};
    ghost use Rattle.described_journals.specs.Files.{state_of};

    ghost Value = { List ℕ × FileState };

    ghost view = { λ f. (f.name, state_of f.body) };
}

/// Files that were described, in the order of their creation. None has members yet.
#[derive(Drop)]
pub struct DescribedFiles {
    files: Vec<DescribedFile>,
}

impl Model for DescribedFiles {
    ghost use Rattle.library_model.specs.Named.{Named};
    ghost use Rattle.library_steps.specs.State.{FileState};

    ghost Value = { Named FileState };

    ghost view = { λ f. f.files.items };
}

impl DescribedFiles {
    /// No files.
    pub fn new(alloc: Global) -> DescribedFiles
        ensures { result ≡ [] }
    {
        DescribedFiles {
            files: Vec::new(alloc),
        }
    }

    /// The files in order of creation.
    pub fn into_vec(self) -> Vec<DescribedFile>
        ensures { result.items ≡ self }
    {
        self.files
    }

    /// What the file of that name is.
    pub fn named(&self, name: &Name) -> Option<&FileBody>
        ensures { option_map state_of (option_copied result) ≡ named name.now self.now }
    {
        for file in self.files.as_slice() {
            if *name == file.name {
                return Some(&file.body);
            }
        }
        None
    }

    /// One file more, with what its source describes beside the others. Where something is wrong with the source, nothing is added.
    pub fn add(&mut self, alloc: Global, name: &Name, file: &File) -> Result<(), AllocError>
        ensures { OnOk result (self.new ≡ with_file (catalog_file (name.now, file.now)) self.old) }
    {
        match body_beside(alloc, self, file.kind, &file.source)? {
            None => Ok(()),
            Some(body) => {
                self.files.push(DescribedFile { name: *name, body })?;
                Ok(())
            }
        }
    }
}

impl Refs for DescribedFiles {
    ghost formats = { λ files name. format_named files name };

    fn format_of(&self, file: &Name) -> Option<&Format> {
        match self.named(file) {
            Some(body) => body.format(),
            None => None,
        }
    }
}

impl Bases for DescribedFiles {
    ghost bases = { λ files name. spec_named files name };

    fn base(&self, file: &Name) -> Option<&PhysicalSpec> {
        match self.named(file) {
            Some(body) => physical_spec(body),
            None => None,
        }
    }
}

/// What it is where it is a physical file.
fn physical_spec(body: &FileBody) -> Option<&PhysicalSpec>
    ensures { option_copied result ≡ physical_in (state_of body.now).spec }
{
    match body.physical() {
        Some(described) => Some(described.spec()),
        None => None,
    }
}
