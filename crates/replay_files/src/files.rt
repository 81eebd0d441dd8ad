//! The files as the journal leaves them, in order of creation, found by their names.
ghost use Rattle.std.specs.Prelude.{◌≡◌, [], ◌∷◌, ◌++◌, None, length, not, is_none, slice_get, IfOk, OnOk};
ghost use Rattle.std.specs.List.{filter, find, list_any};
ghost use Rattle.std.specs.Option.{is_some, option_copied, option_map};
ghost use Rattle.journal_model.specs.Catalogue.{is_named, depends_on};
ghost use Rattle.replay_files.specs.Files.{catalog_file, file_shown};
ghost use Rattle.journal_replay.specs.Tests.{is_physical_file};

use crate::describe::Describe;
use entry_codec::FileKind;
use field_types::names::Name;
use field_types::texts::SourceText;
use indexmap::IndexMap;
use std::alloc::{AllocError, Global};
use std::marker::Model;

/// A file: the sequence of its creation, 0 where a checkpoint has it, its kind, and the text of its description.
#[derive(Drop)]
pub struct File {
    pub created: u64,
    pub kind: FileKind,
    pub source: SourceText,
}

impl Model for File {
    ghost use Rattle.replay_files.specs.Files.{FileBody};

    ghost Value = { FileBody };

    ghost view = { λ f. record { created = f.created; kind = f.kind; source = f.source } };
}

/// The files in order of creation.
#[derive(Drop)]
pub struct Files {
    files: IndexMap<Name, File>,
}

impl Model for Files {
    ghost use Rattle.std.specs.Prelude.{List, map};
    ghost use Rattle.journal_model.specs.Catalogue.{CatalogFile};
    ghost use Rattle.replay_files.specs.Files.{catalog_file};

    ghost Value = { List CatalogFile };

    ghost view = { λ f. map catalog_file f.files.entries };
}

impl Files {
    /// No files.
    pub fn new(alloc: Global) -> Files
        ensures { result ≡ [] }
    {
        Files {
            files: IndexMap::new(alloc),
        }
    }

    /// How many files there are.
    pub fn len(&self) -> usize
        ensures { result ≡ length self.now }
    {
        self.files.len()
    }

    /// The file at a place in the order of creation, counted from 0.
    pub fn at(&self, place: usize) -> Option<(&Name, &File)>
        ensures { slice_get self.now place ≡ option_map file_shown result }
    {
        self.files.get_index(place)
    }

    /// The file of that name.
    pub fn named(&self, name: &Name) -> Option<&File>
        ensures { find (is_named name.now) self.now ≡ option_map (λ body. catalog_file (name.now, body)) (option_copied result) }
    {
        self.files.get(name)
    }

    /// Whether there is a file of that name.
    pub fn has(&self, name: &Name) -> bool
        ensures { result ≡ is_some (find (is_named name.now) self.now) }
    {
        self.named(name).is_some()
    }

    /// Whether there is a physical file of that name.
    pub fn has_physical(&self, name: &Name) -> bool
        ensures { result ≡ is_physical_file (find (is_named name.now) self.now) }
    {
        match self.named(name) {
            None => false,
            Some(file) => match file.kind {
                FileKind::Physical => true,
                FileKind::Logical => false,
            },
        }
    }

    /// Whether another file stands over that one or refers to it. It looks at every source.
    pub fn has_dependent<D: Describe>(&self, by: &D, name: &Name) -> Result<bool, AllocError>
        ensures { IfOk result (λ b. b ≡ list_any (depends_on (D.rules by.now) name.now) self.now) }
    {
        for (other, file) in self.files.iter() {
            if depends(by, other, file, name)? {
                return Ok(true);
            }
        }
        Ok(false)
    }

    /// One file more, which is the last one.
    pub fn add(&mut self, name: Name, file: File) -> Result<(), AllocError>
        requires { find (is_named name) self.old ≡ None }
        ensures { OnOk result (self.new ≡ self.old ++ catalog_file (name, file) ∷ []) }
    {
        let _replaced = self.files.insert(name, file)?;
        Ok(())
    }

    /// Takes the file of that name out; the others keep their order.
    pub fn remove(&mut self, name: &Name)
        ensures { self.new ≡ filter (λ file. not (is_named name.now file)) self.old }
    {
        self.files.retain(|other, _| *other != *name);
    }
}

/// Whether a file that isn't the named one refers to it.
fn depends<D: Describe>(by: &D, other: &Name, file: &File, name: &Name) -> Result<bool, AllocError>
    ensures { IfOk result (λ b. b ≡ depends_on (D.rules by.now) name.now (catalog_file (other.now, file.now))) }
{
    if *other == *name {
        return Ok(false);
    }
    by.refers_to(file.kind, &file.source, name)
}
