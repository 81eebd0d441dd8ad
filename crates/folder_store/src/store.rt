//! The store over a folder: the calls of `folder.rt`, with each fault counted.
ghost use Rattle.std.specs.Prelude.{◌≡◌, ◌≤◌, IfOk};
ghost use Rattle.store_model.specs.Calls.{counted};

use crate::folder::Folder;
use crate::opening::OpenError;
use std::fs::File;
use std::marker::Model;
use std::rt::Files;
use store_model::{Failed, Store};

/// A folder with a file for each area. Contracts see it as its count of faults.
#[derive(Drop)]
pub struct FolderStore<R: Files<File = File> + AllocGlobal + Drop> {
    folder: Folder<R>,
    faults: u64,
}

impl<R: Files<File = File> + AllocGlobal + Drop> Model for FolderStore<R> {
    ghost use Rattle.std.specs.Prelude.{ℕ};

    ghost Value = { ℕ };

    ghost view = { λ store. store.faults };
}

impl<R: Files<File = File> + AllocGlobal + Drop> FolderStore<R> {
    /// Opens the folder for this store alone, until the store is dropped. One that isn't there is made at the first write.
    pub fn open(rt: R, path: &str) -> Result<FolderStore<R>, OpenError>
        ensures none { IfOk result (λ store. store ≡ 0) }
    {
        Ok(FolderStore {
            folder: Folder::open(rt, path)?,
            faults: 0,
        })
    }

    /// How many faults there were.
    pub fn faults(&self) -> u64
        ensures { result ≡ self.now }
    {
        self.faults
    }

    /// One fault more.
    fn fault(&mut self) -> Failed
        ensures counted { self.new ≡ counted self.old }
        ensures never_falls { self.old ≤ self.new }
    {
        self.faults = self.faults.saturating_add(1);
        Failed
    }
}

impl<R: Files<File = File> + AllocGlobal + Drop> Store for FolderStore<R> {
    ghost use Rattle.folder_store.specs.Untold.{untold};

    ghost tells = { ⊥ };

    ghost disk = { untold };

    fn size(&mut self, area: u32) -> Result<u64, Failed> {
        match self.folder.size(area) {
            Ok(size) => Ok(size),
            Err(_) => Err(self.fault()),
        }
    }

    fn read(&mut self, area: u32, at: u64, into: &mut [u8]) -> Result<(), Failed> {
        match self.folder.read(area, at, into) {
            Ok(()) => Ok(()),
            Err(_) => Err(self.fault()),
        }
    }

    fn write(&mut self, area: u32, at: u64, bytes: &[u8]) -> Result<(), Failed> {
        match self.folder.write(area, at, bytes) {
            Ok(()) => Ok(()),
            Err(_) => Err(self.fault()),
        }
    }

    fn cut(&mut self, area: u32, length: u64) -> Result<(), Failed> {
        match self.folder.cut(area, length) {
            Ok(()) => Ok(()),
            Err(_) => Err(self.fault()),
        }
    }

    fn sync(&mut self, area: u32) -> Result<(), Failed> {
        match self.folder.sync(area) {
            Ok(()) => Ok(()),
            Err(_) => Err(self.fault()),
        }
    }

    ghost leaves = { λ store told. absurd told };

    ghost fits = { λ store area told. absurd told };
}
