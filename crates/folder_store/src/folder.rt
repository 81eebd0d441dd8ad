//! A folder with a file for each area: `area0`, `area1` and so on. Each call answers what the system did; `store.rt` counts
//! the faults. The file of one area is in `area_file.rt`.
ghost use Rattle.std.specs.Prelude.{◌≤◌, ◌<◌, ◌+◌, ◌^◌, ◌↔◌, length, vec_len, IfOk, IfSome, OnOk, IsTrue};

use crate::area_file::{AreaFile, MOST_AREA_BYTES};
use crate::opening::{open_file, open_folder, open_locked};
use std::alloc::AllocError;
use std::fs::{File, OpenOptions};
use std::io::ErrorKind;
use std::rt::Files;
use std::{fs, io};

/// How many files are open at a time, but for those with something to be synced, which stay open.
const MOST_OPEN_FILES: usize = 64;

/// A folder, locked where it is there.
#[derive(Drop)]
pub struct Folder<R: Files<File = File> + AllocGlobal + Drop> {
    rt: R,
    path: String,
    /// The folder itself, which has the lock; `None` where it isn't there.
    handle: Option<File>,
    files: Vec<AreaFile>,
    /// Whether the names in it are on the disk.
    are_names_synced: bool,
    /// Whether its own name is on the disk.
    is_name_synced: bool,
    /// Whether a sync failed: what it should have put on the disk, the system may count as put there.
    is_in_doubt: bool,
}

impl<R: Files<File = File> + AllocGlobal + Drop> Folder<R> {
    /// Opens the folder, which needn't be there yet. `WouldBlock` where another has its lock.
    pub fn open(rt: R, path: &str) -> io::Result<Folder<R>> {
        let handle = open_locked(&rt, path)?;
        let path = String::from_str(rt.alloc(), path)?;
        let files = Vec::new(rt.alloc());
        Ok(Folder {
            rt,
            path,
            handle,
            files,
            // Whoever made the folder and its files may have ended before they were synced.
            are_names_synced: false,
            is_name_synced: false,
            is_in_doubt: false,
        })
    }

    /// The area's size in bytes.
    pub fn size(&mut self, area: u32) -> io::Result<u64>
        ensures bound { IfOk result (λ n. n ≤ 2 ^ 62) }
    {
        match self.place_of(area)? {
            Some(place) => self.files[place].size(),
            None => Ok(0),
        }
    }

    /// Fills `into` with the bytes from a place on.
    pub fn read(&mut self, area: u32, at: u64, into: &mut [u8]) -> io::Result<()> {
        if into.is_empty() {
            return Ok(());
        }
        match self.place_of(area)? {
            Some(place) => self.files[place].read(at, into),
            None => Err(ErrorKind::UnexpectedEof.into()),
        }
    }

    /// Writes the bytes from a place on. The folder and the file are made where they aren't there.
    pub fn write(&mut self, area: u32, at: u64, bytes: &[u8]) -> io::Result<()>
        ensures bound { OnOk result (at + length bytes.now ≤ 2 ^ 62) }
    {
        if !fits(at, bytes.len()) {
            return Err(ErrorKind::FileTooLarge.into());
        }
        if bytes.is_empty() {
            return Ok(());
        }
        let place = self.place_to_write(area)?;
        self.files[place].write(at, bytes)?;
        Ok(())
    }

    /// Cuts the area to a length, which is no more than its size.
    pub fn cut(&mut self, area: u32, length: u64) -> io::Result<()> {
        match self.place_of(area)? {
            Some(place) => {
                self.are_names_synced = false;
                self.files[place].cut(length)
            }
            None if length == 0 => Ok(()),
            None => Err(ErrorKind::InvalidInput.into()),
        }
    }

    /// Puts the area on the disk. After a sync that failed every other fails too: the system may count as put on the disk
    /// what it couldn't put there.
    pub fn sync(&mut self, area: u32) -> io::Result<()> {
        if self.is_in_doubt {
            return Err(ErrorKind::Other.into());
        }
        let result = self.sync_area(area);
        self.is_in_doubt = result.is_err();
        result
    }

    /// Puts the area's bytes on the disk, and then what leads to them.
    fn sync_area(&mut self, area: u32) -> io::Result<()> {
        let Some(place) = self.place_of(area)? else {
            return Ok(());
        };
        self.files[place].sync()?;
        self.sync_names()?;
        self.sync_name()
    }

    /// Puts the names in the folder on the disk.
    fn sync_names(&mut self) -> io::Result<()> {
        if self.are_names_synced {
            return Ok(());
        }
        if let Some(handle) = &self.handle {
            handle.sync_all()?;
        }
        self.are_names_synced = true;
        Ok(())
    }

    /// Puts the folder's own name on the disk.
    fn sync_name(&mut self) -> io::Result<()> {
        if self.is_name_synced {
            return Ok(());
        }
        let parent = format!(in self.rt.alloc(); "{}/..", self.path.as_str())?;
        open_folder(&self.rt, parent.as_str())?.sync_all()?;
        self.is_name_synced = true;
        Ok(())
    }

    /// The place of the area's file among those that are open; `None` where the area has no file.
    fn place_of(&mut self, area: u32) -> io::Result<Option<usize>>
        ensures in_range { IfOk result (λ found. IfSome found (λ place. place < vec_len self.new.files)) }
    {
        if self.handle.is_none() {
            return Ok(None);
        }
        if let Some(place) = self.files.iter().position(|file| file.is_of(area)) {
            return Ok(Some(place));
        }
        match self.open_area(area, OpenOptions::new().read(true).write(true)) {
            Ok(file) => Ok(Some(self.keep(file)?)),
            Err(error) if error.kind() == ErrorKind::NotFound => Ok(None),
            Err(error) => Err(error),
        }
    }

    /// The place of the area's file among those that are open, made where it isn't there.
    fn place_to_write(&mut self, area: u32) -> io::Result<usize>
        ensures in_range { IfOk result (λ place. place < vec_len self.new.files) }
    {
        self.make()?;
        if let Some(place) = self.place_of(area)? {
            return Ok(place);
        }
        self.are_names_synced = false;
        let mut new = OpenOptions::new();
        new.read(true).write(true).create_new(true);
        let file = self.open_area(area, &new)?;
        Ok(self.keep(file)?)
    }

    /// Makes the folder where it isn't there, and locks it. Where another made it since it was opened, this fails: what was
    /// read of it holds no longer.
    fn make(&mut self) -> io::Result<()> {
        if self.handle.is_none() {
            fs::create_dir(&self.rt, self.path.as_str())?;
            self.handle = open_locked(&self.rt, self.path.as_str())?;
        }
        Ok(())
    }

    /// Opens the area's file.
    fn open_area(&self, area: u32, how: &OpenOptions) -> io::Result<AreaFile> {
        let path = format!(in self.rt.alloc(); "{}/area{area}", self.path.as_str())?;
        Ok(AreaFile::new(area, open_file(&self.rt, path.as_str(), how)?))
    }

    /// Keeps an open file, and gives its place.
    fn keep(&mut self, file: AreaFile) -> Result<usize, AllocError>
        ensures in_range { IfOk result (λ place. place < vec_len self.new.files) }
    {
        self.close_one();
        let place = self.files.len();
        self.files.push(file)?;
        Ok(place)
    }

    /// Where as many files are open as ought to be, closes the first that has nothing to be synced. Closing one that has
    /// could lose the fault of its sync.
    fn close_one(&mut self) {
        if self.files.len() < MOST_OPEN_FILES {
            return;
        }
        if let Some(place) = self.files.iter().position(|file| file.is_synced()) {
            let _closed = self.files.remove(place);
        }
    }
}

/// Whether an area may have bytes of this length at this place.
fn fits(at: u64, length: usize) -> bool
    ensures { IsTrue result ↔ (at + length ≤ 2 ^ 62) }
{
    at <= MOST_AREA_BYTES && length as u64 <= MOST_AREA_BYTES - at
}
