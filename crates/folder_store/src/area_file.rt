//! The open file of one area. The table of those that are open is in `folder.rt`.
ghost use Rattle.std.specs.Prelude.{◌≤◌, ◌^◌, IfOk};

use std::fs::File;
use std::io;
use std::io::ErrorKind;
use std::os::unix::fs::FileExt;

/// The most bytes that an area may have.
pub const MOST_AREA_BYTES: u64 = 1 << 62;

/// An area's file, open for reading and writing.
#[derive(Drop)]
pub struct AreaFile {
    area: u32,
    file: File,
    is_synced: bool,
}

impl AreaFile {
    /// The file of an area, to which nothing was written since it was opened.
    pub fn new(area: u32, file: File) -> AreaFile {
        AreaFile {
            area,
            file,
            is_synced: true,
        }
    }

    /// Whether it is the file of this area.
    pub fn is_of(&self, area: u32) -> bool {
        self.area == area
    }

    /// Whether it was neither written to nor cut since it was synced.
    pub fn is_synced(&self) -> bool {
        self.is_synced
    }

    /// Its size in bytes.
    pub fn size(&self) -> io::Result<u64>
        ensures bound { IfOk result (λ n. n ≤ 2 ^ 62) }
    {
        let size = self.file.metadata()?.len();
        if size > MOST_AREA_BYTES {
            return Err(ErrorKind::FileTooLarge.into());
        }
        Ok(size)
    }

    /// Fills `into` with the bytes from a place on.
    pub fn read(&self, at: u64, into: &mut [u8]) -> io::Result<()> {
        self.file.read_exact_at(into, at)
    }

    /// Writes all of the bytes from a place on.
    pub fn write(&mut self, at: u64, bytes: &[u8]) -> io::Result<()> {
        self.is_synced = false;
        self.file.write_all_at(bytes, at)
    }

    /// Cuts it to a length, which is no more than its size.
    pub fn cut(&mut self, length: u64) -> io::Result<()> {
        if length > self.size()? {
            return Err(ErrorKind::InvalidInput.into());
        }
        self.is_synced = false;
        self.file.set_len(length)
    }

    /// Has the system put its bytes and its size on the disk.
    pub fn sync(&mut self) -> io::Result<()> {
        self.file.sync_data()?;
        self.is_synced = true;
        Ok(())
    }
}
