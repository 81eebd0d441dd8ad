//! How files and the folder are opened, and the folder's lock.
use std::fs::{File, OpenOptions};
use std::io;
use std::io::ErrorKind;
use std::os::fd::AsRawFd;
use std::rt::Files;

/// Why a folder wasn't opened.
#[derive(Clone, Copy, Debug)]
pub enum OpenError {
    /// Another store has it open, of this process or of another: wait until that one is closed.
    InUse,
    /// The system refused it, or there is no memory for its name.
    Refused(io::Error),
}

impl From<io::Error> for OpenError {
    fn from(error: io::Error) -> OpenError {
        if error.kind() == ErrorKind::WouldBlock {
            OpenError::InUse
        } else {
            OpenError::Refused(error)
        }
    }
}

/// Opens the folder and locks it until it is closed; `None` where it isn't there. `WouldBlock` where another has the lock.
pub fn open_locked<R: Files<File = File>>(rt: &R, path: &str) -> io::Result<Option<File>> {
    match open_folder(rt, path) {
        Ok(folder) => {
            folder.try_lock()?;
            Ok(Some(folder))
        }
        Err(error) if error.kind() == ErrorKind::NotFound => Ok(None),
        Err(error) => Err(error),
    }
}

/// Opens a folder, for its lock and to be synced.
pub fn open_folder<R: Files<File = File>>(rt: &R, path: &str) -> io::Result<File> {
    let folder = open_file(rt, path, OpenOptions::new().read(true))?;
    if !folder.metadata()?.is_dir() {
        return Err(ErrorKind::NotADirectory.into());
    }
    Ok(folder)
}

/// Opens a file. What is meant for a standard stream that was closed mustn't land in it, so it gets none of their numbers.
pub fn open_file<R: Files<File = File>>(rt: &R, path: &str, how: &OpenOptions) -> io::Result<File> {
    let file = how.open(rt, path)?;
    if file.as_raw_fd() <= 2 {
        return file.try_clone();
    }
    Ok(file)
}
