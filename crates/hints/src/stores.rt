//! What to do about a library's folder, by the status with which the program ended.
use crate::help_text::HelpText;
use crate::hint::Hint;
use std::alloc::{AllocError, Global};

/// What the program found wrong with the folder of a library.
#[derive(Clone, Copy)]
pub enum FolderTrouble {
    /// There is no library in it.
    NoLibrary,
    /// A file of it, by the number of its area, isn't as a library leaves it.
    Damaged { area: u32 },
    /// It couldn't be read or written.
    Fault,
    /// There is a library in it already.
    Library,
}

/// What to do about the folder.
pub fn folder_help(alloc: Global, trouble: FolderTrouble) -> Result<HelpText, AllocError> {
    let mut help = HelpText::new(alloc);
    match trouble {
        FolderTrouble::NoLibrary => {
            help.push_hint(&Hint::Plain(
                b"there is no library in that folder; ibmi INZ and the folder make one",
            ))?;
        }
        FolderTrouble::Damaged { area } => {
            help.push_hint(&Hint::Number(
                b"the file area",
                area,
                b" of the folder is not as a library leaves it, and a stop alone never does that; nothing was written",
            ))?;
            help.push_hint(&Hint::Plain(
                b"keep a copy of the folder as it is, and put back one that was copied while no run had it",
            ))?;
        }
        FolderTrouble::Fault => {
            help.push_hint(&Hint::Plain(
                b"the folder could not be read or written: look for its rights and for room on the disk",
            ))?;
            help.push_hint(&Hint::Plain(
                b"what was acknowledged is there at the next run; ibmi DSP and the folder show it",
            ))?;
        }
        FolderTrouble::Library => {
            help.push_hint(&Hint::Plain(
                b"there is a library in that folder already, and it stays as it is; take another folder, or RUN",
            ))?;
        }
    }
    Ok(help)
}
