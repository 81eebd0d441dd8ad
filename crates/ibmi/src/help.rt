//! Help on standard error, below the text of a status. Where it can't be made, nothing is printed.
use crate::kept::Kept;
use hints::{
    FolderTrouble, HelpText, folder_help, jobs_help, line_help, script_help, terminal_help,
    unjournaled_help, words_help,
};
use ibmi_batch::status::Status;
use std::alloc::{AllocError, Global};

/// What a run leaves that help may speak of.
#[derive(Clone, Copy)]
pub(crate) struct Remains<'a> {
    pub(crate) words: &'a [String],
    pub(crate) input: &'a Kept,
    pub(crate) listing: &'a Kept,
}

/// Says what helps beside a status.
pub(crate) fn say_help<R: Eprint>(rt: &R, alloc: Global, status: Status, remains: &Remains<'_>) {
    match status {
        Status::Words => say(rt, words_help(alloc, remains.words)),
        Status::Script { line } => say_script_help(rt, alloc, line, remains),
        Status::JobsEnded => say_jobs_help(rt, alloc, remains),
        Status::NotALibrary => say(rt, folder_help(alloc, FolderTrouble::NoLibrary)),
        Status::Damaged { area, .. } => {
            say(rt, folder_help(alloc, FolderTrouble::Damaged { area }));
        }
        Status::StoreFault => say(rt, folder_help(alloc, FolderTrouble::Fault)),
        Status::Exists => say(rt, folder_help(alloc, FolderTrouble::Library)),
        Status::Done => say_unjournaled_help(rt, alloc, remains),
        Status::ReadFault | Status::TooLong | Status::WriteFault | Status::NoMemory => {}
    }
}

fn say_script_help<R: Eprint>(rt: &R, alloc: Global, line: u32, remains: &Remains<'_>) {
    if let Some(input) = remains.input.whole() {
        say(rt, line_help(alloc, input, line));
        say(rt, script_help(alloc, input, line));
    }
}

fn say_jobs_help<R: Eprint>(rt: &R, alloc: Global, remains: &Remains<'_>) {
    if let (Some(input), Some(listing)) = (remains.input.whole(), remains.listing.whole()) {
        say(rt, jobs_help(alloc, input, listing));
    }
    say_unjournaled_help(rt, alloc, remains);
}

fn say_unjournaled_help<R: Eprint>(rt: &R, alloc: Global, remains: &Remains<'_>) {
    if let Some(listing) = remains.listing.whole() {
        say(rt, unjournaled_help(alloc, listing));
    }
}

/// Says that another run has the library's folder.
pub(crate) fn say_in_use<R: Eprint>(rt: &R, words: &[String]) {
    if let [_, folder] = words {
        let _ = eprintln!(rt;
            "the library in {folder:?} is in use by another run: try again when that one has ended"
        );
    }
}

/// Says what to type, where words that are a run have a terminal as their input.
pub(crate) fn say_terminal_help<R: Eprint>(rt: &R, alloc: Global, words: &[String]) {
    if words_help(alloc, words).is_ok_and(|help| help.as_bytes().is_empty()) {
        say(rt, terminal_help(alloc));
    }
}

fn say<R: Eprint>(rt: &R, help: Result<HelpText, AllocError>) {
    let Ok(help) = help else {
        return;
    };
    if let Ok(text) = str::from_utf8(help.as_bytes()) {
        let _ = eprint!(rt; "{text}");
    }
}
