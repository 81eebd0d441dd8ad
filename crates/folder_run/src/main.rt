//! Runs a store over a folder that isn't there yet through what its trait asks, and prints what came of each call. The folder's
//! name is the only argument; the folder is taken away again at the end.
#![tactic(auto)]

mod areas;
mod edges;

use std::process::ExitCode;
use std::{env, fs, io};

fn main(rt: HostRuntime) -> ExitCode {
    match run(&rt) {
        Ok(()) => ExitCode::SUCCESS,
        Err(_) => ExitCode::FAILURE,
    }
}

fn run(rt: &HostRuntime) -> io::Result<()> {
    let words: Vec<String> = env::args(rt)?.skip(1).collect(rt.alloc())?;
    let [folder] = words.as_slice() else {
        return Err(io::ErrorKind::InvalidInput.into());
    };
    let folder = folder.as_str();
    if fs::exists(rt, folder)? {
        return Err(io::ErrorKind::AlreadyExists.into());
    }
    areas::try_all(rt, folder)?;
    fs::remove_dir_all(rt, folder)?;
    edges::try_all(rt, folder)
}
