//! What may stand in the place of a folder, places that no area has, and a disk that is full.
use crate::areas::{opened, say, say_opening};
use std::os::unix::fs::symlink;
use std::{fs, io};
use store_model::Store;

/// Tries each, and prints what came of it.
pub fn try_all(rt: &HostRuntime, folder: &str) -> io::Result<()> {
    made_by_another(rt, folder)?;
    far_places(rt, folder)?;
    fs::remove_dir_all(rt, folder)?;
    a_file(rt, folder)?;
    fs::remove_file(rt, folder)?;
    below_nothing(rt, folder)
}

/// A folder that another made after the store was opened.
fn made_by_another(rt: &HostRuntime, folder: &str) -> io::Result<()> {
    let mut store = opened(rt, folder)?;
    fs::create_dir(rt, folder)?;
    say(
        rt,
        "write where another made the folder",
        store.write(0, 0, b"x"),
    )?;
    println!(rt; "faults: {}", store.faults())
}

/// Places beyond the greatest, and an area whose file is a disk that is always full and can't be synced.
fn far_places(rt: &HostRuntime, folder: &str) -> io::Result<()> {
    let mut store = opened(rt, folder)?;
    say(rt, "write up to 2^62 + 1", store.write(1, 1 << 62, b"x"))?;
    say(rt, "write nothing at 2^62", store.write(1, 1 << 62, b""))?;
    say(
        rt,
        "write nothing at 2^62 + 1",
        store.write(1, (1 << 62) + 1, b""),
    )?;
    say(
        rt,
        "read at the greatest place",
        store.read(1, u64::MAX, &mut [0]),
    )?;
    say(rt, "write at 3", store.write(2, 3, b"x"))?;
    say(
        rt,
        "read at the greatest place",
        store.read(2, u64::MAX, &mut [0]),
    )?;
    say(
        rt,
        "read up to 2^63",
        store.read(2, i64::MAX as u64, &mut [0, 0]),
    )?;
    let area3 = format!(in rt.alloc(); "{folder}/area3")?;
    symlink(rt, "/dev/full", area3.as_str())?;
    say(rt, "write to a full disk", store.write(3, 0, b"x"))?;
    say(rt, "sync it", store.sync(3))?;
    say(rt, "sync after a fault in a sync", store.sync(2))?;
    println!(rt; "faults: {}", store.faults())
}

/// A file in the place of the folder.
fn a_file(rt: &HostRuntime, folder: &str) -> io::Result<()> {
    fs::write(rt, folder, "x")?;
    say_opening(rt, "a file", folder)
}

/// A folder below one that isn't there.
fn below_nothing(rt: &HostRuntime, folder: &str) -> io::Result<()> {
    let path = format!(in rt.alloc(); "{folder}/below")?;
    let mut store = opened(rt, path.as_str())?;
    say(rt, "write below nothing", store.write(0, 0, b"x"))?;
    println!(rt; "faults: {}", store.faults())
}
