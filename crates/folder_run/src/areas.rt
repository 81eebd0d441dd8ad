//! Areas that are written, read, cut and synced, and found again by the next store.
use folder_store::{FolderStore, OpenError};
use std::{fs, io};
use store_model::{Failed, Store};

/// More than a megabyte.
const MANY: usize = 1_500_000;

/// More areas than the store keeps files open.
const AREAS: u32 = 100;

/// A store over a folder of the system.
pub type RealStore = FolderStore<HostRuntime>;

/// A store as a run takes one: it may go to another thread.
pub fn opened(rt: &HostRuntime, folder: &str) -> io::Result<RealStore> {
    match FolderStore::open(rt.clone()?, folder) {
        Ok(store) => Ok(sendable(store)),
        Err(OpenError::InUse) => Err(io::ErrorKind::WouldBlock.into()),
        Err(OpenError::Refused(error)) => Err(error),
    }
}

fn sendable<S: Store + Send>(store: S) -> S {
    store
}

/// Prints a call, and what came of it.
pub fn say(rt: &HostRuntime, call: &str, outcome: Result<(), Failed>) -> io::Result<()> {
    match outcome {
        Ok(()) => println!(rt; "{call}: done"),
        Err(Failed) => println!(rt; "{call}: a fault"),
    }
}

/// Prints what comes of opening a folder.
pub fn say_opening(rt: &HostRuntime, what: &str, folder: &str) -> io::Result<()> {
    match FolderStore::open(rt.clone()?, folder) {
        Ok(_) => println!(rt; "{what}: opened"),
        Err(OpenError::InUse) => println!(rt; "{what}: in use"),
        Err(OpenError::Refused(_)) => println!(rt; "{what}: refused"),
    }
}

/// Tries each, and prints what came of it.
pub fn try_all(rt: &HostRuntime, folder: &str) -> io::Result<()> {
    let mut store = opened(rt, folder)?;
    nothing_there(rt, folder, &mut store)?;
    two_areas(rt, &mut store)?;
    files(rt, folder)?;
    say_opening(rt, "a second store", folder)?;
    cuts(rt, &mut store)?;
    many_areas(rt, &mut store)?;
    println!(rt; "faults in all: {}", store.faults())?;
    drop(store);
    let mut store = opened(rt, folder)?;
    println!(rt; "opened again")?;
    print_area(rt, &mut store, 0)?;
    print_area(rt, &mut store, 7)?;
    say(rt, "area 8 after the first store", store.sync(8))?;
    println!(rt; "faults of the second store: {}", store.faults())
}

/// A folder that isn't there: every area is empty.
fn nothing_there(rt: &HostRuntime, folder: &str, store: &mut RealStore) -> io::Result<()> {
    print_area(rt, store, 0)?;
    say(rt, "read nothing of it", store.read(0, 0, &mut []))?;
    say(rt, "cut it to nothing", store.cut(0, 0))?;
    say(rt, "sync it", store.sync(0))?;
    say(rt, "write nothing to it", store.write(0, 0, &[]))?;
    say(rt, "read a byte of it", store.read(0, 0, &mut [0]))?;
    println!(rt; "the folder is there: {}", fs::exists(rt, folder)?)
}

/// Two areas, written and read back.
fn two_areas(rt: &HostRuntime, store: &mut RealStore) -> io::Result<()> {
    say(rt, "write area 0", store.write(0, 0, b"hello, area"))?;
    say(rt, "write over its middle", store.write(0, 7, b"world"))?;
    print_area(rt, store, 0)?;
    let mut many = vec![in rt.alloc(); b'x'; MANY]?;
    say(rt, "write area 7", store.write(7, 0, many.as_slice()))?;
    say(
        rt,
        "write its last byte again",
        store.write(7, 1_499_999, b"y"),
    )?;
    say(rt, "read area 7", store.read(7, 0, many.as_mut_slice()))?;
    let front = many.iter().take_while(|&&byte| byte == b'x').count();
    println!(rt; "x in its front: {front}")?;
    say(
        rt,
        "read past its end",
        store.read(7, 1_499_999, &mut [0; 2]),
    )?;
    say(rt, "sync area 0", store.sync(0))?;
    say(rt, "sync area 7", store.sync(7))?;
    say(rt, "sync area 9, which has no file", store.sync(9))
}

/// The files of the two areas.
fn files(rt: &HostRuntime, folder: &str) -> io::Result<()> {
    for area in [0, 7, 9u32] {
        let path = format!(in rt.alloc(); "{folder}/area{area}")?;
        match fs::metadata(rt, path.as_str()) {
            Ok(found) => println!(rt; "area{area} has {} bytes", found.len())?,
            Err(_) => println!(rt; "area{area} is not there")?,
        }
    }
    Ok(())
}

/// Areas that are cut to fewer bytes, and not to more.
fn cuts(rt: &HostRuntime, store: &mut RealStore) -> io::Result<()> {
    say(rt, "cut area 7 to 3", store.cut(7, 3))?;
    print_area(rt, store, 7)?;
    say(rt, "cut it to 4", store.cut(7, 4))?;
    say(rt, "cut area 9 to 1", store.cut(9, 1))?;
    say(rt, "sync area 7", store.sync(7))
}

/// So many areas that files are closed and opened again.
fn many_areas(rt: &HostRuntime, store: &mut RealStore) -> io::Result<()> {
    let mut faults = 0u32;
    for area in 100..100 + AREAS {
        if store.write(area, 0, &area.to_be_bytes()).is_err() || store.sync(area).is_err() {
            faults = faults.saturating_add(1);
        }
    }
    let mut found = 0u32;
    for area in 100..100 + AREAS {
        let mut bytes = [0; 4];
        if store.read(area, 0, &mut bytes).is_ok() && bytes == area.to_be_bytes() {
            found = found.saturating_add(1);
        }
    }
    println!(rt; "{found} areas written and read back, with {faults} faults")
}

/// The area's size, and its bytes where it is short.
fn print_area(rt: &HostRuntime, store: &mut RealStore, area: u32) -> io::Result<()> {
    let Ok(size) = store.size(area) else {
        return println!(rt; "area {area}: a fault");
    };
    let mut bytes = [b'-'; 16];
    match store.read(area, 0, bytes.get_mut(..size as usize).unwrap_or(&mut [])) {
        Ok(()) => println!(rt; "area {area}: {size} bytes, {}", bytes.escape_ascii()),
        Err(Failed) => println!(rt; "area {area}: {size} bytes, a fault"),
    }
}
