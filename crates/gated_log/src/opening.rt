//! Opens a log: walks from gate to gate, and trusts no byte. `log.rt` has the log itself.
ghost use Rattle.std.specs.Prelude.{◌≡◌, ◌+◌, ◌-◌, ◌<◌, ◌≤◌, ◌^◌, ℕ, [], length, take, drop, min, IfOk, OnOk, IsErr, IsErrOf};
ghost use Rattle.store_model.specs.Disk.{Stays, IsDurable};
ghost use Rattle.store_model.specs.Faults.{Rose};
ghost use Rattle.gated_log.specs.Blocks.{IsDamagedAt, IsFaultAt, IsLog, HasNoHeader};
ghost use Rattle.gated_log.specs.Log.{HasBlocks};
ghost use Rattle.gated_log.specs.Walk.{IsFound, IsBehind, IsWalked, IsWalkedTo};

use crate::LogFault;
use crate::layout::{CLOSED, HEADER, Head, head_of, length_of};
use crate::log::{Log, Place};
use std::alloc::Global;
use store_model::{Failed, Store};

/// Opens the log of an area. It writes nothing, so a stop within it leaves what a stop before it could; from its
/// sync on that is what a read gives.
pub fn open<S: Store>(alloc: Global, store: &mut S, area: u32) -> Result<Log, LogFault>
    ensures opened { IfOk result (λ log. S.tells → HasBlocks log (S.disk store.new)) }
    ensures area { IfOk result (λ log. log.area ≡ area) }
    ensures damaged { (a at : ℕ) → IsErrOf result (LogFault.Damaged a at) → (a ≡ area) × (S.tells → IsDamagedAt area ((S.disk store.old).seen area) at) }
    ensures memory { IsErrOf result LogFault.NoMemory → S.tells → IsLog area ((S.disk store.old).seen area) }
    ensures stays { Stays (S.disk store.old) (S.disk store.new) }
    ensures cause { IsErrOf result LogFault.StoreFault → Rose (S.disk store.old).faults (S.disk store.new).faults }
{
    store.sync(area)?;
    let size = store.size(area)?;
    let head = read_head(store, area, size)?;
    let mut places = Vec::new(alloc);
    let mut gate = HEADER as u64;
    while let Some(place) = next_place(store, area, gate, size)? {
        gate = place.at + u64::from(place.length);
        match places.push(place) {
            Ok(()) => {}
            Err(_) => {
                // A damage behind it is told all the same.
                walk_on(store, area, head, gate, size)?;
                return Err(LogFault::NoMemory);
            }
        }
    }
    Ok(Log {
        area,
        head,
        places,
        end: gate,
    })
}

/// Walks from this gate to the closed one, and keeps no place.
fn walk_on<S: Store>(
    store: &mut S,
    area: u32,
    head: Head,
    from: u64,
    size: u64,
) -> Result<(), LogFault>
    requires size { S.tells → size ≡ length ((S.disk store.old).seen area) }
    requires bound { size ≤ 2 ^ 62 }
    requires inside { from ≤ size }
    requires walked { S.tells → IsWalkedTo area head.first head.version ((S.disk store.old).seen area) from }
    ensures whole { OnOk result (S.tells → IsLog area ((S.disk store.old).seen area)) }
    ensures damaged { (a at : ℕ) → IsErrOf result (LogFault.Damaged a at) → (a ≡ area) × (S.tells → IsDamagedAt area ((S.disk store.old).seen area) at) }
    ensures no_memory { IsErrOf result LogFault.NoMemory → ⊥ }
    ensures stays { Stays (S.disk store.old) (S.disk store.new) }
    ensures cause { IsErrOf result LogFault.StoreFault → Rose (S.disk store.old).faults (S.disk store.new).faults }
{
    let mut gate = from;
    while let Some(place) = next_place(store, area, gate, size)? {
        gate = place.at + u64::from(place.length);
    }
    Ok(())
}

/// What the area's header says.
fn read_head<S: Store>(store: &mut S, area: u32, size: u64) -> Result<Head, LogFault>
    requires { S.tells → size ≡ length ((S.disk store.old).seen area) }
    ensures head { IfOk result (λ head. S.tells → IsWalked area head.first head.version ((S.disk store.old).seen area) [] 32) }
    ensures whole { IfOk result (λ _. 32 ≤ size) }
    ensures damaged { (a at : ℕ) → IsErrOf result (LogFault.Damaged a at) → (a ≡ area) × (at ≡ 0) × (S.tells → HasNoHeader area ((S.disk store.old).seen area)) }
    ensures no_memory { IsErrOf result LogFault.NoMemory → ⊥ }
    ensures stays { Stays (S.disk store.old) (S.disk store.new) }
    ensures cause { IsErrOf result LogFault.StoreFault → Rose (S.disk store.old).faults (S.disk store.new).faults }
{
    if size < HEADER as u64 {
        return Err(LogFault::Damaged { area, at: 0 });
    }
    let mut header = [0; HEADER];
    store.read(area, 0, &mut header)?;
    match head_of(area, &header) {
        Some(head) => Ok(head),
        None => Err(LogFault::Damaged { area, at: 0 }),
    }
}

/// The place of the block behind a gate, `None` if the gate is closed. One read.
fn next_place<S: Store>(
    store: &mut S,
    area: u32,
    gate: u64,
    size: u64,
) -> Result<Option<Place>, LogFault>
    requires size { S.tells → size ≡ length ((S.disk store.old).seen area) }
    requires bound { size ≤ 2 ^ 62 }
    ensures found { IfOk result (λ found. S.tells → IsFound (drop gate ((S.disk store.old).seen area)) found) }
    ensures behind { IfOk result (λ found. IsBehind gate size found) }
    ensures inside { IfOk result (λ _. gate < size) }
    ensures damaged { (a at : ℕ) → IsErrOf result (LogFault.Damaged a at) → (a ≡ area) × (S.tells → IsFaultAt gate (drop gate ((S.disk store.old).seen area)) at) }
    ensures no_memory { IsErrOf result LogFault.NoMemory → ⊥ }
    ensures stays { Stays (S.disk store.old) (S.disk store.new) }
    ensures cause { IsErrOf result LogFault.StoreFault → Rose (S.disk store.old).faults (S.disk store.new).faults }
{
    if gate >= size {
        return Err(LogFault::Damaged { area, at: gate });
    }
    let field = read_gate(store, area, gate, size)?;
    if field[0] == CLOSED {
        return Ok(None);
    }
    let damaged = LogFault::Damaged { area, at: gate + 1 };
    if size - gate < 5 {
        return Err(damaged);
    }
    let length = length_of(&field);
    if size - gate - 5 < u64::from(length) {
        return Err(damaged);
    }
    Ok(Some(Place {
        at: gate + 5,
        length,
    }))
}

/// The gate and the four bytes of the length behind it, as far as the area goes.
fn read_gate<S: Store>(store: &mut S, area: u32, gate: u64, size: u64) -> Result<[u8; 5], Failed>
    requires size { S.tells → size ≡ length ((S.disk store.old).seen area) }
    requires inside { gate < size }
    ensures five { IfOk result (λ field. length field ≡ 5) }
    ensures field { IfOk result (λ field. S.tells → let n = min 5 (size - gate) in take n field ≡ take n (drop gate ((S.disk store.old).seen area))) }
    ensures stays { Stays (S.disk store.old) (S.disk store.new) }
    ensures cause { IsErr result → Rose (S.disk store.old).faults (S.disk store.new).faults }
{
    let mut field = [CLOSED; 5];
    let count = (size - gate).min(5) as usize;
    store.read(area, gate, &mut field[..count])?;
    Ok(field)
}
