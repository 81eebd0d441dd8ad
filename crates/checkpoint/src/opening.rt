//! Opens the roots: reads each block of their log, and trusts no byte.
ghost use Rattle.std.specs.Prelude.{◌≡◌, ◌+◌, ◌<◌, ◌≤◌, ℕ, List, [], length, get_or, take, IfOk, IsErrOf};
ghost use Rattle.store_model.specs.Disk.{Stays};
ghost use Rattle.store_model.specs.Faults.{Rose};
ghost use Rattle.gated_log.specs.Blocks.{extent};
ghost use Rattle.gated_log.specs.Log.{HasBlocks, IsSettled, Settled};
ghost use Rattle.checkpoint.specs.declared.layout.TheConstants.{FIRST_BLOCK, ROOT_AREA};
ghost use Rattle.checkpoint.specs.Roots.{IsNoRoot, IsRoot, IsRootsDamagedAt, root_bytes};
ghost use Rattle.checkpoint.specs.Holding.{HasRoots};

use crate::layout::{FIRST_GATE, ROOT_AREA};
use crate::root::{Root, root_of};
use crate::roots::Roots;
use gated_log::{Log, LogFault};
use std::alloc::Global;
use store_model::Store;

/// Opens the root records. It writes nothing. What the last one names isn't looked at.
pub fn open_roots<S: Store>(alloc: Global, store: &mut S) -> Result<Roots, LogFault>
    ensures opened { IfOk result (λ roots. S.tells → HasRoots roots (S.disk store.new)) }
    ensures damaged { (area at : ℕ) → IsErrOf result (LogFault.Damaged area at) → (area ≡ ROOT_AREA) × (S.tells → IsRootsDamagedAt ((S.disk store.old).seen ROOT_AREA) at) }
    ensures stays { Stays (S.disk store.old) (S.disk store.new) }
    ensures cause { IsErrOf result LogFault.StoreFault → Rose (S.disk store.old).faults (S.disk store.new).faults }
{
    let log = gated_log::open(alloc, store, ROOT_AREA)?;
    if log.count() == 0 {
        return Err(LogFault::Damaged {
            area: ROOT_AREA,
            at: FIRST_GATE,
        });
    }
    let last = read_roots(alloc, store, &log)?;
    Ok(Roots { log, last })
}

/// Reads each block of the log, and gives the last one's root.
fn read_roots<S: Store>(alloc: Global, store: &mut S, log: &Log) -> Result<Root, LogFault>
    requires settled { S.tells → HasBlocks log.now (S.disk store.old) }
    requires area { log.now.area ≡ ROOT_AREA }
    requires some { 0 < length log.now.lengths }
    ensures ranges { IfOk result (λ last. IsRoot last) }
    ensures read { IfOk result (λ last. S.tells → HasRoots (record { log = log.now; last = last }) (S.disk store.new)) }
    ensures damaged { (area at : ℕ) → IsErrOf result (LogFault.Damaged area at) → (area ≡ ROOT_AREA) × (S.tells → IsRootsDamagedAt ((S.disk store.old).seen ROOT_AREA) at) }
    ensures stays { Stays (S.disk store.old) (S.disk store.new) }
    ensures cause { IsErrOf result LogFault.StoreFault → Rose (S.disk store.old).faults (S.disk store.new).faults }
{
    let count = log.count();
    let mut last = read_root(alloc, store, log, 0)?;
    let mut n = 1;
    while n < count {
        last = read_root(alloc, store, log, n)?;
        n += 1;
    }
    Ok(last)
}

/// The root that the nth block is.
fn read_root<S: Store>(alloc: Global, store: &mut S, log: &Log, n: u64) -> Result<Root, LogFault>
    requires settled { S.tells → IsSettled log.now (S.disk store.old) }
    requires below { n < length log.now.lengths }
    ensures ranges { IfOk result (λ root. IsRoot root) }
    ensures root { IfOk result (λ root. S.tells → (blocks : List (List ℕ)) → Settled log.now blocks (S.disk store.old) → get_or blocks n [] ≡ root_bytes root) }
    ensures damaged { (area at : ℕ) → IsErrOf result (LogFault.Damaged area at) → (area ≡ ROOT_AREA) × (at ≡ FIRST_BLOCK + extent (take n log.now.lengths)) × (S.tells → (blocks : List (List ℕ)) → Settled log.now blocks (S.disk store.old) → IsNoRoot (get_or blocks n [])) }
    ensures stays { Stays (S.disk store.old) (S.disk store.new) }
    ensures cause { IsErrOf result LogFault.StoreFault → Rose (S.disk store.old).faults (S.disk store.new).faults }
{
    let block = log.block(alloc, store, n)?;
    match root_of(&block) {
        Some(root) => Ok(root),
        None => Err(LogFault::Damaged {
            area: ROOT_AREA,
            at: log.place(n),
        }),
    }
}
