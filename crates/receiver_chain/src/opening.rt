//! Opens a chain: from receiver to receiver, as far as they are tied, and trusts no byte.
ghost use Rattle.std.specs.Prelude.{◌≡◌, ◌+◌, ◌<◌, ◌≤◌, ◌++◌, ◌↔◌, ℕ, List, IfOk, OnOk, IsErrOf, IsTrue};
ghost use Rattle.store_model.specs.Disk.{Stays};
ghost use Rattle.store_model.specs.Faults.{Rose};
ghost use Rattle.gated_log.specs.Blocks.{header, MayBegin};
ghost use Rattle.gated_log.specs.Log.{HasBlocks};
ghost use Rattle.receiver_chain.specs.Receivers.{area_of, before_first, Follows, HasNoStart, IsReceiverDamagedAt, IsChainDamagedAt};
ghost use Rattle.receiver_chain.specs.Chain.{HasKept};

use crate::chain::Chain;
use crate::link::link_of;
use crate::numbers::{FIRST_RECEIVER, MAX_RECEIVER, area_of};
use byteorder::{BigEndian, ByteOrder};
use gated_log::{Log, LogFault};
use std::alloc::Global;
use std::mem;
use store_model::Store;

/// The bytes of a log's header.
const HEADER: u64 = 32;

/// Where in the header the first sequence stands.
const FIRST_AT: u64 = 16;

/// Opens the receivers from this one on, as far as they are tied. It writes nothing; from its syncs on a stop leaves of
/// them what a read gives.
pub fn open<S: Store>(alloc: Global, store: &mut S, first: u32) -> Result<Chain, LogFault>
    requires { 1 ≤ first × (first ≤ MAX_RECEIVER) }
    ensures opened { IfOk result (λ chain. S.tells → HasKept chain (S.disk store.new)) }
    ensures first { IfOk result (λ chain. chain.first ≡ first) }
    ensures damaged { (area at : ℕ) → IsErrOf result (LogFault.Damaged area at) → S.tells → IsChainDamagedAt first (S.disk store.old).seen area at }
    ensures stays { Stays (S.disk store.old) (S.disk store.new) }
    ensures cause { IsErrOf result LogFault.StoreFault → Rose (S.disk store.old).faults (S.disk store.new).faults }
{
    let mut earlier = Vec::new(alloc);
    let mut receiver = first;
    let mut log = open_receiver(alloc, store, receiver, before_first(receiver))?;
    while let Some(before) = link_of(alloc, store, &log, receiver)? {
        receiver += 1;
        let next = open_receiver(alloc, store, receiver, Some(before))?;
        earlier.push(mem::replace(&mut log, next))?;
    }
    Ok(Chain {
        first,
        earlier,
        attached: log,
        room: 0,
    })
}

/// The last sequence before the first receiver that is kept, where it is known.
fn before_first(receiver: u32) -> Option<u64>
    ensures { result ≡ before_first receiver }
{
    if receiver == FIRST_RECEIVER {
        Some(0)
    } else {
        None
    }
}

/// Opens the log of a receiver that begins behind this sequence, where it is known.
fn open_receiver<S: Store>(
    alloc: Global,
    store: &mut S,
    receiver: u32,
    before: Option<u64>,
) -> Result<Log, LogFault>
    requires { receiver ≤ MAX_RECEIVER }
    ensures opened { IfOk result (λ log. S.tells → HasBlocks log (S.disk store.new)) }
    ensures area { IfOk result (λ log. log.area ≡ area_of receiver) }
    ensures follows { IfOk result (λ log. S.tells → Follows before log.first) }
    ensures damaged { (a at : ℕ) → IsErrOf result (LogFault.Damaged a at) → (a ≡ area_of receiver) × (S.tells → IsReceiverDamagedAt (area_of receiver) before ((S.disk store.old).seen (area_of receiver)) at) }
    ensures stays { Stays (S.disk store.old) (S.disk store.new) }
    ensures cause { IsErrOf result LogFault.StoreFault → Rose (S.disk store.old).faults (S.disk store.new).faults }
{
    let area = area_of(receiver);
    check_first(store, area, before)?;
    let log = gated_log::open(alloc, store, area)?;
    Ok(log)
}

/// Refuses a header whose first sequence is another than the one behind this, where it is known.
fn check_first<S: Store>(store: &mut S, area: u32, before: Option<u64>) -> Result<(), LogFault>
    ensures follows { OnOk result (S.tells → (first version : ℕ) (body : List ℕ) → MayBegin area first version → (S.disk store.old).seen area ≡ header area first version ++ body → Follows before first) }
    ensures damaged { (a at : ℕ) → IsErrOf result (LogFault.Damaged a at) → (a ≡ area) × (at ≡ 0) × (S.tells → HasNoStart area before ((S.disk store.old).seen area)) }
    ensures no_memory { IsErrOf result LogFault.NoMemory → ⊥ }
    ensures stays { Stays (S.disk store.old) (S.disk store.new) }
    ensures cause { IsErrOf result LogFault.StoreFault → Rose (S.disk store.old).faults (S.disk store.new).faults }
{
    let Some(before) = before else {
        return Ok(());
    };
    store.sync(area)?;
    let size = store.size(area)?;
    if size < HEADER {
        return Ok(()); // there is no header
    }
    let mut field = [0; 8];
    store.read(area, FIRST_AT, &mut field)?;
    if follows(before, BigEndian::read_u64(&field)) {
        Ok(())
    } else {
        Err(LogFault::Damaged { area, at: 0 })
    }
}

/// Whether one sequence comes directly behind another.
fn follows(before: u64, first: u64) -> bool
    ensures { IsTrue result ↔ (first ≡ before + 1) }
{
    first > before && first - before == 1
}
