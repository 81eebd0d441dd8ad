//! Whether a block ties a receiver to the next one.
ghost use Rattle.std.specs.Prelude.{◌≡◌, ◌≤◌, ◌<◌, ◌+◌, ℕ, List, length, IfOk, IfSome, IsErrOf, MatchOption};
ghost use Rattle.store_model.specs.Disk.{Stays};
ghost use Rattle.store_model.specs.Faults.{Rose};
ghost use Rattle.entry_codec.specs.Spelling.{Begins};
ghost use Rattle.gated_log.specs.Log.{Settled, IsSettled};
ghost use Rattle.receiver_chain.specs.Links.{EndsInLink, EndsInNoLink, IsLink, IsNoLink};

use crate::numbers::MAX_RECEIVER;
use entry_codec::{Entry, EntryKind, read_entry};
use gated_log::{Log, LogFault};
use std::alloc::{AllocError, Global};
use store_model::Store;

/// The sequence of the entry by which a receiver's log ends, if that entry names the next receiver.
pub fn link_of<S: Store>(
    alloc: Global,
    store: &mut S,
    log: &Log,
    receiver: u32,
) -> Result<Option<u64>, LogFault>
    requires settled { S.tells → IsSettled log.now (S.disk store.old) }
    requires made { receiver ≤ MAX_RECEIVER }
    ensures link { IfOk result (λ found. S.tells → (blocks : List (List ℕ)) → Settled log.now blocks (S.disk store.old) → MatchOption found (EndsInNoLink (receiver + 1) blocks) (λ before. EndsInLink (receiver + 1) before blocks)) }
    ensures below { IfOk result (λ found. IfSome found (λ _. receiver < MAX_RECEIVER)) }
    ensures whole { (area at : ℕ) → IsErrOf result (LogFault.Damaged area at) → ⊥ }
    ensures stays { Stays (S.disk store.old) (S.disk store.new) }
    ensures cause { IsErrOf result LogFault.StoreFault → Rose (S.disk store.old).faults (S.disk store.new).faults }
{
    let count = log.count();
    if receiver == MAX_RECEIVER || count == 0 {
        return Ok(None);
    }
    let block = log.block(alloc, store, count - 1)?;
    let found = link_in(alloc, &block, receiver + 1)?;
    Ok(found)
}

/// The sequence of the block's one entry, if it names this receiver as the next one.
fn link_in(alloc: Global, block: &[u8], next: u32) -> Result<Option<u64>, AllocError>
    requires { next ≤ MAX_RECEIVER }
    ensures { IfOk result (λ found. MatchOption found (IsNoLink next block.now) (λ before. IsLink next before block.now)) }
{
    let Some((entry, count)) = read_entry(alloc, block)? else {
        return Ok(None);
    };
    let found = link_by(&entry, count, block, next);
    Ok(found)
}

/// The same, where this entry stands at the front of the block and takes so many of its bytes.
fn link_by(entry: &Entry, count: usize, block: &[u8], next: u32) -> Option<u64>
    requires front { Begins block.now entry.now count }
    requires made { next ≤ MAX_RECEIVER }
    ensures { MatchOption result (IsNoLink next block.now) (λ before. IsLink next before block.now) }
{
    if count != block.len() {
        return None;
    }
    let EntryKind::NextReceiver { number } = entry.kind else {
        return None;
    };
    if number != next {
        return None;
    }
    Some(entry.sequence)
}
