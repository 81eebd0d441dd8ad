//! Where an entry stands on the disk. `ranges.rt` reads entries.
ghost use Rattle.std.specs.Prelude.{◌≡◌, ◌+◌, ◌-◌, ◌<◌, ◌≤◌, ◌^◌, ◌++◌, ℕ, List, [], Some, length, filter, get_or, drop, IfOk, IfSome, IsErrOf, IsTrue, ◌⊎◌, MatchOption};
ghost use Rattle.store_model.specs.Disk.{Stays};
ghost use Rattle.store_model.specs.Faults.{Rose};
ghost use Rattle.gated_log.specs.Blocks.{StandsAt};
ghost use Rattle.entry_codec.specs.declared.entries.Entry.{Entry};
ghost use Rattle.entry_codec.specs.Spelling.{IsSpelled, spelling};
ghost use Rattle.receiver_chain.specs.Receivers.{Kept, area_of, receiver_at};
ghost use Rattle.receiver_chain.specs.Chain.{Holds as HoldsChain, IsHeld as IsChainHeld, attached_of, log_at};
ghost use Rattle.journal_model.specs.Journal.{AreNumbered};
ghost use Rattle.journal_book.specs.Book.{Holds, IsHeld};
ghost use Rattle.journal_book.specs.Entries.{HoldsEntries, IsBlock};
ghost use Rattle.journal_book.specs.Reads.{BeginsBehind, IsAhead, between, blocks_from, is_between};
ghost use Rattle.journal_book.specs.Searches.{IsSought, IsSoughtIn, StandAt};

use crate::blocks::{begins_behind, follows, read_front};
use crate::book::{Book, LENGTH};
use crate::fault::BookFault;
use crate::ranges::{AREAS_BEFORE, BlockPlace, block_at, receiver_of};
use crate::starts::{BlockStart, start_of};
use receiver_chain::Chain;
use std::alloc::{AllocError, Global};
use store_model::Store;

/// What was found of a sequence.
#[derive(Clone, Copy)]
pub enum Sought {
    /// Where its entry stands.
    At(u64),
    /// It comes later, behind this sequence.
    Behind(u64),
}

impl Book {
    /// The area of an entry that is forced, and its first byte there.
    pub fn place<S: Store>(
        &self,
        alloc: Global,
        store: &mut S,
        sequence: u64,
    ) -> Result<(u32, u64), BookFault>
        requires held { S.tells → IsHeld self.now (S.disk store.old) }
        requires kept { self.now.first ≤ sequence }
        requires forced { sequence < self.now.first + self.now.forced }
        ensures stands { IfOk result (λ place. S.tells → (all : List Entry) → Holds self.now all (S.disk store.old) → StandAt (between self.now.first sequence sequence all) place.0 place.1 (S.disk store.old).seen) }
        ensures named { (other : ℕ) → IsErrOf result (BookFault.ReceiverGone other) → ⊥ }
        ensures no_range { IsErrOf result BookFault.NoSuchEntry → ⊥ }
        ensures whole { (other area at : ℕ) → IsErrOf result (BookFault.BlockChanged other area at) → S.tells → ⊥ }
        ensures stays { Stays (S.disk store.old) (S.disk store.new) }
        ensures cause { IsErrOf result BookFault.StoreFault → Rose (S.disk store.old).faults (S.disk store.new).faults }
    {
        let start = seek_start(alloc, store, &self.chain, self.starts.as_slice(), sequence)?;
        let found = seek_from(alloc, store, &self.chain, start, sequence)?;
        Ok(found)
    }
}

/// A block from which on the entry of the sequence comes.
fn seek_start<S: Store>(
    alloc: Global,
    store: &mut S,
    chain: &Chain,
    starts: &[BlockStart],
    sequence: u64,
) -> Result<BlockStart, BookFault>
    requires held { S.tells → IsChainHeld chain.now (S.disk store.old) }
    ensures from { IfOk result (λ start. chain.now.first ≤ start.receiver) }
    ensures upto { IfOk result (λ start. start.receiver ≤ attached_of chain.now) }
    ensures ahead { IfOk result (λ start. S.tells → (kept : Kept) (entries : List Entry) → HoldsChain chain.now kept (S.disk store.old) → HoldsEntries chain.now.first kept entries → IsAhead sequence sequence entries [] start.before [] (blocks_from chain.now.first kept start.receiver start.n)) }
    ensures named { (other : ℕ) → IsErrOf result (BookFault.ReceiverGone other) → ⊥ }
    ensures no_range { IsErrOf result BookFault.NoSuchEntry → ⊥ }
    ensures whole { (other area at : ℕ) → IsErrOf result (BookFault.BlockChanged other area at) → ⊥ }
    ensures stays { Stays (S.disk store.old) (S.disk store.new) }
    ensures cause { IsErrOf result BookFault.StoreFault → Rose (S.disk store.old).faults (S.disk store.new).faults }
{
    let Some(start) = start_of(chain, starts, sequence) else {
        let first = first_start(chain, sequence);
        return Ok(first);
    };
    if begins_there(alloc, store, chain, start)? {
        Ok(start)
    } else {
        let front = first_start(chain, sequence);
        Ok(front)
    }
}

/// The first block of the receiver that has the sequence.
fn first_start(chain: &Chain, sequence: u64) -> BlockStart
    ensures from { chain.now.first ≤ result.receiver }
    ensures upto { result.receiver ≤ attached_of chain.now }
    ensures begins { (result.receiver ≡ chain.now.first) ⊎ ((log_at chain.now result.receiver).first ≤ sequence) }
    ensures before { result.before ≡ (log_at chain.now result.receiver).first - 1 }
    ensures front { result.n ≡ 0 }
{
    let receiver = receiver_of(chain, sequence);
    let before = chain.log(receiver).first().saturating_sub(1);
    BlockStart {
        before,
        receiver,
        n: 0,
    }
}

/// Whether the block that the start names begins there.
fn begins_there<S: Store>(
    alloc: Global,
    store: &mut S,
    chain: &Chain,
    start: BlockStart,
) -> Result<bool, BookFault>
    requires held { S.tells → IsChainHeld chain.now (S.disk store.old) }
    requires from { chain.now.first ≤ start.receiver }
    requires upto { start.receiver ≤ attached_of chain.now }
    requires below { start.n < length (log_at chain.now start.receiver).lengths }
    ensures begins { IfOk result (λ found. IsTrue found → S.tells → (kept : Kept) (group : List Entry) → HoldsChain chain.now kept (S.disk store.old) → IsBlock group (get_or (receiver_at chain.now.first kept start.receiver).blocks start.n []) → BeginsBehind start.before group) }
    ensures named { (other : ℕ) → IsErrOf result (BookFault.ReceiverGone other) → ⊥ }
    ensures no_range { IsErrOf result BookFault.NoSuchEntry → ⊥ }
    ensures whole { (other area at : ℕ) → IsErrOf result (BookFault.BlockChanged other area at) → ⊥ }
    ensures stays { Stays (S.disk store.old) (S.disk store.new) }
    ensures cause { IsErrOf result BookFault.StoreFault → Rose (S.disk store.old).faults (S.disk store.new).faults }
{
    let place = BlockPlace {
        receiver: start.receiver,
        n: start.n,
    };
    let block = block_at(alloc, store, chain, place)?;
    let found = begins_behind(alloc, &block, start.before)?;
    Ok(found)
}

/// Where the entry of the sequence stands, which comes in the blocks from a start on.
fn seek_from<S: Store>(
    alloc: Global,
    store: &mut S,
    chain: &Chain,
    start: BlockStart,
    sequence: u64,
) -> Result<(u32, u64), BookFault>
    requires held { S.tells → IsChainHeld chain.now (S.disk store.old) }
    requires from { chain.now.first ≤ start.receiver }
    requires upto { start.receiver ≤ attached_of chain.now }
    ensures stands { IfOk result (λ place. S.tells → (kept : Kept) (entries : List Entry) → HoldsChain chain.now kept (S.disk store.old) → IsAhead sequence sequence entries [] start.before [] (blocks_from chain.now.first kept start.receiver start.n) → StandAt (filter (is_between sequence sequence) entries) place.0 place.1 (S.disk store.old).seen) }
    ensures named { (other : ℕ) → IsErrOf result (BookFault.ReceiverGone other) → ⊥ }
    ensures no_range { IsErrOf result BookFault.NoSuchEntry → ⊥ }
    ensures whole { (other area at : ℕ) → IsErrOf result (BookFault.BlockChanged other area at) → S.tells → (kept : Kept) (entries : List Entry) → HoldsChain chain.now kept (S.disk store.old) → IsAhead sequence sequence entries [] start.before [] (blocks_from chain.now.first kept start.receiver start.n) → filter (is_between sequence sequence) entries ≡ [] }
    ensures stays { Stays (S.disk store.old) (S.disk store.new) }
    ensures cause { IsErrOf result BookFault.StoreFault → Rose (S.disk store.old).faults (S.disk store.new).faults }
{
    let attached = chain.attached();
    let mut receiver = start.receiver;
    let mut n = start.n;
    let mut reached = start.before;
    while receiver < attached {
        let here = BlockPlace { receiver, n };
        let found = seek_receiver(alloc, store, chain, here, reached, sequence)?;
        match found {
            Sought::At(at) => {
                return Ok((AREAS_BEFORE + receiver, at));
            }
            Sought::Behind(behind) => {
                reached = behind;
            }
        }
        receiver += 1;
        n = 0;
    }
    let there = BlockPlace { receiver, n };
    let last = seek_receiver(alloc, store, chain, there, reached, sequence)?;
    match last {
        Sought::At(at) => Ok((AREAS_BEFORE + receiver, at)),
        Sought::Behind(_) => Err(BookFault::BlockChanged {
            sequence,
            area: AREAS_BEFORE + receiver,
            at: 0,
        }), // the entry isn't there
    }
}

/// The same with the blocks of one receiver from a place on.
fn seek_receiver<S: Store>(
    alloc: Global,
    store: &mut S,
    chain: &Chain,
    place: BlockPlace,
    last: u64,
    sequence: u64,
) -> Result<Sought, BookFault>
    requires held { S.tells → IsChainHeld chain.now (S.disk store.old) }
    requires from { chain.now.first ≤ place.receiver }
    requires upto { place.receiver ≤ attached_of chain.now }
    ensures sought { IfOk result (λ found. S.tells → (kept : Kept) (entries : List Entry) (later : List (List ℕ)) → HoldsChain chain.now kept (S.disk store.old) → IsAhead sequence sequence entries [] last [] (drop place.n (receiver_at chain.now.first kept place.receiver).blocks ++ later) → IsSoughtIn sequence entries later ((S.disk store.old).seen (area_of place.receiver)) found) }
    ensures named { (other : ℕ) → IsErrOf result (BookFault.ReceiverGone other) → ⊥ }
    ensures no_range { IsErrOf result BookFault.NoSuchEntry → ⊥ }
    ensures whole { (other area at : ℕ) → IsErrOf result (BookFault.BlockChanged other area at) → S.tells → (kept : Kept) (entries : List Entry) (later : List (List ℕ)) → HoldsChain chain.now kept (S.disk store.old) → IsAhead sequence sequence entries [] last [] (drop place.n (receiver_at chain.now.first kept place.receiver).blocks ++ later) → ⊥ }
    ensures stays { Stays (S.disk store.old) (S.disk store.new) }
    ensures cause { IsErrOf result BookFault.StoreFault → Rose (S.disk store.old).faults (S.disk store.new).faults }
{
    let count = chain.log(place.receiver).count();
    let mut n = place.n;
    let mut reached = last;
    while n < count {
        let here = BlockPlace {
            receiver: place.receiver,
            n,
        };
        let found = seek_block(alloc, store, chain, here, reached, sequence)?;
        match found {
            Sought::At(at) => {
                return Ok(Sought::At(at));
            }
            Sought::Behind(behind) => {
                reached = behind;
            }
        }
        n += 1;
    }
    Ok(Sought::Behind(reached))
}

/// The same with one block, whose entries follow a sequence.
fn seek_block<S: Store>(
    alloc: Global,
    store: &mut S,
    chain: &Chain,
    place: BlockPlace,
    last: u64,
    sequence: u64,
) -> Result<Sought, BookFault>
    requires held { S.tells → IsChainHeld chain.now (S.disk store.old) }
    requires from { chain.now.first ≤ place.receiver }
    requires upto { place.receiver ≤ attached_of chain.now }
    requires below { place.n < length (log_at chain.now place.receiver).lengths }
    ensures sought { IfOk result (λ found. S.tells → (kept : Kept) (group : List Entry) → HoldsChain chain.now kept (S.disk store.old) → IsBlock group (get_or (receiver_at chain.now.first kept place.receiver).blocks place.n []) → AreNumbered (last + 1) group → IsSought sequence last group ((S.disk store.old).seen (area_of place.receiver)) found) }
    ensures named { (other : ℕ) → IsErrOf result (BookFault.ReceiverGone other) → ⊥ }
    ensures no_range { IsErrOf result BookFault.NoSuchEntry → ⊥ }
    ensures whole { (other area at : ℕ) → IsErrOf result (BookFault.BlockChanged other area at) → S.tells → (kept : Kept) (group : List Entry) → HoldsChain chain.now kept (S.disk store.old) → IsBlock group (get_or (receiver_at chain.now.first kept place.receiver).blocks place.n []) → AreNumbered (last + 1) group → ⊥ }
    ensures stays { Stays (S.disk store.old) (S.disk store.new) }
    ensures cause { IsErrOf result BookFault.StoreFault → Rose (S.disk store.old).faults (S.disk store.new).faults }
{
    let block = block_at(alloc, store, chain, place)?;
    let sought = seek(alloc, &block, last, sequence)?;
    let Some(found) = sought else {
        return Err(BookFault::BlockChanged {
            sequence: last.saturating_add(1),
            area: AREAS_BEFORE.saturating_add(place.receiver),
            at: chain.log(place.receiver).place(place.n),
        });
    };
    let start = chain.log(place.receiver).place(place.n);
    let there = moved(found, start);
    Ok(there)
}

/// What was found in a block, as a place of its area, where the block begins at this one.
fn moved(found: Sought, start: u64) -> Sought
    ensures { (sequence last : ℕ) (group : List Entry) (block bytes : List ℕ) → StandsAt start block bytes → length bytes ≤ 2 ^ 62 → IsSought sequence last group block found → IsSought sequence last group bytes result }
{
    match found {
        Sought::At(at) => {
            let body = start.saturating_add(LENGTH as u64);
            let there = body.saturating_add(at);
            Sought::At(there)
        }
        Sought::Behind(reached) => Sought::Behind(reached),
    }
}

/// Where in a block the entry of the sequence stands, or that it comes behind the block's last one; `None` where it is no
/// block of entries that follow `last`.
fn seek(alloc: Global, block: &[u8], last: u64, sequence: u64) -> Result<Option<Sought>, AllocError>
    ensures { (group : List Entry) → IsBlock group block.now → AreNumbered (last + 1) group → IfOk result (λ sought. MatchOption sought ⊥ (λ found. IsSought sequence last group block.now found)) }
{
    let mut at = 0;
    let mut reached = last;
    while at < block.len() {
        let Some((found, count)) = sequence_at(alloc, &block[at..])? else {
            return Ok(None);
        };
        if found == sequence {
            return Ok(Some(Sought::At(at as u64)));
        }
        if follows(reached, found) {
            reached = found;
            at += count;
        } else {
            return Ok(None);
        }
    }
    Ok(Some(Sought::Behind(reached)))
}

/// The sequence of the entry at the front of the bytes, and how many of them it takes.
fn sequence_at(alloc: Global, bytes: &[u8]) -> Result<Option<(u64, usize)>, AllocError>
    ensures only { (e : Entry) (rest : List ℕ) → IsSpelled e → bytes.now ≡ spelling e ++ rest → IfOk result (λ read. read ≡ Some (e.sequence, length (spelling e))) }
    ensures within { IfOk result (λ read. IfSome read (λ x. (1 ≤ x.1) × (x.1 ≤ length bytes.now))) }
{
    let Some((entry, count)) = read_front(alloc, bytes)? else {
        return Ok(None);
    };
    Ok(Some((entry.sequence, count)))
}
