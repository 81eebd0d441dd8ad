//! Entries by their sequences: how a range is read back. `blocks.rt` has what a block's bytes are.
ghost use Rattle.std.specs.Prelude.{◌≡◌, ◌+◌, ◌-◌, ◌<◌, ◌≤◌, ◌^◌, ◌⊎◌, ◌++◌, ℕ, List, [], length, filter, get_or, drop, IfOk, OnOk, IsErrOf, IsTrue, ◌↔◌, MatchOption};
ghost use Rattle.store_model.specs.Disk.{Stays};
ghost use Rattle.store_model.specs.Faults.{Rose};
ghost use Rattle.entry_codec.specs.declared.entries.Entry.{Entry};
ghost use Rattle.receiver_chain.specs.Receivers.{Kept, receiver_at};
ghost use Rattle.receiver_chain.specs.Chain.{Holds as HoldsChain, IsHeld as IsChainHeld, attached_of, log_at};
ghost use Rattle.journal_model.specs.Journal.{AreNumbered};
ghost use Rattle.journal_book.specs.Book.{Holds, IsHeld, last_of};
ghost use Rattle.journal_book.specs.Entries.{HoldsEntries, IsBlock};
ghost use Rattle.journal_book.specs.Reads.{IsAhead, between, blocks_from, is_between};

use crate::blocks::{Range, begins_behind, take_entries};
use crate::book::{Book, LENGTH};
use crate::fault::BookFault;
use crate::starts::{BlockStart, start_of};
use entry_codec::Entry;
use gated_log::LogFault;
use receiver_chain::Chain;
use std::alloc::{AllocError, Global};
use store_model::Store;

/// The areas before that of receiver 1 hold root records and checkpoints.
pub(crate) const AREAS_BEFORE: u32 = 2;

/// The nth block of a receiver, from 0.
#[derive(Clone, Copy)]
pub struct BlockPlace {
    pub receiver: u32,
    pub n: u64,
}

impl Book {
    /// The entries of these sequences, those that aren't forced yet included.
    pub fn entries<S: Store>(
        &self,
        alloc: Global,
        store: &mut S,
        lo: u64,
        hi: u64,
    ) -> Result<Vec<Entry>, BookFault>
        requires held { S.tells → IsHeld self.now (S.disk store.old) }
        ensures entries { IfOk result (λ found. S.tells → (all : List Entry) → Holds self.now all (S.disk store.old) → found.items ≡ between self.now.first lo hi all) }
        ensures unread { self.now.first + self.now.forced ≤ lo → (S.disk store.new).faults ≡ (S.disk store.old).faults }
        ensures never { self.now.first + self.now.forced ≤ lo → IsErrOf result BookFault.StoreFault → ⊥ }
        ensures turned { hi < lo → IsErrOf result BookFault.NoSuchEntry }
        ensures zero { lo ≡ 0 → IsErrOf result BookFault.NoSuchEntry }
        ensures past { last_of self.now < hi → IsErrOf result BookFault.NoSuchEntry }
        ensures there { lo ≤ hi → 1 ≤ lo → hi ≤ last_of self.now → IsErrOf result BookFault.NoSuchEntry → ⊥ }
        ensures gone { lo ≤ hi → 1 ≤ lo → hi ≤ last_of self.now → lo < self.now.first → IsErrOf result (BookFault.ReceiverGone self.now.first) }
        ensures kept { self.now.first ≤ lo → (sequence : ℕ) → IsErrOf result (BookFault.ReceiverGone sequence) → ⊥ }
        ensures whole { (sequence area at : ℕ) → IsErrOf result (BookFault.BlockChanged sequence area at) → S.tells → ⊥ }
        ensures stays { Stays (S.disk store.old) (S.disk store.new) }
        ensures cause { IsErrOf result BookFault.StoreFault → Rose (S.disk store.old).faults (S.disk store.new).faults }
    {
        let (first, last) = self.bounds();
        if lo > hi || lo == 0 || hi > last {
            return Err(BookFault::NoSuchEntry);
        }
        if lo < first {
            return Err(BookFault::ReceiverGone { sequence: first });
        }
        self.read_range(alloc, store, Range { lo, hi })
    }

    /// Whether the block of a sequence is in memory, as it isn't forced yet.
    pub fn keeps(&self, sequence: u64) -> bool
        ensures { IsTrue result ↔ (self.now.first + self.now.forced ≤ sequence) }
    {
        sequence >= self.first && sequence - self.first >= self.forced
    }

    /// The same of sequences that are there.
    fn read_range<S: Store>(
        &self,
        alloc: Global,
        store: &mut S,
        range: Range,
    ) -> Result<Vec<Entry>, BookFault>
        requires held { S.tells → IsHeld self.now (S.disk store.old) }
        requires kept { self.now.first ≤ range.lo }
        requires some { range.lo ≤ range.hi }
        requires there { range.hi ≤ last_of self.now }
        ensures entries { IfOk result (λ found. S.tells → (all : List Entry) → Holds self.now all (S.disk store.old) → found.items ≡ between self.now.first range.lo range.hi all) }
        ensures unread { self.now.first + self.now.forced ≤ range.lo → (S.disk store.new).faults ≡ (S.disk store.old).faults }
        ensures never { self.now.first + self.now.forced ≤ range.lo → IsErrOf result BookFault.StoreFault → ⊥ }
        ensures named { (sequence : ℕ) → IsErrOf result (BookFault.ReceiverGone sequence) → ⊥ }
        ensures no_range { IsErrOf result BookFault.NoSuchEntry → ⊥ }
        ensures whole { (sequence area at : ℕ) → IsErrOf result (BookFault.BlockChanged sequence area at) → S.tells → ⊥ }
        ensures stays { Stays (S.disk store.old) (S.disk store.new) }
        ensures cause { IsErrOf result BookFault.StoreFault → Rose (S.disk store.old).faults (S.disk store.new).faults }
    {
        let mut found = Vec::new(alloc);
        self.take_on_disk(alloc, store, range, &mut found)?;
        self.take_waiting(alloc, range, &mut found)?;
        Ok(found)
    }

    /// Puts the forced entries that are in the range behind those that were found. It reads nothing where none is.
    fn take_on_disk<S: Store>(
        &self,
        alloc: Global,
        store: &mut S,
        range: Range,
        found: &mut Vec<Entry>,
    ) -> Result<(), BookFault>
        requires held { S.tells → IsHeld self.now (S.disk store.old) }
        ensures taken { OnOk result (S.tells → (all : List Entry) (holds : Holds self.now all (S.disk store.old)) → found.new.items ≡ found.old.items ++ filter (is_between range.lo range.hi) holds.keeps.front) }
        ensures unread { self.now.first + self.now.forced ≤ range.lo → (S.disk store.new).faults ≡ (S.disk store.old).faults }
        ensures never { self.now.first + self.now.forced ≤ range.lo → IsErrOf result BookFault.StoreFault → ⊥ }
        ensures named { (sequence : ℕ) → IsErrOf result (BookFault.ReceiverGone sequence) → ⊥ }
        ensures no_range { IsErrOf result BookFault.NoSuchEntry → ⊥ }
        ensures whole { (sequence area at : ℕ) → IsErrOf result (BookFault.BlockChanged sequence area at) → S.tells → ⊥ }
        ensures stays { Stays (S.disk store.old) (S.disk store.new) }
        ensures cause { IsErrOf result BookFault.StoreFault → Rose (S.disk store.old).faults (S.disk store.new).faults }
    {
        if self.keeps(range.lo) {
            return Ok(());
        }
        take_forced(
            alloc,
            store,
            &self.chain,
            self.starts.as_slice(),
            range,
            found,
        )?;
        Ok(())
    }

    /// Puts the entries of the buffered block that are in the range behind those that were found.
    fn take_waiting(
        &self,
        alloc: Global,
        range: Range,
        found: &mut Vec<Entry>,
    ) -> Result<(), AllocError>
        ensures { OnOk result ((tail : List Entry) → IsBlock tail self.now.buffered → AreNumbered (self.now.first + self.now.forced) tail → found.new.items ≡ found.old.items ++ filter (is_between range.lo range.hi) tail) }
    {
        let last = self.first - 1 + self.forced;
        let _reached = take_entries(alloc, &self.framed[LENGTH..], last, range, found)?;
        Ok(())
    }
}

/// Puts the forced entries that are in the range behind those that were found. It begins with the block that the starts
/// name, if that says the same, else with the receiver that has the range's first sequence.
fn take_forced<S: Store>(
    alloc: Global,
    store: &mut S,
    chain: &Chain,
    starts: &[BlockStart],
    range: Range,
    found: &mut Vec<Entry>,
) -> Result<(), BookFault>
    requires held { S.tells → IsChainHeld chain.now (S.disk store.old) }
    ensures taken { OnOk result (S.tells → (kept : Kept) (entries : List Entry) → HoldsChain chain.now kept (S.disk store.old) → HoldsEntries chain.now.first kept entries → found.new.items ≡ found.old.items ++ filter (is_between range.lo range.hi) entries) }
    ensures named { (sequence : ℕ) → IsErrOf result (BookFault.ReceiverGone sequence) → ⊥ }
    ensures no_range { IsErrOf result BookFault.NoSuchEntry → ⊥ }
    ensures whole { (sequence area at : ℕ) → IsErrOf result (BookFault.BlockChanged sequence area at) → S.tells → (kept : Kept) (entries : List Entry) → HoldsChain chain.now kept (S.disk store.old) → HoldsEntries chain.now.first kept entries → ⊥ }
    ensures stays { Stays (S.disk store.old) (S.disk store.new) }
    ensures cause { IsErrOf result BookFault.StoreFault → Rose (S.disk store.old).faults (S.disk store.new).faults }
{
    let Some(start) = start_of(chain, starts, range.lo) else {
        take_all(alloc, store, chain, range, found)?;
        return Ok(());
    };
    take_from(alloc, store, chain, start, range, found)?;
    Ok(())
}

/// The same from the block that the start names on, if it begins there.
fn take_from<S: Store>(
    alloc: Global,
    store: &mut S,
    chain: &Chain,
    start: BlockStart,
    range: Range,
    found: &mut Vec<Entry>,
) -> Result<(), BookFault>
    requires held { S.tells → IsChainHeld chain.now (S.disk store.old) }
    requires from { chain.now.first ≤ start.receiver }
    requires upto { start.receiver ≤ attached_of chain.now }
    requires below { start.n < length (log_at chain.now start.receiver).lengths }
    requires before { start.before < range.lo }
    requires fits { start.n + 1 < 2 ^ 64 }
    ensures taken { OnOk result (S.tells → (kept : Kept) (entries : List Entry) → HoldsChain chain.now kept (S.disk store.old) → HoldsEntries chain.now.first kept entries → found.new.items ≡ found.old.items ++ filter (is_between range.lo range.hi) entries) }
    ensures named { (sequence : ℕ) → IsErrOf result (BookFault.ReceiverGone sequence) → ⊥ }
    ensures no_range { IsErrOf result BookFault.NoSuchEntry → ⊥ }
    ensures whole { (sequence area at : ℕ) → IsErrOf result (BookFault.BlockChanged sequence area at) → S.tells → (kept : Kept) (entries : List Entry) → HoldsChain chain.now kept (S.disk store.old) → HoldsEntries chain.now.first kept entries → ⊥ }
    ensures stays { Stays (S.disk store.old) (S.disk store.new) }
    ensures cause { IsErrOf result BookFault.StoreFault → Rose (S.disk store.old).faults (S.disk store.new).faults }
{
    let Some(reached) = take_start(alloc, store, chain, start, range, found)? else {
        take_all(alloc, store, chain, range, found)?;
        return Ok(());
    };
    let behind = BlockPlace {
        receiver: start.receiver,
        n: start.n + 1,
    };
    take_behind(alloc, store, chain, behind, reached, range, found)?;
    Ok(())
}

/// The same from the beginning of the receiver that has the first sequence of the range.
fn take_all<S: Store>(
    alloc: Global,
    store: &mut S,
    chain: &Chain,
    range: Range,
    found: &mut Vec<Entry>,
) -> Result<(), BookFault>
    requires held { S.tells → IsChainHeld chain.now (S.disk store.old) }
    ensures taken { OnOk result (S.tells → (kept : Kept) (entries : List Entry) → HoldsChain chain.now kept (S.disk store.old) → HoldsEntries chain.now.first kept entries → found.new.items ≡ found.old.items ++ filter (is_between range.lo range.hi) entries) }
    ensures named { (sequence : ℕ) → IsErrOf result (BookFault.ReceiverGone sequence) → ⊥ }
    ensures no_range { IsErrOf result BookFault.NoSuchEntry → ⊥ }
    ensures whole { (sequence area at : ℕ) → IsErrOf result (BookFault.BlockChanged sequence area at) → S.tells → (kept : Kept) (entries : List Entry) → HoldsChain chain.now kept (S.disk store.old) → HoldsEntries chain.now.first kept entries → ⊥ }
    ensures stays { Stays (S.disk store.old) (S.disk store.new) }
    ensures cause { IsErrOf result BookFault.StoreFault → Rose (S.disk store.old).faults (S.disk store.new).faults }
{
    let receiver = receiver_of(chain, range.lo);
    let last = chain.log(receiver).first().saturating_sub(1);
    let place = BlockPlace { receiver, n: 0 };
    take_behind(alloc, store, chain, place, last, range, found)?;
    Ok(())
}

/// The entries of the block that the start names, where it begins behind that sequence. Gives the last one; `None` where it
/// begins elsewhere.
fn take_start<S: Store>(
    alloc: Global,
    store: &mut S,
    chain: &Chain,
    start: BlockStart,
    range: Range,
    found: &mut Vec<Entry>,
) -> Result<Option<u64>, BookFault>
    requires held { S.tells → IsChainHeld chain.now (S.disk store.old) }
    requires from { chain.now.first ≤ start.receiver }
    requires upto { start.receiver ≤ attached_of chain.now }
    requires below { start.n < length (log_at chain.now start.receiver).lengths }
    requires before { start.before < range.lo }
    ensures taken { IfOk result (λ taken. S.tells → (kept : Kept) (entries : List Entry) → HoldsChain chain.now kept (S.disk store.old) → HoldsEntries chain.now.first kept entries → MatchOption taken (found.new.items ≡ found.old.items) (λ reached. IsAhead range.lo range.hi entries found.old.items reached found.new.items (blocks_from chain.now.first kept start.receiver (start.n + 1)))) }
    ensures named { (sequence : ℕ) → IsErrOf result (BookFault.ReceiverGone sequence) → ⊥ }
    ensures no_range { IsErrOf result BookFault.NoSuchEntry → ⊥ }
    ensures whole { (sequence area at : ℕ) → IsErrOf result (BookFault.BlockChanged sequence area at) → ⊥ }
    ensures stays { Stays (S.disk store.old) (S.disk store.new) }
    ensures cause { IsErrOf result BookFault.StoreFault → Rose (S.disk store.old).faults (S.disk store.new).faults }
{
    let place = BlockPlace {
        receiver: start.receiver,
        n: start.n,
    };
    let block = block_at(alloc, store, chain, place)?;
    if begins_behind(alloc, &block, start.before)? {
        let taken = take_entries(alloc, &block, start.before, range, found)?;
        Ok(taken)
    } else {
        Ok(None)
    }
}

/// The same with the blocks from a place on, whose entries follow this sequence.
fn take_behind<S: Store>(
    alloc: Global,
    store: &mut S,
    chain: &Chain,
    place: BlockPlace,
    last: u64,
    range: Range,
    found: &mut Vec<Entry>,
) -> Result<(), BookFault>
    requires held { S.tells → IsChainHeld chain.now (S.disk store.old) }
    requires from { chain.now.first ≤ place.receiver }
    requires upto { place.receiver ≤ attached_of chain.now }
    ensures taken { OnOk result (S.tells → (kept : Kept) (entries old : List Entry) → HoldsChain chain.now kept (S.disk store.old) → IsAhead range.lo range.hi entries old last found.old.items (blocks_from chain.now.first kept place.receiver place.n) → found.new.items ≡ old ++ filter (is_between range.lo range.hi) entries) }
    ensures named { (sequence : ℕ) → IsErrOf result (BookFault.ReceiverGone sequence) → ⊥ }
    ensures no_range { IsErrOf result BookFault.NoSuchEntry → ⊥ }
    ensures whole { (sequence area at : ℕ) → IsErrOf result (BookFault.BlockChanged sequence area at) → S.tells → (kept : Kept) (entries old : List Entry) → HoldsChain chain.now kept (S.disk store.old) → IsAhead range.lo range.hi entries old last found.old.items (blocks_from chain.now.first kept place.receiver place.n) → ⊥ }
    ensures stays { Stays (S.disk store.old) (S.disk store.new) }
    ensures cause { IsErrOf result BookFault.StoreFault → Rose (S.disk store.old).faults (S.disk store.new).faults }
{
    let attached = chain.attached();
    let mut receiver = place.receiver;
    let mut n = place.n;
    let mut reached = last;
    while receiver < attached {
        let here = BlockPlace { receiver, n };
        let Some(sequence) = take_receiver(alloc, store, chain, here, reached, range, found)? else {
            return Ok(());
        };
        reached = sequence;
        receiver += 1;
        n = 0;
    }
    let there = BlockPlace { receiver, n };
    let _end = take_receiver(alloc, store, chain, there, reached, range, found)?;
    Ok(())
}

/// The last receiver that begins at this sequence or before it.
pub fn receiver_of(chain: &Chain, sequence: u64) -> u32
    ensures from { chain.now.first ≤ result }
    ensures upto { result ≤ attached_of chain.now }
    ensures begins { (result ≡ chain.now.first) ⊎ ((log_at chain.now result).first ≤ sequence) }
{
    let attached = chain.attached();
    let mut receiver = chain.first();
    while receiver < attached && chain.log(receiver + 1).first() <= sequence {
        receiver += 1;
    }
    receiver
}

/// The same with the blocks of one receiver from a place on. Gives the last sequence, or `None` where the range ends
/// before.
fn take_receiver<S: Store>(
    alloc: Global,
    store: &mut S,
    chain: &Chain,
    place: BlockPlace,
    last: u64,
    range: Range,
    found: &mut Vec<Entry>,
) -> Result<Option<u64>, BookFault>
    requires held { S.tells → IsChainHeld chain.now (S.disk store.old) }
    requires from { chain.now.first ≤ place.receiver }
    requires upto { place.receiver ≤ attached_of chain.now }
    ensures taken { IfOk result (λ taken. S.tells → (kept : Kept) (entries old : List Entry) (later : List (List ℕ)) → HoldsChain chain.now kept (S.disk store.old) → IsAhead range.lo range.hi entries old last found.old.items (drop place.n (receiver_at chain.now.first kept place.receiver).blocks ++ later) → MatchOption taken (found.new.items ≡ old ++ filter (is_between range.lo range.hi) entries) (λ reached. IsAhead range.lo range.hi entries old reached found.new.items later)) }
    ensures named { (sequence : ℕ) → IsErrOf result (BookFault.ReceiverGone sequence) → ⊥ }
    ensures no_range { IsErrOf result BookFault.NoSuchEntry → ⊥ }
    ensures whole { (sequence area at : ℕ) → IsErrOf result (BookFault.BlockChanged sequence area at) → S.tells → (kept : Kept) (entries old : List Entry) (later : List (List ℕ)) → HoldsChain chain.now kept (S.disk store.old) → IsAhead range.lo range.hi entries old last found.old.items (drop place.n (receiver_at chain.now.first kept place.receiver).blocks ++ later) → ⊥ }
    ensures stays { Stays (S.disk store.old) (S.disk store.new) }
    ensures cause { IsErrOf result BookFault.StoreFault → Rose (S.disk store.old).faults (S.disk store.new).faults }
{
    let count = chain.log(place.receiver).count();
    let mut n = place.n;
    let mut reached = last;
    while n < count {
        if range.ends(reached) {
            return Ok(None);
        }
        let here = BlockPlace {
            receiver: place.receiver,
            n,
        };
        reached = take_block(alloc, store, chain, here, reached, range, found)?;
        n += 1;
    }
    Ok(Some(reached))
}

/// The same with the entries of one block, which follow this sequence. Gives the last one.
fn take_block<S: Store>(
    alloc: Global,
    store: &mut S,
    chain: &Chain,
    place: BlockPlace,
    last: u64,
    range: Range,
    found: &mut Vec<Entry>,
) -> Result<u64, BookFault>
    requires held { S.tells → IsChainHeld chain.now (S.disk store.old) }
    requires from { chain.now.first ≤ place.receiver }
    requires upto { place.receiver ≤ attached_of chain.now }
    requires below { place.n < length (log_at chain.now place.receiver).lengths }
    ensures taken { IfOk result (λ reached. S.tells → (kept : Kept) (entries : List Entry) → HoldsChain chain.now kept (S.disk store.old) → IsBlock entries (get_or (receiver_at chain.now.first kept place.receiver).blocks place.n []) → AreNumbered (last + 1) entries → (reached ≡ last + length entries) × (found.new.items ≡ found.old.items ++ filter (is_between range.lo range.hi) entries)) }
    ensures named { (sequence : ℕ) → IsErrOf result (BookFault.ReceiverGone sequence) → ⊥ }
    ensures no_range { IsErrOf result BookFault.NoSuchEntry → ⊥ }
    ensures whole { (sequence area at : ℕ) → IsErrOf result (BookFault.BlockChanged sequence area at) → S.tells → (kept : Kept) (entries : List Entry) → HoldsChain chain.now kept (S.disk store.old) → IsBlock entries (get_or (receiver_at chain.now.first kept place.receiver).blocks place.n []) → AreNumbered (last + 1) entries → ⊥ }
    ensures stays { Stays (S.disk store.old) (S.disk store.new) }
    ensures cause { IsErrOf result BookFault.StoreFault → Rose (S.disk store.old).faults (S.disk store.new).faults }
{
    let block = block_at(alloc, store, chain, place)?;
    let taken = take_entries(alloc, &block, last, range, found)?;
    let Some(reached) = taken else {
        return Err(BookFault::BlockChanged {
            sequence: last.saturating_add(1),
            area: AREAS_BEFORE.saturating_add(place.receiver),
            at: chain.log(place.receiver).place(place.n),
        });
    };
    Ok(reached)
}

/// The bytes of a block.
pub fn block_at<S: Store>(
    alloc: Global,
    store: &mut S,
    chain: &Chain,
    place: BlockPlace,
) -> Result<Vec<u8>, BookFault>
    requires held { S.tells → IsChainHeld chain.now (S.disk store.old) }
    requires from { chain.now.first ≤ place.receiver }
    requires upto { place.receiver ≤ attached_of chain.now }
    requires below { place.n < length (log_at chain.now place.receiver).lengths }
    ensures block { IfOk result (λ block. S.tells → (kept : Kept) → HoldsChain chain.now kept (S.disk store.old) → block.items ≡ get_or (receiver_at chain.now.first kept place.receiver).blocks place.n []) }
    ensures named { (sequence : ℕ) → IsErrOf result (BookFault.ReceiverGone sequence) → ⊥ }
    ensures no_range { IsErrOf result BookFault.NoSuchEntry → ⊥ }
    ensures whole { (sequence area at : ℕ) → IsErrOf result (BookFault.BlockChanged sequence area at) → ⊥ }
    ensures stays { Stays (S.disk store.old) (S.disk store.new) }
    ensures cause { IsErrOf result BookFault.StoreFault → Rose (S.disk store.old).faults (S.disk store.new).faults }
{
    match chain.block(alloc, store, place.receiver, place.n) {
        Ok(block) => Ok(block),
        Err(LogFault::NoMemory) => Err(BookFault::NoMemory),
        Err(LogFault::StoreFault) => Err(BookFault::StoreFault),
        Err(LogFault::Damaged { .. }) => Err(BookFault::StoreFault), // no block of an open log
    }
}
