//! How the journal goes on in the next receiver. `book.rt` has the book.
ghost use Rattle.std.specs.Prelude.{◌≡◌, ◌⊎◌, ◌+◌, ◌<◌, ◌≤◌, ◌^◌, ℕ, true, List, [], ◌∷◌, ◌++◌, length, IfOk, OnOk, OnErr, IsErrOf};
ghost use Rattle.store_model.specs.Disk.{Leaves};
ghost use Rattle.store_model.specs.Faults.{Rose};
ghost use Rattle.gated_log.specs.Blocks.{frame};
ghost use Rattle.entry_codec.specs.declared.entries.Entry.{Entry};
ghost use Rattle.entry_codec.specs.declared.kinds.EntryKind.TheVariants.{NextReceiver, PreviousReceiver};
ghost use Rattle.entry_codec.specs.Drafts.{numbered};
ghost use Rattle.entry_codec.specs.Spelling.{HasSpelling, IsSpelled, spelling};
ghost use Rattle.receiver_chain.specs.declared.numbers.TheConstants.{MAX_RECEIVER};
ghost use Rattle.receiver_chain.specs.Chain.{attached_of};
ghost use Rattle.receiver_chain.specs.Others.{LeavesRoots};
ghost use Rattle.journal_book.specs.Book.{Holds, IsHeld, last_of, next_of};
ghost use Rattle.journal_book.specs.Kept.{IsForcedOrFrom, IsKept, SpellEntries};
ghost use Rattle.journal_book.specs.Switch.{AreTieBlocks, IsTie, tied_by};

use crate::book::{Book, close, empty_block};
use crate::starts::{BlockStart, block_start, note};
use entry_codec::{Draft, Entry, write_entry};
use gated_log::MAX_BLOCK;
use receiver_chain::ChainFault;
use std::alloc::{AllocError, Global};
use store_model::Store;

impl Book {
    /// Forces the buffered block, ends the attached receiver by `nr` and begins the next one by `pr`. Gives the next
    /// one's number. After a store fault open the book again.
    pub fn switch<S: Store>(
        &mut self,
        alloc: Global,
        store: &mut S,
        nr: Draft,
        pr: Draft,
    ) -> Result<u32, ChainFault>
        requires held { S.tells → IsHeld self.old (S.disk store.old) }
        requires begun { self.old.begun ≡ true }
        requires place { 0 < self.old.waiting → 0 < self.old.chain.room }
        requires small { length self.old.buffered ≤ MAX_BLOCK }
        requires below { attached_of self.old.chain < MAX_RECEIVER }
        requires ends { nr.kind ≡ NextReceiver (attached_of self.old.chain + 1) }
        requires begins { pr.kind ≡ PreviousReceiver (attached_of self.old.chain) }
        requires nr_spelled { HasSpelling (numbered nr (next_of self.old)) }
        requires pr_spelled { HasSpelling (numbered pr (next_of self.old + 1)) }
        requires few { last_of self.old ≤ 2 ^ 63 }
        ensures switched { OnOk result (S.tells → (entries : List Entry) → Holds self.old entries (S.disk store.old) → Holds self.new (entries ++ tied_by nr pr (next_of self.old)) (S.disk store.new)) }
        ensures moments { S.tells → (entries : List Entry) → Holds self.old entries (S.disk store.old) → Leaves (S.disk store.old) (S.disk store.new) (IsKept self.old.chain.first self.old.forced (entries ++ tied_by nr pr (next_of self.old))) }
        ensures exactly { S.tells → (entries : List Entry) → Holds self.old entries (S.disk store.old) → Leaves (S.disk store.old) (S.disk store.new) (IsForcedOrFrom self.old.chain.first self.old.forced (length entries) (entries ++ tied_by nr pr (next_of self.old))) }
        ensures roots { LeavesRoots (S.disk store.old) (S.disk store.new) }
        ensures number { IfOk result (λ receiver. receiver ≡ attached_of self.old.chain + 1) }
        ensures attached { IfOk result (λ receiver. receiver ≡ attached_of self.new.chain) }
        ensures nothing_waits { OnOk result (self.new.waiting ≡ 0) }
        ensures empty { OnOk result (self.new.buffered ≡ []) }
        ensures all { OnOk result (self.new.forced ≡ self.old.forced + self.old.waiting + 2) }
        ensures still_begun { self.new.begun ≡ true }
        ensures first { self.new.first ≡ self.old.first }
        ensures receiver { self.new.chain.first ≡ self.old.chain.first }
        ensures room { self.old.bytes ≤ self.new.bytes }
        ensures freed { self.old.bytes + length self.old.buffered ≤ self.new.bytes + length self.new.buffered }
        ensures no_longer { length self.new.buffered ≤ length self.old.buffered }
        ensures less_places { OnOk result (self.old.chain.room ≤ self.new.chain.room + 1) }
        ensures same_number { OnErr result (attached_of self.new.chain ≡ attached_of self.old.chain) }
        ensures no_memory { IsErrOf result ChainFault.NoMemory → S.tells → (entries : List Entry) → Holds self.old entries (S.disk store.old) → Holds self.new entries (S.disk store.new) }
        ensures wanting { IsErrOf result ChainFault.NoMemory → S.tells → (entries : List Entry) → Holds self.old entries (S.disk store.old) → Leaves (S.disk store.old) (S.disk store.new) (IsForcedOrFrom self.old.chain.first self.old.forced (length entries) entries) }
        ensures same_next { IsErrOf result ChainFault.NoMemory → next_of self.new ≡ next_of self.old }
        ensures same_forced { IsErrOf result ChainFault.NoMemory → (self.new.forced ≡ self.old.forced) ⊎ (self.new.waiting ≡ 0) }
        ensures same_places { IsErrOf result ChainFault.NoMemory → self.old.chain.room ≤ self.new.chain.room + 1 }
        ensures faults { (S.disk store.old).faults ≤ (S.disk store.new).faults }
        ensures cause { IsErrOf result ChainFault.StoreFault → Rose (S.disk store.old).faults (S.disk store.new).faults }
    {
        let next = self.next_sequence();
        let nr = nr.numbered(next);
        let pr = pr.numbered(next + 1);
        self.switch_by(alloc, store, &nr, &pr)
    }

    /// The same with the two entries.
    fn switch_by<S: Store>(
        &mut self,
        alloc: Global,
        store: &mut S,
        nr: &Entry,
        pr: &Entry,
    ) -> Result<u32, ChainFault>
        requires held { S.tells → IsHeld self.old (S.disk store.old) }
        requires begun { self.old.begun ≡ true }
        requires place { 0 < self.old.waiting → 0 < self.old.chain.room }
        requires small { length self.old.buffered ≤ MAX_BLOCK }
        requires below { attached_of self.old.chain < MAX_RECEIVER }
        requires ends { nr.now.kind ≡ NextReceiver (attached_of self.old.chain + 1) }
        requires begins { pr.now.kind ≡ PreviousReceiver (attached_of self.old.chain) }
        requires nr_spelled { HasSpelling nr.now }
        requires pr_spelled { HasSpelling pr.now }
        requires nr_sequence { nr.now.sequence ≡ next_of self.old }
        requires pr_sequence { pr.now.sequence ≡ next_of self.old + 1 }
        requires few { last_of self.old ≤ 2 ^ 63 }
        ensures switched { OnOk result (S.tells → (entries : List Entry) → Holds self.old entries (S.disk store.old) → Holds self.new (entries ++ nr.now ∷ pr.now ∷ []) (S.disk store.new)) }
        ensures moments { S.tells → (entries : List Entry) → Holds self.old entries (S.disk store.old) → Leaves (S.disk store.old) (S.disk store.new) (IsKept self.old.chain.first self.old.forced (entries ++ nr.now ∷ pr.now ∷ [])) }
        ensures exactly { S.tells → (entries : List Entry) → Holds self.old entries (S.disk store.old) → Leaves (S.disk store.old) (S.disk store.new) (IsForcedOrFrom self.old.chain.first self.old.forced (length entries) (entries ++ nr.now ∷ pr.now ∷ [])) }
        ensures roots { LeavesRoots (S.disk store.old) (S.disk store.new) }
        ensures number { IfOk result (λ receiver. receiver ≡ attached_of self.old.chain + 1) }
        ensures attached { IfOk result (λ receiver. receiver ≡ attached_of self.new.chain) }
        ensures nothing_waits { OnOk result (self.new.waiting ≡ 0) }
        ensures empty { OnOk result (self.new.buffered ≡ []) }
        ensures all { OnOk result (self.new.forced ≡ self.old.forced + self.old.waiting + 2) }
        ensures still_begun { self.new.begun ≡ true }
        ensures first { self.new.first ≡ self.old.first }
        ensures receiver { self.new.chain.first ≡ self.old.chain.first }
        ensures room { self.old.bytes ≤ self.new.bytes }
        ensures freed { self.old.bytes + length self.old.buffered ≤ self.new.bytes + length self.new.buffered }
        ensures no_longer { length self.new.buffered ≤ length self.old.buffered }
        ensures less_places { OnOk result (self.old.chain.room ≤ self.new.chain.room + 1) }
        ensures same_number { OnErr result (attached_of self.new.chain ≡ attached_of self.old.chain) }
        ensures no_memory { IsErrOf result ChainFault.NoMemory → S.tells → (entries : List Entry) → Holds self.old entries (S.disk store.old) → Holds self.new entries (S.disk store.new) }
        ensures wanting { IsErrOf result ChainFault.NoMemory → S.tells → (entries : List Entry) → Holds self.old entries (S.disk store.old) → Leaves (S.disk store.old) (S.disk store.new) (IsForcedOrFrom self.old.chain.first self.old.forced (length entries) entries) }
        ensures same_next { IsErrOf result ChainFault.NoMemory → next_of self.new ≡ next_of self.old }
        ensures same_forced { IsErrOf result ChainFault.NoMemory → (self.new.forced ≡ self.old.forced) ⊎ (self.new.waiting ≡ 0) }
        ensures same_places { IsErrOf result ChainFault.NoMemory → self.old.chain.room ≤ self.new.chain.room + 1 }
        ensures faults { (S.disk store.old).faults ≤ (S.disk store.new).faults }
        ensures cause { IsErrOf result ChainFault.StoreFault → Rose (S.disk store.old).faults (S.disk store.new).faults }
    {
        let ending = framed_entry(alloc, nr)?;
        let beginning = framed_entry(alloc, pr)?;
        self.force(store)?;
        let receiver = self.attach(alloc, store, &ending, &beginning)?;
        Ok(receiver)
    }

    /// Attaches the next receiver, where all entries are forced.
    fn attach<S: Store>(
        &mut self,
        alloc: Global,
        store: &mut S,
        ending: &[u8],
        beginning: &[u8],
    ) -> Result<u32, ChainFault>
        requires held { S.tells → IsHeld self.old (S.disk store.old) }
        requires begun { self.old.begun ≡ true }
        requires alone { self.old.waiting ≡ 0 }
        requires below { attached_of self.old.chain < MAX_RECEIVER }
        requires blocks { (nr : Entry) × (pr : Entry) × AreTieBlocks self.old nr pr ending.now beginning.now }
        requires few { last_of self.old ≤ 2 ^ 63 }
        ensures switched { OnOk result (S.tells → (entries : List Entry) (nr pr : Entry) → AreTieBlocks self.old nr pr ending.now beginning.now → Holds self.old entries (S.disk store.old) → Holds self.new (entries ++ nr ∷ pr ∷ []) (S.disk store.new)) }
        ensures moments { S.tells → (entries : List Entry) (nr pr : Entry) → AreTieBlocks self.old nr pr ending.now beginning.now → Holds self.old entries (S.disk store.old) → Leaves (S.disk store.old) (S.disk store.new) (IsKept self.old.chain.first self.old.forced (entries ++ nr ∷ pr ∷ [])) }
        ensures roots { LeavesRoots (S.disk store.old) (S.disk store.new) }
        ensures number { IfOk result (λ receiver. receiver ≡ attached_of self.old.chain + 1) }
        ensures attached { IfOk result (λ receiver. receiver ≡ attached_of self.new.chain) }
        ensures nothing_waits { self.new.waiting ≡ self.old.waiting }
        ensures buffered { self.new.buffered ≡ self.old.buffered }
        ensures all { OnOk result (self.new.forced ≡ self.old.forced + 2) }
        ensures still_begun { self.new.begun ≡ self.old.begun }
        ensures first { self.new.first ≡ self.old.first }
        ensures receiver { self.new.chain.first ≡ self.old.chain.first }
        ensures room { self.new.bytes ≡ self.old.bytes }
        ensures places { self.new.chain.room ≡ self.old.chain.room }
        ensures same_number { OnErr result (attached_of self.new.chain ≡ attached_of self.old.chain) }
        ensures no_memory { IsErrOf result ChainFault.NoMemory → S.tells → (entries : List Entry) → Holds self.old entries (S.disk store.old) → Holds self.new entries (S.disk store.new) }
        ensures same_count { OnErr result (self.new.forced ≡ self.old.forced) }
        ensures unswitched { IsErrOf result ChainFault.NoMemory → S.tells → (entries : List Entry) → Holds self.old entries (S.disk store.old) → Leaves (S.disk store.old) (S.disk store.new) (SpellEntries self.old.chain.first entries) }
        ensures faults { (S.disk store.old).faults ≤ (S.disk store.new).faults }
        ensures cause { IsErrOf result ChainFault.StoreFault → Rose (S.disk store.old).faults (S.disk store.new).faults }
    {
        let start = self.next_start();
        let _first = self.chain.first(); // no receiver has number 0
        let receiver = self.chain.attach_next(alloc, store, ending, beginning)?;
        note_ties(&mut self.starts, start, receiver);
        self.forced += 2;
        Ok(receiver)
    }
}

/// Notes the block by which a receiver ends, and that by which this one begins.
fn note_ties(starts: &mut Vec<BlockStart>, start: BlockStart, receiver: u32) {
    let _noted = starts.reserve(2); // without it a read begins further in front
    note(starts, start);
    note(
        starts,
        block_start(start.before.saturating_add(1), receiver, 0),
    );
}

/// A block of this one entry, in its frame.
fn framed_entry(alloc: Global, entry: &Entry) -> Result<Vec<u8>, AllocError>
    requires spelled { HasSpelling entry.now }
    requires tie { IsTie entry.now }
    ensures framed { IfOk result (λ block. block.items ≡ frame (spelling entry.now)) }
    ensures spelled { IfOk result (λ _. IsSpelled entry.now) }
{
    let mut block = empty_block(alloc)?;
    write_entry(entry, &mut block)?;
    block.reserve(1)?; // the closed gate
    close(&mut block);
    Ok(block)
}
