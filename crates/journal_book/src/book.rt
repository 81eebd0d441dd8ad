//! The book: its looks, its room, the entries that are deposited, and how they are forced. `opening.rt` has how it is opened.
ghost use Rattle.std.specs.Prelude.{◌≡◌, ◌+◌, ◌-◌, ◌<◌, ◌≤◌, ◌^◌, ◌⊎◌, ℕ, true, false, List, [], ◌∷◌, ◌++◌, length, drop, vec_len, vec_capacity, OnOk, OnErr, IfOk, IsOk, IsErr, Some, None};
ghost use Rattle.store_model.specs.Disk.{Leaves};
ghost use Rattle.store_model.specs.Faults.{Rose};
ghost use Rattle.gated_log.specs.Blocks.{frame};
ghost use Rattle.entry_codec.specs.declared.entries.Entry.{Entry};
ghost use Rattle.entry_codec.specs.declared.kinds.EntryKind.TheVariants.{PreviousReceiver};
ghost use Rattle.entry_codec.specs.Drafts.{numbered};
ghost use Rattle.entry_codec.specs.Spelling.{HasSpelling, IsSpelled, spelling};
ghost use Rattle.receiver_chain.specs.Receivers.{Kept};
ghost use Rattle.receiver_chain.specs.Chain.{attached_of, last_of as last_in_chain};
ghost use Rattle.receiver_chain.specs.Others.{LeavesRoots};
ghost use Rattle.journal_book.specs.Entries.{IsInside, IsNoEnd};
ghost use Rattle.journal_book.specs.Book.{HasMoreRoom, Holds, IsHeld, Keeps, last_of, next_of, with_entry};
ghost use Rattle.journal_book.specs.Kept.{IsForcedOrFrom, IsKept};

use crate::starts::{BlockStart, block_start, note};
use entry_codec::{Draft, Entry, write_entry};
use gated_log::{MAX_BLOCK, StoreFault, put_frame};
use receiver_chain::Chain;
use std::alloc::{AllocError, Global};
use std::marker::Model;
use store_model::Store;

/// What stands before the entries of the buffered block: the room of its length.
pub(crate) const LENGTH: usize = 4;

/// The journal's entries: those on the disk, and those of the block that isn't forced yet.
#[derive(Drop)]
pub struct Book {
    pub(crate) chain: Chain,
    /// The first sequence that is kept.
    pub(crate) first: u64,
    /// How many entries the chain's blocks hold.
    pub(crate) forced: u64,
    /// How many entries the buffered block holds.
    pub(crate) waiting: u64,
    /// Whether the attached receiver has begun.
    pub(crate) begun: bool,
    /// The buffered block, behind the room of its length.
    pub(crate) framed: Vec<u8>,
    /// Where the chain's blocks begin, as far as there was room to note it. What a read gives doesn't depend on it.
    pub(crate) starts: Vec<BlockStart>,
}

impl Model for Book {
    ghost use Rattle.std.specs.Prelude.{◌+◌, ◌-◌, ◌^◌, ◌≤◌, drop, length, vec_len, vec_capacity};
    ghost use Rattle.journal_book.specs.Book.{BookState, IsBuffer};

    ghost Value = { BookState };

    ghost view = { λ b. record {
      chain = b.chain;
      first = b.first;
      forced = b.forced;
      waiting = b.waiting;
      begun = b.begun;
      buffered = drop 4 b.framed.items;
      bytes = vec_capacity b.framed - (vec_len b.framed + 1);
    } };

    ghost invariant = { λ b.
        (4 ≤ length b.framed.items) × (4 ≤ vec_len b.framed) × (vec_len b.framed + 1 ≤ vec_capacity b.framed)
        × (1 ≤ b.first) × (b.first + (b.forced + b.waiting) ≤ 2 ^ 64) × IsBuffer (drop 4 b.framed.items) b.waiting };
}

impl Book {
    /// The first sequence that is kept, or would be, and the last one, the buffered block included.
    pub fn bounds(&self) -> (u64, u64)
        ensures first { result.0 ≡ self.now.first }
        ensures last { result.1 ≡ last_of self.now }
        ensures least { 1 ≤ self.now.first }
    {
        (self.first, self.first - 1 + (self.forced + self.waiting))
    }

    /// The number of the attached receiver.
    pub fn attached(&self) -> u32
        ensures { result ≡ attached_of self.now.chain }
    {
        self.chain.attached()
    }

    /// Whether the attached receiver has begun: a stop may have come before the entry by which it begins.
    pub fn has_begun(&self) -> bool
        ensures { result ≡ self.now.begun }
    {
        self.begun
    }

    /// How many bytes of entries wait.
    pub fn waiting_bytes(&self) -> usize
        ensures { result ≡ length self.now.buffered }
    {
        self.framed.len() - LENGTH
    }

    /// The last sequence up to a receiver's end; `None` for a receiver that was never made or is gone.
    pub fn last_in(&self, receiver: u32) -> Option<u64>
        ensures kept { self.now.chain.first ≤ receiver → receiver ≤ attached_of self.now.chain → result ≡ Some (last_in_chain self.now.chain receiver (last_of self.now)) }
        ensures gone { (receiver < self.now.chain.first) ⊎ (attached_of self.now.chain < receiver) → result ≡ None }
    {
        let (_, last) = self.bounds();
        self.chain.last_in(receiver, last)
    }

    /// Makes room for so many bytes of entries beyond those that are buffered, and for so many blocks. It takes memory only
    /// where less room is there. How many entries the bytes are counts for nothing.
    pub fn reserve(&mut self, _entries: u32, bytes: u64, blocks: u32) -> Result<(), AllocError>
        ensures room { OnOk result (bytes ≤ self.new.bytes) }
        ensures places { OnOk result (blocks ≤ self.new.chain.room) }
        ensures enough { bytes ≤ self.old.bytes → blocks ≤ self.old.chain.room → IsOk result }
        ensures same { HasMoreRoom self.old self.new }
    {
        let more = bytes.saturating_add(1); // the closed gate behind the block
        self.framed.reserve(more as usize)?;
        self.chain.reserve(blocks)?;
        let _noted = self.starts.reserve(blocks as usize); // without it a read begins further in front
        Ok(())
    }

    /// Gives the draft the next sequence, and answers it. The entry is on the disk once it is forced.
    pub fn deposit(&mut self, draft: Draft) -> u64
        requires begun { self.old.begun ≡ true }
        requires inside { IsInside (numbered draft (next_of self.old)) }
        requires spelled { HasSpelling (numbered draft (next_of self.old)) }
        requires few { last_of self.old ≤ 2 ^ 63 }
        requires room { length (spelling (numbered draft (next_of self.old))) ≤ self.old.bytes }
        ensures sequence { result ≡ next_of self.old }
        ensures deposited { self.new ≡ with_entry (numbered draft (next_of self.old)) self.new.bytes self.old }
        ensures holds { (kept : Kept) (entries : List Entry) → Keeps self.old kept entries → Keeps self.new kept (entries ++ numbered draft (next_of self.old) ∷ []) }
        ensures less_room { self.old.bytes ≤ self.new.bytes + length (spelling (numbered draft (next_of self.old))) }
    {
        let sequence = self.next_sequence();
        let entry = draft.numbered(sequence);
        self.put(&entry);
        sequence
    }

    /// The same with an entry that has its sequence already, which stays with the caller.
    pub fn deposit_entry(&mut self, entry: &Entry)
        requires begun { self.old.begun ≡ true }
        requires inside { IsInside entry.now }
        requires spelled { HasSpelling entry.now }
        requires next { entry.now.sequence ≡ next_of self.old }
        requires few { last_of self.old ≤ 2 ^ 63 }
        requires room { length (spelling entry.now) ≤ self.old.bytes }
        ensures deposited { self.new ≡ with_entry entry.now self.new.bytes self.old }
        ensures holds { (kept : Kept) (entries : List Entry) → Keeps self.old kept entries → Keeps self.new kept (entries ++ entry.now ∷ []) }
        ensures less_room { self.old.bytes ≤ self.new.bytes + length (spelling entry.now) }
    {
        self.put(entry);
    }

    /// The same with the entry by which the attached receiver begins, where a stop came before it. It is forced alone.
    pub fn begin(&mut self, draft: Draft) -> u64
        requires bare { self.old.begun ≡ false }
        requires alone { self.old.waiting ≡ 0 }
        requires names { draft.kind ≡ PreviousReceiver (attached_of self.old.chain - 1) }
        requires spelled { HasSpelling (numbered draft (next_of self.old)) }
        requires few { last_of self.old ≤ 2 ^ 63 }
        requires room { length (spelling (numbered draft (next_of self.old))) ≤ self.old.bytes }
        ensures sequence { result ≡ next_of self.old }
        ensures deposited { self.new ≡ with_entry (numbered draft (next_of self.old)) self.new.bytes self.old }
        ensures holds { (kept : Kept) (entries : List Entry) → Keeps self.old kept entries → Keeps self.new kept (entries ++ numbered draft (next_of self.old) ∷ []) }
        ensures less_room { self.old.bytes ≤ self.new.bytes + length (spelling (numbered draft (next_of self.old))) }
    {
        let sequence = self.next_sequence();
        let entry = draft.numbered(sequence);
        self.put(&entry);
        sequence
    }

    /// The sequence of the next entry.
    pub(crate) fn next_sequence(&self) -> u64
        requires { last_of self.now ≤ 2 ^ 63 }
        ensures { result ≡ next_of self.now }
    {
        self.first + (self.forced + self.waiting)
    }

    /// Where the next block of the attached receiver will begin.
    pub(crate) fn next_start(&self) -> BlockStart {
        let receiver = self.chain.attached();
        let n = self.chain.log(receiver).count();
        block_start(self.first - 1 + self.forced, receiver, n)
    }

    /// Puts the entry behind those that wait.
    fn put(&mut self, entry: &Entry)
        requires spelled { HasSpelling entry.now }
        requires no_end { IsNoEnd entry.now }
        requires few { last_of self.old ≤ 2 ^ 63 }
        requires room { length (spelling entry.now) ≤ self.old.bytes }
        ensures put { self.new ≡ with_entry entry.now self.new.bytes self.old }
        ensures spelled { IsSpelled entry.now }
        ensures less_room { self.old.bytes ≤ self.new.bytes + length (spelling entry.now) }
    {
        write_entry(entry, &mut self.framed).unwrap();
        self.waiting += 1;
    }

    /// Appends the buffered block to the journal on the disk, if it has entries. After an `Err` open the book again.
    pub fn force<S: Store>(&mut self, store: &mut S) -> Result<(), StoreFault>
        requires held { S.tells → IsHeld self.old (S.disk store.old) }
        requires place { 0 < self.old.waiting → 0 < self.old.chain.room }
        requires small { length self.old.buffered ≤ MAX_BLOCK }
        ensures forced { OnOk result (S.tells → (entries : List Entry) → Holds self.old entries (S.disk store.old) → Holds self.new entries (S.disk store.new)) }
        ensures moments { S.tells → (entries : List Entry) → Holds self.old entries (S.disk store.old) → Leaves (S.disk store.old) (S.disk store.new) (IsKept self.old.chain.first self.old.forced entries) }
        ensures exactly { S.tells → (entries : List Entry) → Holds self.old entries (S.disk store.old) → Leaves (S.disk store.old) (S.disk store.new) (IsForcedOrFrom self.old.chain.first self.old.forced (length entries) entries) }
        ensures roots { LeavesRoots (S.disk store.old) (S.disk store.new) }
        ensures all { OnOk result (self.new.forced ≡ self.old.forced + self.old.waiting) }
        ensures nothing_waits { OnOk result (self.new.waiting ≡ 0) }
        ensures empty { OnOk result (self.new.buffered ≡ []) }
        ensures begun { self.old.begun ≡ true → self.new.begun ≡ true }
        ensures begins { OnOk result (0 < self.old.waiting → self.new.begun ≡ true) }
        ensures first { self.new.first ≡ self.old.first }
        ensures receiver { self.new.chain.first ≡ self.old.chain.first }
        ensures number { attached_of self.new.chain ≡ attached_of self.old.chain }
        ensures room { self.old.bytes ≤ self.new.bytes }
        ensures freed { self.old.bytes + length self.old.buffered ≤ self.new.bytes + length self.new.buffered }
        ensures no_longer { length self.new.buffered ≤ length self.old.buffered }
        ensures less_places { OnOk result (self.old.chain.room ≤ self.new.chain.room + 1) }
        ensures faults { (S.disk store.old).faults ≤ (S.disk store.new).faults }
        ensures cause { IsErr result → Rose (S.disk store.old).faults (S.disk store.new).faults }
    {
        if self.waiting == 0 {
            return Ok(());
        }
        self.force_block(store)?;
        Ok(())
    }

    /// Appends the buffered block.
    fn force_block<S: Store>(&mut self, store: &mut S) -> Result<(), StoreFault>
        requires held { S.tells → IsHeld self.old (S.disk store.old) }
        requires waits { 0 < self.old.waiting }
        requires place { 0 < self.old.chain.room }
        requires small { length self.old.buffered ≤ MAX_BLOCK }
        ensures forced { OnOk result (S.tells → (entries : List Entry) → Holds self.old entries (S.disk store.old) → Holds self.new entries (S.disk store.new)) }
        ensures moments { S.tells → (entries : List Entry) → Holds self.old entries (S.disk store.old) → Leaves (S.disk store.old) (S.disk store.new) (IsKept self.old.chain.first self.old.forced entries) }
        ensures exactly { S.tells → (entries : List Entry) → Holds self.old entries (S.disk store.old) → Leaves (S.disk store.old) (S.disk store.new) (IsForcedOrFrom self.old.chain.first self.old.forced (length entries) entries) }
        ensures roots { LeavesRoots (S.disk store.old) (S.disk store.new) }
        ensures all { OnOk result (self.new.forced ≡ self.old.forced + self.old.waiting) }
        ensures nothing_waits { self.new.waiting ≡ 0 }
        ensures empty { self.new.buffered ≡ [] }
        ensures begun { self.old.begun ≡ true → self.new.begun ≡ true }
        ensures begins { OnOk result (self.new.begun ≡ true) }
        ensures first { self.new.first ≡ self.old.first }
        ensures receiver { self.new.chain.first ≡ self.old.chain.first }
        ensures number { attached_of self.new.chain ≡ attached_of self.old.chain }
        ensures room { self.old.bytes ≤ self.new.bytes }
        ensures freed { self.old.bytes + length self.old.buffered ≤ self.new.bytes + length self.new.buffered }
        ensures no_longer { length self.new.buffered ≤ length self.old.buffered }
        ensures less_places { OnOk result (self.new.chain.room + 1 ≡ self.old.chain.room) }
        ensures faults { (S.disk store.old).faults ≤ (S.disk store.new).faults }
        ensures cause { IsErr result → Rose (S.disk store.old).faults (S.disk store.new).faults }
    {
        let start = self.next_start();
        close(&mut self.framed);
        let deposited = self.chain.deposit_block(store, &self.framed);
        self.framed.truncate(LENGTH);
        let waiting = self.waiting;
        self.waiting = 0;
        deposited?;
        note(&mut self.starts, start);
        self.forced += waiting;
        self.begun = true;
        Ok(())
    }
}

/// A block without entries, behind the room of its length.
pub(crate) fn empty_block(alloc: Global) -> Result<Vec<u8>, AllocError>
    ensures none { IfOk result (λ block. drop 4 block.items ≡ []) }
    ensures long { IfOk result (λ block. 4 ≤ length block.items) }
    ensures len { IfOk result (λ block. 4 ≤ vec_len block) }
    ensures room { IfOk result (λ block. vec_len block + 1 ≤ vec_capacity block) }
{
    let mut block = Vec::new(alloc);
    block.resize(LENGTH, 0)?;
    block.reserve(1)?;
    Ok(block)
}

/// Puts the frame round the block that stands behind the room of its length.
#[tactic(auto, using(crate::proofs::Forcing::between_push))]
pub(crate) fn close(buffer: &mut Vec<u8>)
    requires long { LENGTH ≤ length buffer.old.items }
    requires room { vec_len buffer.old + 1 ≤ vec_capacity buffer.old }
    requires small { length (drop 4 buffer.old.items) ≤ MAX_BLOCK }
    ensures framed { buffer.new.items ≡ frame (drop 4 buffer.old.items) }
    ensures len { vec_len buffer.new ≡ vec_len buffer.old + 1 }
    ensures capacity { vec_capacity buffer.new ≡ vec_capacity buffer.old }
{
    buffer.push_reserved(0);
    put_frame(buffer);
}
