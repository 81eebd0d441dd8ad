//! A book with room for the largest block, which takes the entries of whole calls.
ghost use Rattle.std.specs.Prelude.{◌≡◌, ◌⊎◌, ◌+◌, ◌<◌, ◌≤◌, ◌^◌, ℕ, true, List, [], ◌++◌, length, IfOk, OnOk, OnErr, IsErr, IsErrOf, IsOk, false};
ghost use Rattle.store_model.specs.Disk.{Leaves};
ghost use Rattle.store_model.specs.Faults.{Rose};
ghost use Rattle.entry_codec.specs.declared.entries.Entry.{Entry};
ghost use Rattle.entry_codec.specs.declared.kinds.EntryKind.TheVariants.{NextReceiver, PreviousReceiver};
ghost use Rattle.entry_codec.specs.Drafts.{numbered};
ghost use Rattle.entry_codec.specs.Spelling.{HasSpelling};
ghost use Rattle.receiver_chain.specs.declared.numbers.TheConstants.{MAX_RECEIVER};
ghost use Rattle.receiver_chain.specs.Receivers.{Kept};
ghost use Rattle.receiver_chain.specs.Chain.{attached_of};
ghost use Rattle.receiver_chain.specs.Others.{LeavesRoots};
ghost use Rattle.journal_book.specs.Book.{HasMoreRoom, Holds, IsHeld, Keeps, last_of, next_of};
ghost use Rattle.journal_book.specs.Entries.{spelled};
ghost use Rattle.journal_book.specs.Kept.{IsForcedOrFrom};
ghost use Rattle.journal_book.specs.Switch.{tied_by};
ghost use Rattle.kept_journal.specs.Journals.{MayWait, with_entries};

use entry_codec::{Draft, Entry};
use gated_log::{MAX_BLOCK, StoreFault};
use journal_book::Book;
use receiver_chain::ChainFault;
use std::alloc::{AllocError, Global};
use std::marker::Model;
use store_model::Store;

/// So many bytes don't wait: the call behind which they would is forced.
pub const MUCH: usize = 1 << 20;

/// The journal of a library. It has room for the largest block, so that no entry that may wait wants memory.
#[derive(Drop)]
pub struct KeptJournal {
    pub(crate) book: Book,
}

impl Model for KeptJournal {
    ghost use Rattle.journal_book.specs.Book.{BookState};
    ghost use Rattle.kept_journal.specs.Journals.{HasBlockRoom};

    ghost Value = { BookState };

    ghost view = { λ j. j.book };

    ghost invariant = { λ j. HasBlockRoom j.book };
}

impl KeptJournal {
    /// That of a book in which nothing waits and whose attached receiver has begun. It takes memory for the largest block.
    pub fn over(book: Book) -> Result<KeptJournal, AllocError>
        requires begun { book.begun ≡ true }
        requires alone { book.buffered ≡ [] }
        ensures same { IfOk result (λ journal. HasMoreRoom book journal) }
    {
        let mut book = book;
        book.reserve(0, MAX_BLOCK as u64, 1)?;
        Ok(KeptJournal { book })
    }

    /// The first sequence that is kept, or would be, and the last one, those that wait included.
    pub fn bounds(&self) -> (u64, u64)
        ensures first { result.0 ≡ self.now.first }
        ensures last { result.1 ≡ last_of self.now }
        ensures least { 1 ≤ self.now.first }
    {
        self.book.bounds()
    }

    /// The number of the attached receiver.
    pub fn attached(&self) -> u32
        ensures { result ≡ attached_of self.now.chain }
    {
        self.book.attached()
    }

    /// How many bytes of entries wait.
    pub fn waiting_bytes(&self) -> usize
        ensures { result ≡ length self.now.buffered }
    {
        self.book.waiting_bytes()
    }

    /// Whether so much waits that it is to be forced.
    pub fn waits_much(&self) -> bool
        ensures much { result ≡ true → MUCH ≤ length self.now.buffered }
        ensures little { result ≡ false → length self.now.buffered < MUCH }
    {
        self.book.waiting_bytes() >= MUCH
    }

    /// Makes room for so many blocks. It takes memory only where less room is there.
    pub fn reserve(&mut self, places: u32) -> Result<(), AllocError>
        ensures places { OnOk result (places ≤ self.new.chain.room) }
        ensures enough { places ≤ self.old.chain.room → IsOk result }
        ensures same { HasMoreRoom self.old self.new }
    {
        self.book.reserve(0, 0, places)
    }

    /// Takes the entries of a call, behind those that are there. They are on the disk once they are forced. It takes no memory.
    pub fn take(&mut self, entries: &[Entry])
        requires { MayWait self.old entries.now }
        ensures taken { self.new ≡ with_entries entries.now self.new.bytes self.old }
        ensures holds { (kept : Kept) (all : List Entry) → Keeps self.old kept all → Keeps self.new kept (all ++ entries.now) }
    {
        put_all(&mut self.book, entries);
    }

    /// Forces what waits. It takes no memory. After an `Err` open the journal again.
    pub fn force<S: Store>(&mut self, store: &mut S) -> Result<(), StoreFault>
        requires held { S.tells → IsHeld self.old (S.disk store.old) }
        requires place { 0 < self.old.waiting → 0 < self.old.chain.room }
        ensures forced { OnOk result (S.tells → (entries : List Entry) → Holds self.old entries (S.disk store.old) → Holds self.new entries (S.disk store.new)) }
        ensures exactly { S.tells → (entries : List Entry) → Holds self.old entries (S.disk store.old) → Leaves (S.disk store.old) (S.disk store.new) (IsForcedOrFrom self.old.chain.first self.old.forced (length entries) entries) }
        ensures roots { LeavesRoots (S.disk store.old) (S.disk store.new) }
        ensures all { OnOk result (self.new.forced ≡ self.old.forced + self.old.waiting) }
        ensures nothing_waits { OnOk result (self.new.waiting ≡ 0) }
        ensures empty { OnOk result (self.new.buffered ≡ []) }
        ensures first { self.new.first ≡ self.old.first }
        ensures receiver { self.new.chain.first ≡ self.old.chain.first }
        ensures number { attached_of self.new.chain ≡ attached_of self.old.chain }
        ensures less_places { OnOk result (self.old.chain.room ≤ self.new.chain.room + 1) }
        ensures faults { (S.disk store.old).faults ≤ (S.disk store.new).faults }
        ensures cause { IsErr result → Rose (S.disk store.old).faults (S.disk store.new).faults }
    {
        self.book.force(store)
    }

    /// Forces what waits, ends the attached receiver by `nr` and begins the next one by `pr`. Gives the next one's number. After a
    /// store fault open the journal again.
    pub fn switch<S: Store>(
        &mut self,
        alloc: Global,
        store: &mut S,
        nr: Draft,
        pr: Draft,
    ) -> Result<u32, ChainFault>
        requires held { S.tells → IsHeld self.old (S.disk store.old) }
        requires place { 0 < self.old.waiting → 0 < self.old.chain.room }
        requires below { attached_of self.old.chain < MAX_RECEIVER }
        requires ends { nr.kind ≡ NextReceiver (attached_of self.old.chain + 1) }
        requires begins { pr.kind ≡ PreviousReceiver (attached_of self.old.chain) }
        requires nr_spelled { HasSpelling (numbered nr (next_of self.old)) }
        requires pr_spelled { HasSpelling (numbered pr (next_of self.old + 1)) }
        requires few { last_of self.old ≤ 2 ^ 63 }
        ensures switched { OnOk result (S.tells → (entries : List Entry) → Holds self.old entries (S.disk store.old) → Holds self.new (entries ++ tied_by nr pr (next_of self.old)) (S.disk store.new)) }
        ensures exactly { S.tells → (entries : List Entry) → Holds self.old entries (S.disk store.old) → Leaves (S.disk store.old) (S.disk store.new) (IsForcedOrFrom self.old.chain.first self.old.forced (length entries) (entries ++ tied_by nr pr (next_of self.old))) }
        ensures roots { LeavesRoots (S.disk store.old) (S.disk store.new) }
        ensures number { IfOk result (λ receiver. receiver ≡ attached_of self.old.chain + 1) }
        ensures attached { IfOk result (λ receiver. receiver ≡ attached_of self.new.chain) }
        ensures nothing_waits { OnOk result (self.new.waiting ≡ 0) }
        ensures all { OnOk result (self.new.forced ≡ self.old.forced + self.old.waiting + 2) }
        ensures first { self.new.first ≡ self.old.first }
        ensures receiver { self.new.chain.first ≡ self.old.chain.first }
        ensures less_places { OnOk result (self.old.chain.room ≤ self.new.chain.room + 1) }
        ensures same_number { OnErr result (attached_of self.new.chain ≡ attached_of self.old.chain) }
        ensures no_memory { IsErrOf result ChainFault.NoMemory → S.tells → (entries : List Entry) → Holds self.old entries (S.disk store.old) → Holds self.new entries (S.disk store.new) }
        ensures wanting { IsErrOf result ChainFault.NoMemory → S.tells → (entries : List Entry) → Holds self.old entries (S.disk store.old) → Leaves (S.disk store.old) (S.disk store.new) (IsForcedOrFrom self.old.chain.first self.old.forced (length entries) entries) }
        ensures same_next { IsErrOf result ChainFault.NoMemory → next_of self.new ≡ next_of self.old }
        ensures same_forced { IsErrOf result ChainFault.NoMemory → (self.new.forced ≡ self.old.forced) ⊎ (self.new.waiting ≡ 0) }
        ensures same_places { IsErrOf result ChainFault.NoMemory → self.old.chain.room ≤ self.new.chain.room + 1 }
        ensures no_longer { length self.new.buffered ≤ length self.old.buffered }
        ensures faults { (S.disk store.old).faults ≤ (S.disk store.new).faults }
        ensures cause { IsErrOf result ChainFault.StoreFault → Rose (S.disk store.old).faults (S.disk store.new).faults }
    {
        self.book.switch(alloc, store, nr, pr)
    }
}

/// Puts the entries behind those that wait, one after another.
fn put_all(book: &mut Book, entries: &[Entry])
    requires begun { book.old.begun ≡ true }
    requires may { MayWait book.old entries.now }
    requires room { length (spelled entries.now) ≤ book.old.bytes }
    ensures put { book.new ≡ with_entries entries.now book.new.bytes book.old }
    ensures less_room { book.old.bytes ≤ book.new.bytes + length (spelled entries.now) }
    ensures holds { (kept : Kept) (all : List Entry) → Keeps book.old kept all → Keeps book.new kept (all ++ entries.now) }
{
    for entry in entries {
        book.deposit_entry(entry);
    }
}
