//! The cache: which sequences it keeps, and how entries are read through it.
ghost use Rattle.std.specs.Prelude.{◌≡◌, ◌+◌, ◌<◌, ◌≤◌, ◌⊎◌, ◌++◌, ℕ, List, [], length, IfOk, OnOk, IfNone, IfSome, IsErrOf, IsTrue, ◌↔◌};
ghost use Rattle.std.specs.List.{AllByRecursion};
ghost use Rattle.std.specs.NonZero.{non_zero_usize_get};
ghost use Rattle.store_model.specs.Disk.{Stays};
ghost use Rattle.store_model.specs.Faults.{Rose};
ghost use Rattle.entry_codec.specs.declared.entries.Entry.{Entry};
ghost use Rattle.journal_book.specs.Book.{Holds, IsHeld, last_of};
ghost use Rattle.journal_book.specs.Reads.{between};
ghost use Rattle.block_cache.specs.Cached.{AreStretches, HasSequence, IsKept, IsLongBlock, IsShort, IsStretch, has_entry};
ghost use Rattle.block_cache.specs.Sizes.{block_bytes};
ghost use Rattle.block_cache.specs.Walks.{IsFound, IsTaken, IsTakenUpTo, StayOf};

use crate::block::Block;
use crate::limits::{MOST_BLOCKS, MOST_BYTES};
use crate::lookup::{copy_kept, has_sequence, key_of};
use crate::reading::{goes_on, read_block, take_waiting};
use entry_codec::Entry;
use journal_book::{Book, BookFault};
use lru::LruCache;
use std::alloc::{AllocError, Global};
use std::marker::Model;
use std::num::NonZeroUsize;
use store_model::Store;

/// The blocks of a journal's book that were read last, decoded. Contracts see the entries of each, those used last first.
#[derive(Drop)]
pub struct BlockCache {
    /// Each by the sequence of its first entry.
    blocks: LruCache<u64, Block>,
}

impl Model for BlockCache {
    ghost use Rattle.std.specs.Prelude.{List, ◌≡◌};
    ghost use Rattle.std.specs.List.{AllByRecursion};
    ghost use Rattle.std.specs.Map.{values_of};
    ghost use Rattle.entry_codec.specs.declared.entries.Entry.{Entry};
    ghost use Rattle.block_cache.specs.Cached.{IsShort};

    ghost Value = { List (List Entry) };

    ghost view = { λ c. values_of c.blocks.entries };

    ghost invariant = { λ c. (c.blocks.cap ≡ 64) × AllByRecursion (λ kept. IsShort kept.1) c.blocks.entries };
}

impl BlockCache {
    /// A cache without blocks.
    pub fn new(alloc: Global) -> Result<BlockCache, AllocError>
        ensures { IfOk result (λ cache. cache ≡ []) }
    {
        let blocks = LruCache::new(alloc, most_blocks())?;
        Ok(BlockCache { blocks })
    }

    /// How many blocks stand in the cache.
    pub fn count(&self) -> usize
        ensures count { result ≡ length self.now }
        ensures few { length self.now ≤ MOST_BLOCKS }
        ensures short { AllByRecursion (λ block. IsShort block) self.now }
    {
        self.blocks.len()
    }

    /// Whether the block of a sequence is the buffered one or stands in the cache.
    pub fn keeps(&self, book: &Book, sequence: u64) -> bool
        ensures { IsTrue result ↔ IsKept self.now book.now sequence }
    {
        if book.keeps(sequence) {
            return true;
        }
        has_sequence(&self.blocks, sequence)
    }

    /// The entries of these sequences, as `Book::entries` gives them. What was read stays in the cache.
    pub fn entries<S: Store>(
        &mut self,
        alloc: Global,
        store: &mut S,
        book: &Book,
        lo: u64,
        hi: u64,
    ) -> Result<Vec<Entry>, BookFault>
        requires held { S.tells → IsHeld book.now (S.disk store.old) }
        requires cached { S.tells → (all : List Entry) → Holds book.now all (S.disk store.old) → AreStretches book.now.first all self.old }
        ensures entries { IfOk result (λ found. S.tells → (all : List Entry) → Holds book.now all (S.disk store.old) → found.items ≡ between book.now.first lo hi all) }
        ensures turned { hi < lo → IsErrOf result BookFault.NoSuchEntry }
        ensures zero { lo ≡ 0 → IsErrOf result BookFault.NoSuchEntry }
        ensures past { last_of book.now < hi → IsErrOf result BookFault.NoSuchEntry }
        ensures there { lo ≤ hi → 1 ≤ lo → hi ≤ last_of book.now → IsErrOf result BookFault.NoSuchEntry → ⊥ }
        ensures gone { lo ≤ hi → 1 ≤ lo → hi ≤ last_of book.now → lo < book.now.first → IsErrOf result (BookFault.ReceiverGone book.now.first) }
        ensures kept { book.now.first ≤ lo → (sequence : ℕ) → IsErrOf result (BookFault.ReceiverGone sequence) → ⊥ }
        ensures whole { (sequence area at : ℕ) → IsErrOf result (BookFault.BlockChanged sequence area at) → S.tells → ⊥ }
        ensures stays { Stays (S.disk store.old) (S.disk store.new) }
        ensures cause { IsErrOf result BookFault.StoreFault → Rose (S.disk store.old).faults (S.disk store.new).faults }
        // Where each block is kept, the store isn't read.
        ensures untouched { hi < book.now.first + book.now.forced → ((n : ℕ) → lo ≤ n → n ≤ hi → HasSequence self.old n) → store.new ≡ store.old }
        ensures unread { ((n : ℕ) → lo ≤ n → n ≤ hi → IsKept self.old book.now n) → (S.disk store.new).faults ≡ (S.disk store.old).faults }
        ensures never { ((n : ℕ) → lo ≤ n → n ≤ hi → IsKept self.old book.now n) → IsErrOf result BookFault.StoreFault → ⊥ }
        ensures unchanged { ((n : ℕ) → lo ≤ n → n ≤ hi → IsKept self.old book.now n) → (sequence area at : ℕ) → IsErrOf result (BookFault.BlockChanged sequence area at) → ⊥ }
        // The last block that was read stays, unless it's too long.
        ensures keeps { IfOk result (λ found. IsKept self.new book.now hi ⊎ IsLongBlock hi (λ block. S.tells → (all : List Entry) → Holds book.now all (S.disk store.old) → IsStretch book.now.first all block)) }
        ensures cached { S.tells → (all : List Entry) → Holds book.now all (S.disk store.new) → AreStretches book.now.first all self.new }
        ensures few { length self.new ≤ MOST_BLOCKS }
        ensures short { AllByRecursion (λ block. IsShort block) self.new }
    {
        let found = self.read(alloc, store, book, lo, hi);
        let _count = self.count();
        found
    }

    /// The same, where it's left open how the blocks stand to the journal.
    fn read<S: Store>(
        &mut self,
        alloc: Global,
        store: &mut S,
        book: &Book,
        lo: u64,
        hi: u64,
    ) -> Result<Vec<Entry>, BookFault>
        requires held { S.tells → IsHeld book.now (S.disk store.old) }
        ensures entries { IfOk result (λ found. S.tells → (all : List Entry) → Holds book.now all (S.disk store.old) → AreStretches book.now.first all self.old → found.items ≡ between book.now.first lo hi all) }
        ensures turned { hi < lo → IsErrOf result BookFault.NoSuchEntry }
        ensures zero { lo ≡ 0 → IsErrOf result BookFault.NoSuchEntry }
        ensures past { last_of book.now < hi → IsErrOf result BookFault.NoSuchEntry }
        ensures there { lo ≤ hi → 1 ≤ lo → hi ≤ last_of book.now → IsErrOf result BookFault.NoSuchEntry → ⊥ }
        ensures gone { lo ≤ hi → 1 ≤ lo → hi ≤ last_of book.now → lo < book.now.first → IsErrOf result (BookFault.ReceiverGone book.now.first) }
        ensures kept { book.now.first ≤ lo → (sequence : ℕ) → IsErrOf result (BookFault.ReceiverGone sequence) → ⊥ }
        ensures whole { (sequence area at : ℕ) → IsErrOf result (BookFault.BlockChanged sequence area at) → S.tells → ⊥ }
        ensures stays { Stays (S.disk store.old) (S.disk store.new) }
        ensures cause { IsErrOf result BookFault.StoreFault → Rose (S.disk store.old).faults (S.disk store.new).faults }
        ensures untouched { hi < book.now.first + book.now.forced → ((n : ℕ) → lo ≤ n → n ≤ hi → HasSequence self.old n) → store.new ≡ store.old }
        ensures unread { ((n : ℕ) → lo ≤ n → n ≤ hi → IsKept self.old book.now n) → (S.disk store.new).faults ≡ (S.disk store.old).faults }
        ensures never { ((n : ℕ) → lo ≤ n → n ≤ hi → IsKept self.old book.now n) → IsErrOf result BookFault.StoreFault → ⊥ }
        ensures unchanged { ((n : ℕ) → lo ≤ n → n ≤ hi → IsKept self.old book.now n) → (sequence area at : ℕ) → IsErrOf result (BookFault.BlockChanged sequence area at) → ⊥ }
        ensures keeps { IfOk result (λ found. IsKept self.new book.now hi ⊎ IsLongBlock hi (λ block. S.tells → (all : List Entry) → Holds book.now all (S.disk store.old) → IsStretch book.now.first all block)) }
        ensures cached { StayOf S.tells (λ all. Holds book.now all (S.disk store.old)) book.now.first self.old self.new }
    {
        let (first, last) = book.bounds();
        if lo > hi || lo == 0 || hi > last {
            return Err(BookFault::NoSuchEntry);
        }
        if lo < first {
            return Err(BookFault::ReceiverGone { sequence: first });
        }
        self.read_range(alloc, store, book, lo, hi)
    }

    /// The same of sequences that are there.
    fn read_range<S: Store>(
        &mut self,
        alloc: Global,
        store: &mut S,
        book: &Book,
        lo: u64,
        hi: u64,
    ) -> Result<Vec<Entry>, BookFault>
        requires held { S.tells → IsHeld book.now (S.disk store.old) }
        requires least { 1 ≤ book.now.first }
        requires kept { book.now.first ≤ lo }
        requires some { lo ≤ hi }
        ensures entries { IfOk result (λ found. S.tells → (all : List Entry) → Holds book.now all (S.disk store.old) → AreStretches book.now.first all self.old → found.items ≡ between book.now.first lo hi all) }
        ensures named { (sequence : ℕ) → IsErrOf result (BookFault.ReceiverGone sequence) → ⊥ }
        ensures no_range { IsErrOf result BookFault.NoSuchEntry → ⊥ }
        ensures whole { (sequence area at : ℕ) → IsErrOf result (BookFault.BlockChanged sequence area at) → S.tells → ⊥ }
        ensures stays { Stays (S.disk store.old) (S.disk store.new) }
        ensures cause { IsErrOf result BookFault.StoreFault → Rose (S.disk store.old).faults (S.disk store.new).faults }
        ensures untouched { hi < book.now.first + book.now.forced → ((n : ℕ) → lo ≤ n → n ≤ hi → HasSequence self.old n) → store.new ≡ store.old }
        ensures unread { ((n : ℕ) → lo ≤ n → n ≤ hi → IsKept self.old book.now n) → (S.disk store.new).faults ≡ (S.disk store.old).faults }
        ensures never { ((n : ℕ) → lo ≤ n → n ≤ hi → IsKept self.old book.now n) → IsErrOf result BookFault.StoreFault → ⊥ }
        ensures unchanged { ((n : ℕ) → lo ≤ n → n ≤ hi → IsKept self.old book.now n) → (sequence area at : ℕ) → IsErrOf result (BookFault.BlockChanged sequence area at) → ⊥ }
        ensures keeps { IfOk result (λ found. IsKept self.new book.now hi ⊎ IsLongBlock hi (λ block. S.tells → (all : List Entry) → Holds book.now all (S.disk store.old) → IsStretch book.now.first all block)) }
        ensures cached { StayOf S.tells (λ all. Holds book.now all (S.disk store.old)) book.now.first self.old self.new }
    {
        let mut found = Vec::new(alloc);
        let reached = self.take_forced(alloc, store, book, lo, hi, &mut found)?;
        take_waiting(alloc, store, book, reached, hi, &mut found)?;
        Ok(found)
    }

    /// Puts the forced entries of these sequences behind those that were found. Gives the last one, the sequence before the
    /// first where there is none.
    fn take_forced<S: Store>(
        &mut self,
        alloc: Global,
        store: &mut S,
        book: &Book,
        lo: u64,
        hi: u64,
        found: &mut Vec<Entry>,
    ) -> Result<u64, BookFault>
        requires held { S.tells → IsHeld book.now (S.disk store.old) }
        requires least { 1 ≤ book.now.first }
        requires kept { book.now.first ≤ lo }
        requires some { lo ≤ hi }
        ensures taken { IfOk result (λ reached. IsTakenUpTo S.tells (λ all. Holds book.now all (S.disk store.old)) book.now.first self.old self.new lo hi found.old.items found.new.items reached) }
        ensures ends { IfOk result (λ reached. reached < hi → book.now.first + book.now.forced ≤ reached + 1) }
        ensures named { (sequence : ℕ) → IsErrOf result (BookFault.ReceiverGone sequence) → ⊥ }
        ensures no_range { IsErrOf result BookFault.NoSuchEntry → ⊥ }
        ensures whole { (sequence area at : ℕ) → IsErrOf result (BookFault.BlockChanged sequence area at) → S.tells → ⊥ }
        ensures stays { Stays (S.disk store.old) (S.disk store.new) }
        ensures cause { IsErrOf result BookFault.StoreFault → Rose (S.disk store.old).faults (S.disk store.new).faults }
        ensures untouched { ((n : ℕ) → lo ≤ n → n ≤ hi → IsKept self.old book.now n) → store.new ≡ store.old }
        ensures never { ((n : ℕ) → lo ≤ n → n ≤ hi → IsKept self.old book.now n) → IsErrOf result BookFault.StoreFault → ⊥ }
        ensures unchanged { ((n : ℕ) → lo ≤ n → n ≤ hi → IsKept self.old book.now n) → (sequence area at : ℕ) → IsErrOf result (BookFault.BlockChanged sequence area at) → ⊥ }
        ensures cached { StayOf S.tells (λ all. Holds book.now all (S.disk store.old)) book.now.first self.old self.new }
    {
        let mut reached = lo - 1;
        while goes_on(book, reached, hi) {
            reached = self.take_block(alloc, store, book, reached + 1, hi, found)?;
        }
        Ok(reached)
    }

    /// Puts the entries of one block, from one sequence up to another, behind those that were found. Gives the last one.
    fn take_block<S: Store>(
        &mut self,
        alloc: Global,
        store: &mut S,
        book: &Book,
        lo: u64,
        hi: u64,
        found: &mut Vec<Entry>,
    ) -> Result<u64, BookFault>
        requires held { S.tells → IsHeld book.now (S.disk store.old) }
        requires least { 1 ≤ book.now.first }
        requires kept { book.now.first ≤ lo }
        requires forced { lo < book.now.first + book.now.forced }
        requires some { lo ≤ hi }
        ensures taken { IfOk result (λ reached. IsTaken S.tells (λ all. Holds book.now all (S.disk store.old)) book.now.first self.old self.new lo hi found.old.items found.new.items reached) }
        ensures named { (sequence : ℕ) → IsErrOf result (BookFault.ReceiverGone sequence) → ⊥ }
        ensures no_range { IsErrOf result BookFault.NoSuchEntry → ⊥ }
        ensures whole { (sequence area at : ℕ) → IsErrOf result (BookFault.BlockChanged sequence area at) → S.tells → ⊥ }
        ensures stays { Stays (S.disk store.old) (S.disk store.new) }
        ensures cause { IsErrOf result BookFault.StoreFault → Rose (S.disk store.old).faults (S.disk store.new).faults }
        ensures untouched { HasSequence self.old lo → store.new ≡ store.old }
        ensures never { HasSequence self.old lo → IsErrOf result BookFault.StoreFault → ⊥ }
        ensures unchanged { HasSequence self.old lo → (sequence area at : ℕ) → IsErrOf result (BookFault.BlockChanged sequence area at) → ⊥ }
        ensures keep { HasSequence self.old lo → (n : ℕ) → HasSequence self.old n → HasSequence self.new n }
        ensures cached { StayOf S.tells (λ all. Holds book.now all (S.disk store.old)) book.now.first self.old self.new }
    {
        let Some(reached) = self.take_kept(alloc, lo, hi, found)? else {
            let last = self.take_read(alloc, store, book, lo, hi, found)?;
            return Ok(last);
        };
        Ok(reached)
    }

    /// The same of a block that stands in the cache; `None` where none has the first sequence.
    fn take_kept(
        &mut self,
        alloc: Global,
        lo: u64,
        hi: u64,
        found: &mut Vec<Entry>,
    ) -> Result<Option<u64>, AllocError>
        requires some { lo ≤ hi }
        ensures taken { IfOk result (λ taken. IfSome taken (λ reached. IsFound self.old self.new lo hi found.old.items found.new.items reached)) }
        ensures none { IfOk result (λ taken. IfNone taken (HasSequence self.old lo → ⊥)) }
        ensures nothing { IfOk result (λ taken. IfNone taken (found.new.items ≡ found.old.items)) }
        ensures keep { (n : ℕ) → HasSequence self.old n → HasSequence self.new n }
        ensures cached { (first : ℕ) (all : List Entry) → AreStretches first all self.old → AreStretches first all self.new }
    {
        let Some(key) = key_of(&self.blocks, lo) else {
            return Ok(None);
        };
        let reached = copy_kept(&self.blocks, alloc, key, lo, hi, found)?;
        let _there = self.blocks.promote(&key);
        Ok(Some(reached))
    }

    /// The same of a block that is read.
    fn take_read<S: Store>(
        &mut self,
        alloc: Global,
        store: &mut S,
        book: &Book,
        lo: u64,
        hi: u64,
        found: &mut Vec<Entry>,
    ) -> Result<u64, BookFault>
        requires held { S.tells → IsHeld book.now (S.disk store.old) }
        requires least { 1 ≤ book.now.first }
        requires kept { book.now.first ≤ lo }
        requires forced { lo < book.now.first + book.now.forced }
        requires some { lo ≤ hi }
        ensures taken { IfOk result (λ reached. IsTaken S.tells (λ all. Holds book.now all (S.disk store.old)) book.now.first self.old self.new lo hi found.old.items found.new.items reached) }
        ensures named { (sequence : ℕ) → IsErrOf result (BookFault.ReceiverGone sequence) → ⊥ }
        ensures no_range { IsErrOf result BookFault.NoSuchEntry → ⊥ }
        ensures whole { (sequence area at : ℕ) → IsErrOf result (BookFault.BlockChanged sequence area at) → S.tells → ⊥ }
        ensures stays { Stays (S.disk store.old) (S.disk store.new) }
        ensures cause { IsErrOf result BookFault.StoreFault → Rose (S.disk store.old).faults (S.disk store.new).faults }
        ensures cached { StayOf S.tells (λ all. Holds book.now all (S.disk store.old)) book.now.first self.old self.new }
    {
        let bounds = book.block_of(lo);
        let block = read_block(alloc, store, book, bounds)?;
        let reached = block.copy(alloc, lo, hi, found)?;
        self.keep(bounds.first, block)?;
        Ok(reached)
    }

    /// Puts the block into the cache, unless it's too long.
    fn keep(&mut self, key: u64, block: Block) -> Result<(), AllocError>
        ensures stands { OnOk result ((n : ℕ) → IsTrue (has_entry n block) → HasSequence self.new n ⊎ (MOST_BYTES < block_bytes block)) }
        ensures cached { (first : ℕ) (all : List Entry) → AreStretches first all self.old → IsStretch first all block → AreStretches first all self.new }
    {
        if block.is_long() {
            return Ok(());
        }
        self.put(key, block)?;
        Ok(())
    }

    /// The same of a block that isn't.
    fn put(&mut self, key: u64, block: Block) -> Result<(), AllocError>
        requires { IsShort block }
        ensures stands { OnOk result ((n : ℕ) → IsTrue (has_entry n block) → HasSequence self.new n) }
        ensures cached { (first : ℕ) (all : List Entry) → AreStretches first all self.old → IsStretch first all block → AreStretches first all self.new }
    {
        self.blocks.put(key, block)?;
        Ok(())
    }
}

/// `MOST_BLOCKS`, which isn't 0.
fn most_blocks() -> NonZeroUsize
    ensures { non_zero_usize_get result ≡ 64 }
{
    NonZeroUsize::new(MOST_BLOCKS).unwrap()
}
