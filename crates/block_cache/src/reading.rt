//! What is read of the book: a block that is kept then, and the entries that wait.
ghost use Rattle.std.specs.Prelude.{◌≡◌, ◌+◌, ◌<◌, ◌≤◌, ◌++◌, ℕ, List, IfOk, OnOk, IsErrOf, IsTrue, ◌↔◌};
ghost use Rattle.store_model.specs.Disk.{Stays};
ghost use Rattle.store_model.specs.Faults.{Rose};
ghost use Rattle.entry_codec.specs.declared.entries.Entry.{Entry};
ghost use Rattle.journal_book.specs.Book.{Holds, IsHeld};
ghost use Rattle.journal_book.specs.Reads.{between};
ghost use Rattle.block_cache.specs.Cached.{has_entry};
ghost use Rattle.block_cache.specs.Walks.{IsOf};

use crate::block::Block;
use entry_codec::Entry;
use journal_book::{BlockBounds, Book, BookFault};
use std::alloc::{AllocError, Global};
use store_model::Store;

/// The block of the journal with these bounds.
pub fn read_block<S: Store>(
    alloc: Global,
    store: &mut S,
    book: &Book,
    bounds: BlockBounds,
) -> Result<Block, BookFault>
    requires held { S.tells → IsHeld book.now (S.disk store.old) }
    requires least { 1 ≤ book.now.first }
    requires from { book.now.first ≤ bounds.first }
    requires some { bounds.first ≤ bounds.last }
    requires forced { bounds.last < book.now.first + book.now.forced }
    ensures has { IfOk result (λ block. (n : ℕ) → bounds.first ≤ n → n ≤ bounds.last → IsTrue (has_entry n block)) }
    ensures there { IfOk result (λ block. IsOf S.tells (λ all. Holds book.now all (S.disk store.old)) book.now.first block) }
    ensures named { (sequence : ℕ) → IsErrOf result (BookFault.ReceiverGone sequence) → ⊥ }
    ensures no_range { IsErrOf result BookFault.NoSuchEntry → ⊥ }
    ensures whole { (sequence area at : ℕ) → IsErrOf result (BookFault.BlockChanged sequence area at) → S.tells → ⊥ }
    ensures stays { Stays (S.disk store.old) (S.disk store.new) }
    ensures cause { IsErrOf result BookFault.StoreFault → Rose (S.disk store.old).faults (S.disk store.new).faults }
{
    let entries = book.entries(alloc, store, bounds.first, bounds.last)?;
    let Some(block) = Block::of(entries, bounds) else {
        let place = book.place(alloc, store, bounds.first)?;
        return Err(BookFault::BlockChanged {
            sequence: bounds.first,
            area: place.0,
            at: place.1,
        });
    };
    Ok(block)
}

/// Whether a read that has come to this sequence goes on with one that is forced.
pub fn goes_on(book: &Book, reached: u64, hi: u64) -> bool
    ensures { IsTrue result ↔ ((reached < hi) × (reached + 1 < book.now.first + book.now.forced)) }
{
    if reached >= hi {
        return false;
    }
    !book.keeps(reached + 1)
}

/// Puts the entries that wait, from behind a sequence up to another, behind those that were found.
pub fn take_waiting<S: Store>(
    alloc: Global,
    store: &mut S,
    book: &Book,
    reached: u64,
    hi: u64,
    found: &mut Vec<Entry>,
) -> Result<(), AllocError>
    requires held { S.tells → IsHeld book.now (S.disk store.old) }
    requires waits { reached < hi → book.now.first + book.now.forced ≤ reached + 1 }
    ensures taken { OnOk result (S.tells → (all : List Entry) → Holds book.now all (S.disk store.old) → found.new.items ≡ found.old.items ++ between book.now.first (reached + 1) hi all) }
    ensures same { hi ≤ reached → store.new ≡ store.old }
    ensures unread { (S.disk store.new).faults ≡ (S.disk store.old).faults }
    ensures stays { Stays (S.disk store.old) (S.disk store.new) }
{
    if reached >= hi {
        return Ok(());
    }
    let mut waiting = read_waiting(alloc, store, book, reached + 1, hi)?;
    found.append(&mut waiting)?;
    Ok(())
}

/// The entries of these sequences, which wait. They are read from memory alone.
fn read_waiting<S: Store>(
    alloc: Global,
    store: &mut S,
    book: &Book,
    lo: u64,
    hi: u64,
) -> Result<Vec<Entry>, AllocError>
    requires held { S.tells → IsHeld book.now (S.disk store.old) }
    requires waits { book.now.first + book.now.forced ≤ lo }
    ensures entries { IfOk result (λ found. S.tells → (all : List Entry) → Holds book.now all (S.disk store.old) → found.items ≡ between book.now.first lo hi all) }
    ensures unread { (S.disk store.new).faults ≡ (S.disk store.old).faults }
    ensures stays { Stays (S.disk store.old) (S.disk store.new) }
{
    match book.entries(alloc, store, lo, hi) {
        Ok(entries) => Ok(entries),
        Err(_) => Err(AllocError), // these sequences are there, and no block is read
    }
}
