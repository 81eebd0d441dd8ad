//! What no clause of `block_cache` says: that reads succeed where memory is ample, and that a block which is read once is
//! there without the store.
ghost use Rattle.std.specs.Prelude.{List};
ghost use Rattle.entry_codec.specs.declared.entries.Entry.{Entry};
ghost use Rattle.journal_book.specs.Book.{Holds, IsHeld};
ghost use Rattle.block_cache.specs.Cached.{AreStretches};

use crate::logs::add;
use block_cache::BlockCache;
use entry_codec::Entry;
use gated_log::{LogFault, format};
use journal_book::{Book, BookFault, open};
use std::alloc::Global;
use std::test::Fail;
use store_model::{MemoryStore, Store};

/// The area of the first receiver.
const AREA: u32 = 3;

/// An entry of code J, type IA. The last byte of its sequence is still 0.
const ENTRY: [u8; 49] =
    *b"\0\0\0\x2d\0\0\0\0\0\0\0\0JIARESTART   \0\0\0\0\0\0\0\0\0\0\0\0\0\0\0\0\0\0\0\0\0\0\0\0";

/// The block of that entry with this sequence.
fn block(sequence: u8) -> [u8; 49] {
    let mut bytes = ENTRY;
    bytes[11] = sequence;
    bytes
}

/// The sequence of the first of these entries, 0 where there is none.
fn sequence_of(entries: &[Entry]) -> u64 {
    match entries {
        [entry, ..] => entry.sequence,
        [] => 0,
    }
}

/// The sequence of the first entry that was read, 0 where none was.
fn sequence_read(read: Result<Vec<Entry>, BookFault>) -> u64 {
    match read {
        Ok(entries) => sequence_of(&entries),
        Err(_) => 0,
    }
}

/// Whether it was the store that failed.
fn is_fault(read: Result<Vec<Entry>, BookFault>) -> bool {
    match read {
        Err(BookFault::StoreFault) => true,
        _ => false,
    }
}

/// Reads the third entry twice, and then the first one: the sequences that the two reads gave, whether the third was kept
/// between them, and whether the store failed at the first.
fn read_thrice<S: Store>(
    alloc: Global,
    store: &mut S,
    book: &Book,
    cache: &mut BlockCache,
) -> Result<(u64, bool, u64, bool), BookFault>
    requires held { S.tells → IsHeld book.now (S.disk store.old) }
    requires cached { S.tells → (all : List Entry) → Holds book.now all (S.disk store.old) → AreStretches book.now.first all cache.old }
{
    let once = cache.entries(alloc, store, book, 3, 3)?;
    let kept = cache.keeps(book, 3);
    let again = sequence_read(cache.entries(alloc, store, book, 3, 3));
    let failed = is_fault(cache.entries(alloc, store, book, 1, 1));
    Ok((sequence_of(&once), kept, again, failed))
}

/// The same of the book that the store keeps; `None` where the third entry wasn't read.
fn read_over<S: Store>(
    alloc: Global,
    store: &mut S,
) -> Result<Option<(u64, bool, u64, bool)>, LogFault> {
    let book = open(alloc, store, 1)?;
    let mut cache = BlockCache::new(alloc)?;
    Ok(read_thrice(alloc, store, &book, &mut cache).ok())
}

/// The same over a store with three entries, each in a block of its own, that fails at a call.
fn read_until(alloc: Global, call: u64) -> Result<Option<(u64, bool, u64, bool)>, LogFault> {
    let mut store = MemoryStore::new(alloc);
    store.fail_at(call);
    if format(&mut store, AREA, 1, 1).is_err() {
        return Ok(None);
    }
    for sequence in 1..4 {
        add(alloc, &mut store, AREA, &block(sequence))?;
    }
    read_over(alloc, &mut store)
}

/// More calls than the store has until the third entry was read.
const MOST_CALLS: u64 = 200;

/// The first call that fails behind the first read of the third entry is that by which the first entry is read: the second read
/// of the third makes none.
#[test]
fn a_block_is_read_once(rt: HostRuntime) -> Result<(), Fail> {
    let mut done = false;
    for call in 1..MOST_CALLS {
        if let Ok(Some(read)) = read_until(rt.alloc(), call) {
            assert_eq!(rt; read, (3, true, 3, true));
            done = true;
            break;
        }
    }
    assert!(rt; done);
    Ok(())
}
