//! A library is shown: its files and members stand in memory, and the entries of its journal are read from the store, a piece at a time.
ghost use Rattle.std.specs.Prelude.{◌≡◌, ◌+◌, ◌-◌, ◌<◌, ◌≤◌, IfErr, IfOk, List, OnOk, length};
ghost use Rattle.store_model.specs.Disk.{Stays};
ghost use Rattle.store_model.specs.Faults.{Rose};
ghost use Rattle.entry_codec.specs.declared.entries.Entry.{Entry};
ghost use Rattle.journal_book.specs.Book.{Holds, IsHeld, last_of};
ghost use Rattle.journal_book.specs.Reads.{between};
ghost use Rattle.block_cache.specs.Cached.{AreStretches};
ghost use Rattle.library_steps.specs.State.{State};
ghost use Rattle.opened_library.specs.Stands.{Stands};
ghost use Rattle.ibmi_batch.specs.Outcome.{IsDisplay};
ghost use Rattle.ibmi_batch.specs.Parts.{Displays, Shows};
ghost use Rattle.ibmi_batch.specs.Seen.{HasRead, IsSeen, IsUnreadBy};

use crate::opening::{status_of, status_unread};
use crate::status::Status;
use block_cache::BlockCache;
use display::library_text::{begin_display, end_display, push_entries};
use entry_codec::Entry;
use journal_book::{Book, BookFault};
use opened_library::kept_library::KeptLibrary;
use opened_library::kept_library::library_parts::Contents;
use opened_library::open_library;
use std::alloc::Global;
use store_model::{Sink, Store, write_all};

/// So many entries are read at once.
const PIECE: u64 = 1_000;

/// Opens the library that the store keeps, and writes what it has.
pub(crate) fn show_library<S: Store, O: Sink>(alloc: Global, store: S, out: &mut O) -> (Status, S)
    ensures { Shows result.0 (record { tells = O.tells; old = O.taken out.old; new = O.taken out.new; rose = Rose (O.faults out.old) (O.faults out.new) }) (record { tells = S.tells; old = S.disk store; new = S.disk result.1 }) }
{
    match open_library(alloc, store) {
        Err((fault, store)) => (status_of(fault), store),
        Ok(library) => show_opened(alloc, library, out),
    }
}

/// Writes what a library has of which no entry waits.
fn show_opened<S: Store, O: Sink>(
    alloc: Global,
    library: KeptLibrary<S>,
    out: &mut O,
) -> (Status, S)
    requires settled { library.book.waiting ≡ 0 }
    ensures written { (s : State) → Stands S.tells S.disk library s → Displays result.0 S.tells s (record { tells = O.tells; old = O.taken out.old; new = O.taken out.new; rose = Rose (O.faults out.old) (O.faults out.new) }) (Rose (S.disk library.store).faults (S.disk result.1).faults) }
    ensures stays { Stays (S.disk library.store) (S.disk result.1) }
{
    let (store, journal, contents) = library.into_parts();
    let mut store = store;
    let status = write_display(alloc, &mut store, journal.book(), &contents, out);
    (status, store)
}

/// Writes the display of a library with this in memory, whose journal is this one in the store.
fn write_display<S: Store, O: Sink>(
    alloc: Global,
    store: &mut S,
    book: &Book,
    contents: &Contents,
    out: &mut O,
) -> Status
    requires held { S.tells → IsHeld book.now (S.disk store.old) }
    requires settled { book.now.waiting ≡ 0 }
    ensures written { (s : State) → IsSeen S.tells (S.disk store.old) book.now contents.now.state s → Displays result S.tells s (record { tells = O.tells; old = O.taken out.old; new = O.taken out.new; rose = Rose (O.faults out.old) (O.faults out.new) }) (Rose (S.disk store.old).faults (S.disk store.new).faults) }
    ensures stays { Stays (S.disk store.old) (S.disk store.new) }
{
    let text = match display_of(alloc, store, book, contents) {
        Ok(text) => text,
        Err(fault) => return status_unread(fault),
    };
    match write_all(out, text.as_slice()) {
        Ok(()) => Status::Done,
        Err(_) => Status::WriteFault,
    }
}

/// The display of a library with this in memory, with the entries of its journal as they are read.
fn display_of<S: Store>(
    alloc: Global,
    store: &mut S,
    book: &Book,
    contents: &Contents,
) -> Result<Vec<u8>, BookFault>
    requires held { S.tells → IsHeld book.now (S.disk store.old) }
    requires settled { book.now.waiting ≡ 0 }
    ensures shown { IfOk result (λ text. (s : State) → IsSeen S.tells (S.disk store.old) book.now contents.now.state s → IsDisplay S.tells s (λ whole. text.items ≡ whole)) }
    ensures fault { IfErr result (λ fault. IsUnreadBy fault S.tells (Rose (S.disk store.old).faults (S.disk store.new).faults)) }
    ensures stays { Stays (S.disk store.old) (S.disk store.new) }
{
    let (_, last) = book.bounds();
    let (_, attached) = contents.receivers();
    let mut text = begin_display(
        alloc,
        last,
        attached,
        contents.catalogue(),
        contents.members(),
    )?;
    push_journal(alloc, store, book, &mut text)?;
    end_display(&mut text)?;
    Ok(text)
}

/// Puts the entries of a journal, of which none waits, behind a text.
fn push_journal<S: Store>(
    alloc: Global,
    store: &mut S,
    book: &Book,
    text: &mut Vec<u8>,
) -> Result<(), BookFault>
    requires held { S.tells → IsHeld book.now (S.disk store.old) }
    requires settled { book.now.waiting ≡ 0 }
    ensures read { OnOk result (HasRead S.tells (λ all. Holds book.now all (S.disk store.old)) book.now.first (last_of book.now) text.old.items text.new.items) }
    ensures fault { IfErr result (λ fault. IsUnreadBy fault S.tells (Rose (S.disk store.old).faults (S.disk store.new).faults)) }
    ensures stays { Stays (S.disk store.old) (S.disk store.new) }
{
    let mut cache = BlockCache::new(alloc)?;
    let (first, last) = book.bounds();
    let mut done = first - 1;
    while done < last {
        let upto = end_of_piece(done, last);
        let found = read_piece(alloc, store, book, &mut cache, done + 1, upto)?;
        push_entries(text, found.as_slice())?;
        done = upto;
    }
    Ok(())
}

/// Up to which sequence a piece is read that begins behind another.
fn end_of_piece(done: u64, last: u64) -> u64
    requires some { done < last }
    ensures more { done < result }
    ensures within { result ≤ last }
{
    if last - done > PIECE {
        done + PIECE
    } else {
        last
    }
}

/// The entries of these sequences, which are forced: as many as there are.
fn read_piece<S: Store>(
    alloc: Global,
    store: &mut S,
    book: &Book,
    cache: &mut BlockCache,
    lo: u64,
    hi: u64,
) -> Result<Vec<Entry>, BookFault>
    requires held { S.tells → IsHeld book.now (S.disk store.old) }
    requires cached { S.tells → (all : List Entry) → Holds book.now all (S.disk store.old) → AreStretches book.now.first all cache.old }
    requires least { 1 ≤ book.now.first }
    requires from { book.now.first ≤ lo }
    requires some { lo ≤ hi }
    requires forced { hi < book.now.first + book.now.forced }
    ensures many { IfOk result (λ found. length found.items ≡ hi + 1 - lo) }
    ensures own { IfOk result (λ found. S.tells → (all : List Entry) → Holds book.now all (S.disk store.old) → found.items ≡ between book.now.first lo hi all) }
    ensures fault { IfErr result (λ fault. IsUnreadBy fault S.tells (Rose (S.disk store.old).faults (S.disk store.new).faults)) }
    ensures stays { Stays (S.disk store.old) (S.disk store.new) }
    ensures cached { S.tells → (all : List Entry) → Holds book.now all (S.disk store.new) → AreStretches book.now.first all cache.new }
{
    let found = cache.entries(alloc, store, book, lo, hi)?;
    if found.len() as u64 != hi - lo + 1 {
        return Err(changed_block(alloc, store, book, lo));
    }
    Ok(found)
}

/// That the block of a sequence doesn't read back as its entries, or why that one isn't found.
fn changed_block<S: Store>(alloc: Global, store: &mut S, book: &Book, sequence: u64) -> BookFault
    requires untold { S.tells → ⊥ }
    requires from { book.now.first ≤ sequence }
    requires forced { sequence < book.now.first + book.now.forced }
    ensures fault { IsUnreadBy result S.tells (Rose (S.disk store.old).faults (S.disk store.new).faults) }
    ensures stays { Stays (S.disk store.old) (S.disk store.new) }
{
    match book.place(alloc, store, sequence) {
        Ok((area, at)) => BookFault::BlockChanged { sequence, area, at },
        Err(fault) => fault,
    }
}
