//! Opens the journal that a store holds, and trusts no byte. What it is, is in specs/Journals.antt.
ghost use Rattle.std.specs.Prelude.{◌≡◌, ◌≢◌, ℕ, List, [], IfOk, IsErrOf, IsTrue};
ghost use Rattle.store_model.specs.Disk.{Stays};
ghost use Rattle.store_model.specs.Faults.{Rose};
ghost use Rattle.entry_codec.specs.declared.entries.Entry.{Entry};
ghost use Rattle.journal_replay.specs.SoFar.{EndsWhole};
ghost use Rattle.journal_limits.specs.Lengths.{KeepsLengths};
ghost use Rattle.checkpoint.specs.declared.root.Root.{Root};
ghost use Rattle.checkpoint.specs.Roots.{AreRoots, first_root};
ghost use Rattle.checkpoint.specs.Holding.{HasRoots};
ghost use Rattle.journal_opening.specs.Journals.{IsLeftBy, IsOpened, SpellJournal, journal_with};

use crate::fault::OpenFault;
use crate::layout::ROOT_AREA;
use crate::replaying::replay_book;
use crate::written::is_written;
use checkpoint::{Root, Roots, open_roots};
use entry_codec::Entry;
use gated_log::LogFault;
use journal_book::Book;
use receiver_chain::FIRST_RECEIVER;
use replay_files::Describe;
use replay_step::Replay;
use std::alloc::Global;
use store_model::Store;

/// The number of the first member that a library ever has.
const FIRST_MEMBER: u32 = 1;

/// A store's journal, opened.
#[derive(Drop)]
pub struct OpenedJournal {
    pub roots: Roots,
    pub book: Book,
    /// The entries that the book holds.
    pub entries: Vec<Entry>,
    /// What they leave.
    pub replay: Replay,
}

/// Opens the journal of a store. It writes nothing. All its entries are on the disk, and a stop leaves them.
pub fn open_journal<S: Store, D: Describe>(
    alloc: Global,
    store: &mut S,
    by: &D,
) -> Result<OpenedJournal, OpenFault>
    requires keeps { KeepsLengths (D.rules by.now) }
    ensures opened { IfOk result (λ journal. S.tells → IsOpened (D.rules by.now) journal.roots journal.book journal.replay journal.entries.items (S.disk store.new) × SpellJournal (D.rules by.now) journal.entries.items (S.disk store.old).seen) }
    ensures left { IfOk result (λ journal. IsLeftBy (D.rules by.now) journal.entries.items journal.replay × EndsWhole (journal_with journal.entries.items)) }
    ensures all_forced { IfOk result (λ journal. journal.book.waiting ≡ 0) }
    ensures receiver { IfOk result (λ journal. journal.book.chain.first ≡ FIRST_RECEIVER) }
    ensures not_a_library { IsErrOf result OpenFault.NotALibrary → S.tells → (S.disk store.old).seen ROOT_AREA ≡ [] }
    ensures damaged { (area at : ℕ) → IsErrOf result (OpenFault.Damaged area at) → S.tells → (entries : List Entry) → SpellJournal (D.rules by.now) entries (S.disk store.old).seen → ⊥ }
    ensures something { (area at : ℕ) → IsErrOf result (OpenFault.Damaged area at) → S.tells → (S.disk store.old).seen ROOT_AREA ≢ [] }
    ensures stays { Stays (S.disk store.old) (S.disk store.new) }
    ensures cause { IsErrOf result OpenFault.StoreFault → Rose (S.disk store.old).faults (S.disk store.new).faults }
{
    if is_written(store, ROOT_AREA)? {
        let journal = open_written(alloc, store, by)?;
        Ok(journal)
    } else {
        Err(OpenFault::NotALibrary)
    }
}

/// The same of a store that has bytes in area 0.
fn open_written<S: Store, D: Describe>(
    alloc: Global,
    store: &mut S,
    by: &D,
) -> Result<OpenedJournal, OpenFault>
    requires keeps { KeepsLengths (D.rules by.now) }
    ensures opened { IfOk result (λ journal. S.tells → IsOpened (D.rules by.now) journal.roots journal.book journal.replay journal.entries.items (S.disk store.new) × SpellJournal (D.rules by.now) journal.entries.items (S.disk store.old).seen) }
    ensures left { IfOk result (λ journal. IsLeftBy (D.rules by.now) journal.entries.items journal.replay × EndsWhole (journal_with journal.entries.items)) }
    ensures all_forced { IfOk result (λ journal. journal.book.waiting ≡ 0) }
    ensures receiver { IfOk result (λ journal. journal.book.chain.first ≡ FIRST_RECEIVER) }
    ensures never_empty { IsErrOf result OpenFault.NotALibrary → ⊥ }
    ensures damaged { (area at : ℕ) → IsErrOf result (OpenFault.Damaged area at) → S.tells → (entries : List Entry) → SpellJournal (D.rules by.now) entries (S.disk store.old).seen → ⊥ }
    ensures stays { Stays (S.disk store.old) (S.disk store.new) }
    ensures cause { IsErrOf result OpenFault.StoreFault → Rose (S.disk store.old).faults (S.disk store.new).faults }
{
    match open_parts(alloc, store, by) {
        Ok(journal) => Ok(journal),
        Err(LogFault::StoreFault) => Err(OpenFault::StoreFault),
        Err(LogFault::NoMemory) => Err(OpenFault::NoMemory),
        Err(LogFault::Damaged { area, at }) => Err(OpenFault::Damaged { area, at }),
    }
}

/// Its roots, its book, and what the entries leave.
fn open_parts<S: Store, D: Describe>(
    alloc: Global,
    store: &mut S,
    by: &D,
) -> Result<OpenedJournal, LogFault>
    requires keeps { KeepsLengths (D.rules by.now) }
    ensures opened { IfOk result (λ journal. S.tells → IsOpened (D.rules by.now) journal.roots journal.book journal.replay journal.entries.items (S.disk store.new) × SpellJournal (D.rules by.now) journal.entries.items (S.disk store.old).seen) }
    ensures left { IfOk result (λ journal. IsLeftBy (D.rules by.now) journal.entries.items journal.replay × EndsWhole (journal_with journal.entries.items)) }
    ensures all_forced { IfOk result (λ journal. journal.book.waiting ≡ 0) }
    ensures receiver { IfOk result (λ journal. journal.book.chain.first ≡ FIRST_RECEIVER) }
    ensures damaged { (area at : ℕ) → IsErrOf result (LogFault.Damaged area at) → S.tells → (entries : List Entry) → SpellJournal (D.rules by.now) entries (S.disk store.old).seen → ⊥ }
    ensures stays { Stays (S.disk store.old) (S.disk store.new) }
    ensures cause { IsErrOf result LogFault.StoreFault → Rose (S.disk store.old).faults (S.disk store.new).faults }
{
    let roots = first_roots(alloc, store)?;
    let book = journal_book::open(alloc, store, FIRST_RECEIVER)?;
    let taken = replay_book(alloc, store, by, &book)?;
    Ok(OpenedJournal {
        roots,
        book,
        entries: taken.entries,
        replay: taken.replay,
    })
}

/// The roots, of which the last one names no saved state.
fn first_roots<S: Store>(alloc: Global, store: &mut S) -> Result<Roots, LogFault>
    ensures held { IfOk result (λ roots. S.tells → HasRoots roots (S.disk store.new)) }
    ensures first { IfOk result (λ roots. roots.last ≡ first_root) }
    ensures damaged { (area at : ℕ) → IsErrOf result (LogFault.Damaged area at) → S.tells → (earlier : List Root) → AreRoots earlier first_root ((S.disk store.old).seen ROOT_AREA) → ⊥ }
    ensures stays { Stays (S.disk store.old) (S.disk store.new) }
    ensures cause { IsErrOf result LogFault.StoreFault → Rose (S.disk store.old).faults (S.disk store.new).faults }
{
    let roots = open_roots(alloc, store)?;
    if is_first(&roots.last()) {
        Ok(roots)
    } else {
        Err(LogFault::Damaged {
            area: ROOT_AREA,
            at: 0,
        })
    }
}

/// Whether it is the root that a store is formatted with.
fn is_first(root: &Root) -> bool
    ensures first { IsTrue result → root.now ≡ first_root }
    ensures only { root.now ≡ first_root → IsTrue result }
{
    let Root {
        area,
        sequence,
        length,
        first_receiver,
        next_member,
    } = *root;
    area == 0
        && sequence == 0
        && length == 0
        && first_receiver == FIRST_RECEIVER
        && next_member == FIRST_MEMBER
}
