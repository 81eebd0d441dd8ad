//! Opens the journal of a store and brings it to an end, as a restart does. Which entries that takes, is in specs/Restarts.antt.
ghost use Rattle.std.specs.Prelude.{◌≡◌, ◌≢◌, ◌≤◌, ℕ, List, [], IfOk, IsErrOf};
ghost use Rattle.store_model.specs.Disk.{Areas, Leaves, May, Stays};
ghost use Rattle.store_model.specs.Faults.{Rose};
ghost use Rattle.entry_codec.specs.declared.entries.Entry.{Entry};
ghost use Rattle.receiver_chain.specs.declared.numbers.TheConstants.{FIRST_RECEIVER};
ghost use Rattle.receiver_chain.specs.Others.{LeavesRoots};
ghost use Rattle.checkpoint.specs.declared.layout.TheConstants.{ROOT_AREA};
ghost use Rattle.journal_limits.specs.Lengths.{KeepsLengths};
ghost use Rattle.journal_book.specs.Book.{Holds};
ghost use Rattle.journal_replay.specs.SoFar.{EndsWhole};
ghost use Rattle.restart_rollback.specs.Journals.{IsLeftBy, SpellJournal, journal_with};
ghost use Rattle.restarted_journal.specs.Restarts.{IsEnded, IsEnding, IsRestarted, MayRestart};

use crate::beginning::begin_receiver;
use entry_codec::Entry;
use journal_book::Book;
use kept_journal::KeptJournal;
use replay_files::Describe;
use replay_step::Replay;
use restart_drafts::By;
use restart_rollback::journal_opening::{OpenFault, OpenedJournal, open_journal};
use restart_rollback::{RestartFault, roll_back};
use std::alloc::Global;
use store_model::Store;

/// A store's journal, restarted. Its roots are those of a store that was formatted.
#[derive(Drop)]
pub struct RestartedJournal {
    pub journal: KeptJournal,
    /// The entries that it holds.
    pub entries: Vec<Entry>,
    /// What they leave.
    pub replay: Replay,
}

/// Opens the journal of a store, begins its attached receiver where a stop came before that, and rolls back what is open. At every moment
/// a stop leaves what a stop before could, or a store that spells the journal as it was, begun, or ended. After an `Err`, and after a stop,
/// it can be done again.
pub fn restart_journal<S: Store, D: Describe>(
    alloc: Global,
    store: &mut S,
    by: &D,
    who: &By,
) -> Result<RestartedJournal, OpenFault>
    requires keeps { KeepsLengths (D.rules by.now) }
    ensures restarted { IfOk result (λ r. IsRestarted (D.rules by.now) S.tells (S.disk store.old) (S.disk store.new) who.now.job who.now.moment r.journal r.entries.items r.replay) }
    ensures spelled { IfOk result (λ r. S.tells → SpellJournal (D.rules by.now) r.entries.items (S.disk store.new).seen) }
    ensures durable { IfOk result (λ r. S.tells → (areas : Areas) → May (S.disk store.new) areas → SpellJournal (D.rules by.now) r.entries.items areas) }
    ensures moments { S.tells → (entries : List Entry) → SpellJournal (D.rules by.now) entries (S.disk store.old).seen → Leaves (S.disk store.old) (S.disk store.new) (MayRestart (D.rules by.now) (S.disk store.old) who.now.job who.now.moment entries) }
    ensures not_a_library { IsErrOf result OpenFault.NotALibrary → S.tells → (S.disk store.old).seen ROOT_AREA ≡ [] }
    ensures damaged { (area at : ℕ) → IsErrOf result (OpenFault.Damaged area at) → S.tells → (entries : List Entry) → SpellJournal (D.rules by.now) entries (S.disk store.old).seen → ⊥ }
    ensures something { (area at : ℕ) → IsErrOf result (OpenFault.Damaged area at) → S.tells → (S.disk store.old).seen ROOT_AREA ≢ [] }
    ensures empty_stays { IsErrOf result OpenFault.NotALibrary → Stays (S.disk store.old) (S.disk store.new) }
    ensures damaged_stays { (area at : ℕ) → IsErrOf result (OpenFault.Damaged area at) → Stays (S.disk store.old) (S.disk store.new) }
    ensures faults { (S.disk store.old).faults ≤ (S.disk store.new).faults }
    ensures cause { IsErrOf result OpenFault.StoreFault → Rose (S.disk store.old).faults (S.disk store.new).faults }
{
    match open_journal(alloc, store, by) {
        Err(fault) => Err(fault),
        Ok(opened) => end_opened(alloc, store, by, opened, who),
    }
}

/// Brings a journal that was opened to its end.
fn end_opened<S: Store, D: Describe>(
    alloc: Global,
    store: &mut S,
    by: &D,
    opened: OpenedJournal,
    who: &By,
) -> Result<RestartedJournal, OpenFault>
    requires keeps { KeepsLengths (D.rules by.now) }
    requires left { IsLeftBy (D.rules by.now) opened.entries.items opened.replay }
    requires whole { EndsWhole (journal_with opened.entries.items) }
    requires held { S.tells → Holds opened.book opened.entries.items (S.disk store.old) }
    requires alone { opened.book.waiting ≡ 0 }
    requires first { opened.book.chain.first ≡ FIRST_RECEIVER }
    ensures ended { IfOk result (λ r. IsEnded (D.rules by.now) S.tells (S.disk store.new) who.now.job who.now.moment opened.entries.items r.journal r.entries.items r.replay) }
    ensures moments { S.tells → Leaves (S.disk store.old) (S.disk store.new) (IsEnding (D.rules by.now) who.now.job who.now.moment opened.entries.items) }
    ensures roots { LeavesRoots (S.disk store.old) (S.disk store.new) }
    ensures never_empty { IsErrOf result OpenFault.NotALibrary → ⊥ }
    ensures never_damaged { (area at : ℕ) → IsErrOf result (OpenFault.Damaged area at) → ⊥ }
    ensures cause { IsErrOf result OpenFault.StoreFault → Rose (S.disk store.old).faults (S.disk store.new).faults }
{
    let OpenedJournal {
        book,
        entries,
        replay,
        ..
    } = opened;
    match end_parts(alloc, store, by, book, entries, replay, who) {
        Ok(ended) => Ok(ended),
        Err(RestartFault::StoreFault) => Err(OpenFault::StoreFault),
        Err(RestartFault::NoMemory) => Err(OpenFault::NoMemory),
    }
}

/// The same of its book, its entries and what they leave.
fn end_parts<S: Store, D: Describe>(
    alloc: Global,
    store: &mut S,
    by: &D,
    book: Book,
    entries: Vec<Entry>,
    replay: Replay,
    who: &By,
) -> Result<RestartedJournal, RestartFault>
    requires keeps { KeepsLengths (D.rules by.now) }
    requires left { IsLeftBy (D.rules by.now) entries.items replay }
    requires whole { EndsWhole (journal_with entries.items) }
    requires held { S.tells → Holds book entries.items (S.disk store.old) }
    requires alone { book.waiting ≡ 0 }
    requires first { book.chain.first ≡ FIRST_RECEIVER }
    ensures ended { IfOk result (λ r. IsEnded (D.rules by.now) S.tells (S.disk store.new) who.now.job who.now.moment entries.items r.journal r.entries.items r.replay) }
    ensures moments { S.tells → Leaves (S.disk store.old) (S.disk store.new) (IsEnding (D.rules by.now) who.now.job who.now.moment entries.items) }
    ensures roots { LeavesRoots (S.disk store.old) (S.disk store.new) }
    ensures cause { IsErrOf result RestartFault.StoreFault → Rose (S.disk store.old).faults (S.disk store.new).faults }
{
    let mut book = book;
    let mut entries = entries;
    let mut replay = replay;
    begin_receiver(store, by, &mut book, &mut entries, &mut replay, who)?;
    let mut journal = KeptJournal::over(book)?;
    roll_back(
        alloc,
        store,
        by,
        &mut journal,
        &mut entries,
        &mut replay,
        who,
    )?;
    Ok(RestartedJournal {
        journal,
        entries,
        replay,
    })
}
