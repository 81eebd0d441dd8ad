//! Rolls back what a journal leaves open. Which entries that takes, is in specs/Rollbacks.antt.
ghost use Rattle.std.specs.Prelude.{◌≡◌, ◌+◌, ◌++◌, List, [], length, IfOk, OnOk, IsErrOf};
ghost use Rattle.store_model.specs.Disk.{Leaves};
ghost use Rattle.store_model.specs.Faults.{Rose};
ghost use Rattle.entry_codec.specs.declared.entries.Entry.{Entry};
ghost use Rattle.journal_model.specs.Rollback.{numbered_from};
ghost use Rattle.journal_limits.specs.Lengths.{KeepsLengths};
ghost use Rattle.receiver_chain.specs.Others.{LeavesRoots};
ghost use Rattle.journal_book.specs.Book.{Holds};
ghost use Rattle.journal_book.specs.Kept.{IsForcedOrFrom};
ghost use Rattle.journal_replay.specs.SoFar.{EndsWhole};
ghost use Rattle.journal_opening.specs.Journals.{IsLeftBy, journal_with};
ghost use Rattle.restart_rollback.specs.Rollbacks.{IsForcedOrReplayed, rollback_entries, rolled_back};

use crate::fault::RestartFault;
use entry_codec::{Draft, Entry};
use journal_opening::take_all;
use kept_journal::KeptJournal;
use replay_files::Describe;
use replay_step::Replay;
use restart_drafts::{By, restart_drafts};
use std::alloc::{AllocError, Global};
use store_model::Store;

/// Rolls back the commit cycles that are open behind the entries of a journal: what that deposits goes to the disk in one block, and behind
/// the entries. At every moment a stop leaves the journal as it was or as it is then. After an `Err` open the journal again.
pub fn roll_back<S: Store, D: Describe>(
    alloc: Global,
    store: &mut S,
    by: &D,
    journal: &mut KeptJournal,
    entries: &mut Vec<Entry>,
    replay: &mut Replay,
    who: &By,
) -> Result<(), RestartFault>
    requires keeps { KeepsLengths (D.rules by.now) }
    requires left { IsLeftBy (D.rules by.now) entries.old.items replay.old }
    requires held { S.tells → Holds journal.old entries.old.items (S.disk store.old) }
    ensures ended { OnOk result (entries.new.items ≡ rolled_back who.now.job who.now.moment entries.old.items) }
    ensures left { OnOk result (IsLeftBy (D.rules by.now) entries.new.items replay.new) }
    ensures closed { OnOk result (replay.new.cycles ≡ []) }
    ensures held { OnOk result (S.tells → Holds journal.new entries.new.items (S.disk store.new)) }
    ensures nothing_waits { OnOk result (journal.new.waiting ≡ 0) }
    ensures receiver { journal.new.chain.first ≡ journal.old.chain.first }
    ensures moments { S.tells → Leaves (S.disk store.old) (S.disk store.new) (IsForcedOrFrom journal.old.chain.first journal.old.forced (length (rolled_back who.now.job who.now.moment entries.old.items)) (rolled_back who.now.job who.now.moment entries.old.items)) }
    ensures replays { S.tells → EndsWhole (journal_with entries.old.items) → Leaves (S.disk store.old) (S.disk store.new) (IsForcedOrReplayed (D.rules by.now) journal.old.chain.first journal.old.forced (rolled_back who.now.job who.now.moment entries.old.items)) }
    ensures roots { LeavesRoots (S.disk store.old) (S.disk store.new) }
    ensures cause { IsErrOf result RestartFault.StoreFault → Rose (S.disk store.old).faults (S.disk store.new).faults }
{
    let more = prepare(alloc, by, entries, replay, who)?;
    put(store, journal, entries, more)?;
    Ok(())
}

/// The entries that roll them back, and what is left then.
fn prepare<D: Describe>(
    alloc: Global,
    by: &D,
    entries: &[Entry],
    replay: &mut Replay,
    who: &By,
) -> Result<Vec<Entry>, AllocError>
    requires keeps { KeepsLengths (D.rules by.now) }
    requires left { IsLeftBy (D.rules by.now) entries.now replay.old }
    ensures more { IfOk result (λ more. more.items ≡ rollback_entries who.now.job who.now.moment entries.now) }
    ensures left { IfOk result (λ more. IsLeftBy (D.rules by.now) (entries.now ++ more.items) replay.new) }
    ensures closed { OnOk result (replay.new.cycles ≡ []) }
{
    let drafts = restart_drafts(alloc, replay.open_cycles(), who)?;
    let more = numbered(alloc, drafts, entries.len())?;
    take_rolled(by, replay, &more)?;
    Ok(more)
}

/// Takes those entries, behind which no commit cycle is open.
fn take_rolled<D: Describe>(by: &D, replay: &mut Replay, more: &[Entry]) -> Result<(), AllocError>
    requires keeps { KeepsLengths (D.rules by.now) }
    ensures left { OnOk result ((before : List Entry) → IsLeftBy (D.rules by.now) before replay.old → IsLeftBy (D.rules by.now) (before ++ more.now) replay.new) }
    ensures closed { OnOk result (replay.new.cycles ≡ []) }
{
    let found = take_all(by, replay, more)?;
    match found {
        None => all_closed(replay),
        Some(_) => Err(AllocError), // it doesn't come of a journal that can be replayed
    }
}

/// Tells of commit cycles that are open. There are none behind a journal that can be replayed.
fn all_closed(replay: &Replay) -> Result<(), AllocError>
    ensures { OnOk result (replay.now.cycles ≡ []) }
{
    match replay.open_cycles().cycles() {
        [] => Ok(()),
        [_, ..] => Err(AllocError),
    }
}

/// The drafts as entries behind so many.
fn numbered(alloc: Global, drafts: Vec<Draft>, count: usize) -> Result<Vec<Entry>, AllocError>
    ensures { IfOk result (λ more. more.items ≡ numbered_from (count + 1) drafts.items) }
{
    let mut more = Vec::new(alloc);
    let mut sequence = count as u64;
    for draft in drafts {
        let Some(next) = sequence.checked_add(1) else {
            return Err(AllocError);
        };
        more.push(draft.numbered(next))?;
        sequence = next;
    }
    Ok(more)
}

/// Puts the entries behind the others, and on the disk.
fn put<S: Store>(
    store: &mut S,
    journal: &mut KeptJournal,
    entries: &mut Vec<Entry>,
    more: Vec<Entry>,
) -> Result<(), RestartFault>
    requires held { S.tells → Holds journal.old entries.old.items (S.disk store.old) }
    ensures put { OnOk result (entries.new.items ≡ entries.old.items ++ more.items) }
    ensures held { OnOk result (S.tells → Holds journal.new (entries.old.items ++ more.items) (S.disk store.new)) }
    ensures nothing_waits { OnOk result (journal.new.waiting ≡ 0) }
    ensures receiver { journal.new.chain.first ≡ journal.old.chain.first }
    ensures moments { S.tells → Leaves (S.disk store.old) (S.disk store.new) (IsForcedOrFrom journal.old.chain.first journal.old.forced (length (entries.old.items ++ more.items)) (entries.old.items ++ more.items)) }
    ensures roots { LeavesRoots (S.disk store.old) (S.disk store.new) }
    ensures cause { IsErrOf result RestartFault.StoreFault → Rose (S.disk store.old).faults (S.disk store.new).faults }
{
    let mut more = more;
    journal.reserve(1)?;
    if !journal.may_take(&more) {
        return Err(RestartFault::NoMemory); // nor does this
    }
    journal.put_call(store, &more, true)?;
    entries.append(&mut more)?;
    Ok(())
}
