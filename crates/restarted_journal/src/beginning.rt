//! The entry by which the attached receiver begins is deposited, where a stop came before it.
ghost use Rattle.std.specs.Prelude.{◌≡◌, ◌+◌, ◌-◌, ◌^◌, ◌<◌, ◌≤◌, ◌++◌, ◌∷◌, ℕ, true, false, List, [], Option, None, length, IfOk, OnOk, IsErrOf};
ghost use Rattle.store_model.specs.Disk.{Leaves};
ghost use Rattle.store_model.specs.Faults.{Rose};
ghost use Rattle.entry_codec.specs.declared.entries.Entry.{Entry};
ghost use Rattle.entry_codec.specs.declared.kinds.EntryKind.TheVariants.{PreviousReceiver};
ghost use Rattle.entry_codec.specs.Drafts.{numbered};
ghost use Rattle.entry_codec.specs.Spelling.{HasSpelling, spelling};
ghost use Rattle.receiver_chain.specs.Chain.{attached_of};
ghost use Rattle.receiver_chain.specs.Others.{LeavesRoots};
ghost use Rattle.journal_model.specs.Acts.{entry_before};
ghost use Rattle.journal_model.specs.Rollback.{library_draft, missing_behind, missing_draft, missing_kind};
ghost use Rattle.journal_limits.specs.Lengths.{KeepsLengths};
ghost use Rattle.journal_book.specs.Book.{HasMoreRoom, Holds, last_of, next_of};
ghost use Rattle.journal_book.specs.Kept.{IsForcedOrFrom};
ghost use Rattle.journal_replay.specs.SoFar.{EndsWhole};
ghost use Rattle.restart_rollback.specs.Journals.{IsLeftBy, journal_with};
ghost use Rattle.restart_rollback.specs.Rollbacks.{IsForcedOrReplayed};
ghost use Rattle.restarted_journal.specs.Restarts.{beginning, begun_with, first_entry};

use entry_codec::{Draft, Entry, EntryKind, entry_length};
use gated_log::MAX_BLOCK;
use journal_book::Book;
use replay_files::Describe;
use replay_step::Replay;
use restart_drafts::By;
use restart_rollback::RestartFault;
use restart_rollback::journal_opening::take_all;
use std::alloc::AllocError;
use store_model::Store;

/// The greatest last sequence behind which an entry may come.
const LAST_BEFORE: u64 = 1 << 63;

/// Begins the attached receiver, where a stop came before the entry by which it begins: that one goes to the disk alone, and behind
/// the entries. At every moment a stop leaves the journal as it was or as it is then. After an `Err` open the journal again.
pub fn begin_receiver<S: Store, D: Describe>(
    store: &mut S,
    by: &D,
    book: &mut Book,
    entries: &mut Vec<Entry>,
    replay: &mut Replay,
    who: &By,
) -> Result<(), RestartFault>
    requires keeps { KeepsLengths (D.rules by.now) }
    requires left { IsLeftBy (D.rules by.now) entries.old.items replay.old }
    requires held { S.tells → Holds book.old entries.old.items (S.disk store.old) }
    requires alone { book.old.waiting ≡ 0 }
    ensures ended { OnOk result (entries.new.items ≡ begun_with who.now.job who.now.moment entries.old.items) }
    ensures left { OnOk result (IsLeftBy (D.rules by.now) entries.new.items replay.new) }
    ensures held { OnOk result (S.tells → Holds book.new entries.new.items (S.disk store.new)) }
    ensures begun { OnOk result (book.new.begun ≡ true) }
    ensures empty { OnOk result (book.new.buffered ≡ []) }
    ensures nothing_waits { OnOk result (book.new.waiting ≡ 0) }
    ensures receiver { book.new.chain.first ≡ book.old.chain.first }
    ensures moments { S.tells → Leaves (S.disk store.old) (S.disk store.new) (IsForcedOrFrom book.old.chain.first book.old.forced (length (begun_with who.now.job who.now.moment entries.old.items)) (begun_with who.now.job who.now.moment entries.old.items)) }
    ensures replays { S.tells → EndsWhole (journal_with entries.old.items) → Leaves (S.disk store.old) (S.disk store.new) (IsForcedOrReplayed (D.rules by.now) book.old.chain.first book.old.forced (begun_with who.now.job who.now.moment entries.old.items)) }
    ensures roots { LeavesRoots (S.disk store.old) (S.disk store.new) }
    ensures cause { IsErrOf result RestartFault.StoreFault → Rose (S.disk store.old).faults (S.disk store.new).faults }
{
    match missing_number(entries) {
        None => begun_already(book),
        Some(number) => begin_behind(store, by, book, entries, replay, who, number),
    }
}

/// The number of the receiver that the last entry ends: the attached one has still to begin behind it.
fn missing_number(entries: &[Entry]) -> Option<u32>
    ensures { (job : Option (List ℕ)) (moment : ℕ) → missing_behind job moment (entry_before None entries.now) ≡ missing_draft job moment (beginning result) }
{
    if entries.is_empty() {
        None
    } else {
        number_ended(&entries[entries.len() - 1].kind)
    }
}

/// The number of the receiver that an entry of this kind ends.
fn number_ended(kind: &EntryKind) -> Option<u32>
    ensures { missing_kind kind.now ≡ beginning result }
{
    match kind {
        EntryKind::NextReceiver { number } => Some(number.saturating_sub(1)),
        EntryKind::FileCreated { .. }
        | EntryKind::FileDeleted { .. }
        | EntryKind::MemberAdded { .. }
        | EntryKind::JournalingStarted { .. }
        | EntryKind::InitialSlot { .. }
        | EntryKind::JournalingEnded
        | EntryKind::MemberCleared
        | EntryKind::MemberReorganized
        | EntryKind::ChangesApplied { .. }
        | EntryKind::ChangesRemoved { .. }
        | EntryKind::RecordAdded { .. }
        | EntryKind::RecordAddedAtNumber { .. }
        | EntryKind::BeforeImage { .. }
        | EntryKind::AfterImage { .. }
        | EntryKind::RecordDeleted { .. }
        | EntryKind::UndoBeforeImage { .. }
        | EntryKind::UndoAfterImage { .. }
        | EntryKind::UndoDelete { .. }
        | EntryKind::CommitmentStarted { .. }
        | EntryKind::CommitCycleStarted
        | EntryKind::CommitCycleCommitted
        | EntryKind::CommitCycleRolledBack
        | EntryKind::CommitmentEnded
        | EntryKind::AbnormalEnd
        | EntryKind::PreviousReceiver { .. } => None,
    }
}

/// Nothing is to be done where the receiver has begun. A book that has not, or in which bytes wait, doesn't come of its journal.
fn begun_already(book: &Book) -> Result<(), RestartFault>
    ensures begun { OnOk result (book.now.begun ≡ true) }
    ensures empty { OnOk result (book.now.buffered ≡ []) }
    ensures cause { IsErrOf result RestartFault.StoreFault → ⊥ }
{
    if book.has_begun() && is_alone(book) {
        Ok(())
    } else {
        Err(RestartFault::NoMemory)
    }
}

/// Whether no bytes wait.
fn is_alone(book: &Book) -> bool
    ensures { result ≡ true → book.now.buffered ≡ [] }
{
    book.waiting_bytes() == 0
}

/// The entry that begins the receiver behind the one of this number is taken, deposited and forced.
fn begin_behind<S: Store, D: Describe>(
    store: &mut S,
    by: &D,
    book: &mut Book,
    entries: &mut Vec<Entry>,
    replay: &mut Replay,
    who: &By,
    number: u32,
) -> Result<(), RestartFault>
    requires keeps { KeepsLengths (D.rules by.now) }
    requires left { IsLeftBy (D.rules by.now) entries.old.items replay.old }
    requires held { S.tells → Holds book.old entries.old.items (S.disk store.old) }
    requires alone { book.old.waiting ≡ 0 }
    ensures ended { OnOk result (entries.new.items ≡ entries.old.items ++ first_entry who.now.job who.now.moment number (length entries.old.items + 1) ∷ []) }
    ensures left { OnOk result (IsLeftBy (D.rules by.now) entries.new.items replay.new) }
    ensures held { OnOk result (S.tells → Holds book.new entries.new.items (S.disk store.new)) }
    ensures begun { OnOk result (book.new.begun ≡ true) }
    ensures empty { OnOk result (book.new.buffered ≡ []) }
    ensures nothing_waits { OnOk result (book.new.waiting ≡ 0) }
    ensures receiver { book.new.chain.first ≡ book.old.chain.first }
    ensures moments { S.tells → Leaves (S.disk store.old) (S.disk store.new) (IsForcedOrFrom book.old.chain.first book.old.forced (length (entries.old.items ++ first_entry who.now.job who.now.moment number (length entries.old.items + 1) ∷ [])) (entries.old.items ++ first_entry who.now.job who.now.moment number (length entries.old.items + 1) ∷ [])) }
    ensures replays { S.tells → Leaves (S.disk store.old) (S.disk store.new) (IsForcedOrReplayed (D.rules by.now) book.old.chain.first book.old.forced (entries.old.items ++ first_entry who.now.job who.now.moment number (length entries.old.items + 1) ∷ [])) }
    ensures roots { LeavesRoots (S.disk store.old) (S.disk store.new) }
    ensures cause { IsErrOf result RestartFault.StoreFault → Rose (S.disk store.old).faults (S.disk store.new).faults }
{
    let sequence = next_behind(entries)?;
    let entry = first_draft(who, number).numbered(sequence);
    make_room(book, &entry)?;
    if !may_begin(book, sequence, number) {
        return Err(RestartFault::NoMemory); // it doesn't come of a journal that can be replayed
    }
    take(by, replay, &entry)?;
    put(store, book, entries, entry, first_draft(who, number))?;
    Ok(())
}

/// The sequence of the entry behind these.
fn next_behind(entries: &[Entry]) -> Result<u64, AllocError>
    ensures { IfOk result (λ sequence. sequence ≡ length entries.now + 1) }
{
    match (entries.len() as u64).checked_add(1) {
        Some(sequence) => Ok(sequence),
        None => Err(AllocError),
    }
}

/// The draft of the entry by which the receiver behind the one of this number begins.
fn first_draft(who: &By, number: u32) -> Draft
    ensures { result ≡ library_draft who.now.job who.now.moment (PreviousReceiver number) }
{
    Draft {
        job: who.job,
        moment: who.moment,
        group: None,
        member: None,
        rrn: None,
        kind: EntryKind::PreviousReceiver { number },
    }
}

/// Makes room for the entry and for its block.
fn make_room(book: &mut Book, entry: &Entry) -> Result<(), AllocError>
    requires { HasSpelling entry.now }
    ensures room { OnOk result (length (spelling entry.now) ≤ book.new.bytes) }
    ensures small { OnOk result (length (spelling entry.now) ≤ MAX_BLOCK) }
    ensures place { OnOk result (0 < book.new.chain.room) }
    ensures same { HasMoreRoom book.old book.new }
{
    let bytes = entry_length(entry);
    book.reserve(0, bytes as u64, 1)?;
    if bytes > MAX_BLOCK {
        return Err(AllocError);
    }
    Ok(())
}

/// Whether the receiver has still to begin, behind the one of this number, and with this sequence. It is so of each book whose last
/// entry ends that one.
fn may_begin(book: &Book, sequence: u64, number: u32) -> bool
    ensures bare { result ≡ true → book.now.begun ≡ false }
    ensures empty { result ≡ true → book.now.buffered ≡ [] }
    ensures next { result ≡ true → next_of book.now ≡ sequence }
    ensures few { result ≡ true → last_of book.now ≤ 2 ^ 63 }
    ensures names { result ≡ true → number ≡ attached_of book.now.chain - 1 }
{
    !book.has_begun()
        && is_alone(book)
        && is_next(book, sequence)
        && book.attached().saturating_sub(1) == number
}

/// Whether the sequence is the next one of the book.
fn is_next(book: &Book, sequence: u64) -> bool
    ensures next { result ≡ true → next_of book.now ≡ sequence }
    ensures few { result ≡ true → last_of book.now ≤ 2 ^ 63 }
{
    let (_, last) = book.bounds();
    is_behind(sequence, last)
}

/// Whether the sequence is the next one, and may come.
fn is_behind(sequence: u64, last: u64) -> bool
    ensures next { result ≡ true → sequence ≡ last + 1 }
    ensures few { result ≡ true → last ≤ 2 ^ 63 }
{
    last <= LAST_BEFORE && sequence == last + 1
}

/// Takes the entry behind those that were taken.
fn take<D: Describe>(by: &D, replay: &mut Replay, entry: &Entry) -> Result<(), AllocError>
    requires keeps { KeepsLengths (D.rules by.now) }
    ensures { OnOk result ((before : List Entry) → IsLeftBy (D.rules by.now) before replay.old → IsLeftBy (D.rules by.now) (before ++ entry.now ∷ []) replay.new) }
{
    match take_all(by, replay, std::slice::from_ref(entry))? {
        None => Ok(()),
        Some(_) => Err(AllocError),
    }
}

/// Deposits the entry and forces it, and puts it behind the entries.
fn put<S: Store>(
    store: &mut S,
    book: &mut Book,
    entries: &mut Vec<Entry>,
    entry: Entry,
    draft: Draft,
) -> Result<(), RestartFault>
    requires is { entry ≡ numbered draft (next_of book.old) }
    requires names { draft.kind ≡ PreviousReceiver (attached_of book.old.chain - 1) }
    requires spelled { HasSpelling entry }
    requires bare { book.old.begun ≡ false }
    requires alone { book.old.waiting ≡ 0 }
    requires empty { book.old.buffered ≡ [] }
    requires few { last_of book.old ≤ 2 ^ 63 }
    requires room { length (spelling entry) ≤ book.old.bytes }
    requires small { length (spelling entry) ≤ MAX_BLOCK }
    requires place { 0 < book.old.chain.room }
    requires held { S.tells → Holds book.old entries.old.items (S.disk store.old) }
    ensures put { OnOk result (entries.new.items ≡ entries.old.items ++ entry ∷ []) }
    ensures held { OnOk result (S.tells → Holds book.new (entries.old.items ++ entry ∷ []) (S.disk store.new)) }
    ensures begun { OnOk result (book.new.begun ≡ true) }
    ensures empty { OnOk result (book.new.buffered ≡ []) }
    ensures nothing_waits { OnOk result (book.new.waiting ≡ 0) }
    ensures receiver { book.new.chain.first ≡ book.old.chain.first }
    ensures moments { S.tells → Leaves (S.disk store.old) (S.disk store.new) (IsForcedOrFrom book.old.chain.first book.old.forced (length (entries.old.items ++ entry ∷ [])) (entries.old.items ++ entry ∷ [])) }
    ensures roots { LeavesRoots (S.disk store.old) (S.disk store.new) }
    ensures cause { IsErrOf result RestartFault.StoreFault → Rose (S.disk store.old).faults (S.disk store.new).faults }
{
    entries.reserve(1)?;
    let _sequence = book.begin(draft);
    book.force(store)?;
    entries.push_reserved(entry);
    Ok(())
}
