//! Takes the entries of a book one after another, and finds the first that can't follow.
ghost use Rattle.std.specs.Prelude.{◌≡◌, ◌≤◌, ◌++◌, ◌∷◌, [], ℕ, true, false, List, IfOk, OnOk, IsErrOf};
ghost use Rattle.store_model.specs.Disk.{Stays};
ghost use Rattle.store_model.specs.Faults.{Rose};
ghost use Rattle.entry_codec.specs.declared.entries.Entry.{Entry};
ghost use Rattle.journal_model.specs.Journal.{CanReplayJournal};
ghost use Rattle.journal_limits.specs.Lengths.{KeepsLengths};
ghost use Rattle.journaled_entries.specs.Deposited.{AreDeposited, may_be_deposited};
ghost use Rattle.journal_replay.specs.Standing.{catalogue_in};
ghost use Rattle.journal_replay.specs.SoFar.{EndsWhole};
ghost use Rattle.journal_book.specs.Book.{Holds, IsHeld, last_of};
ghost use Rattle.journal_book.specs.Reads.{between};
ghost use Rattle.journal_opening.specs.Journals.{IsLeftBy, journal_with};
ghost use Rattle.journal_opening.specs.Takings.{AreTaken, CannotFollow, HasTakenAll, HasTakenRange};

use crate::deposited::may_be_deposited;
use crate::layout::{FIRST_AREA, PIECE};
use crate::limits::{begins_too_many, fits_named};
use entry_codec::Entry;
use gated_log::LogFault;
use journal_book::{Book, BookFault};
use replay_files::Describe;
use replay_step::Replay;
use std::alloc::{AllocError, Global};
use store_model::Store;

/// The entries of a book, and what they leave.
#[derive(Drop)]
pub(crate) struct Taken {
    pub(crate) entries: Vec<Entry>,
    pub(crate) replay: Replay,
}

/// The entries of a book that waits for none, and what they leave. At their end no pair of images waits for its second entry.
pub(crate) fn replay_book<S: Store, D: Describe>(
    alloc: Global,
    store: &mut S,
    by: &D,
    book: &Book,
) -> Result<Taken, LogFault>
    requires keeps { KeepsLengths (D.rules by.now) }
    requires held { S.tells → IsHeld book.now (S.disk store.old) }
    requires forced { book.now.waiting ≡ 0 }
    ensures taken { IfOk result (λ taken. HasTakenAll (D.rules by.now) S.tells book.now taken.entries.items taken.replay (S.disk store.old)) }
    ensures whole { IfOk result (λ taken. (entries : List Entry) → IsLeftBy (D.rules by.now) entries taken.replay → EndsWhole (journal_with entries)) }
    ensures damaged { (area at : ℕ) → IsErrOf result (LogFault.Damaged area at) → S.tells → (all : List Entry) → Holds book.now all (S.disk store.old) → CanReplayJournal (D.rules by.now) (journal_with all) → AreDeposited all → ⊥ }
    ensures stays { Stays (S.disk store.old) (S.disk store.new) }
    ensures cause { IsErrOf result LogFault.StoreFault → Rose (S.disk store.old).faults (S.disk store.new).faults }
{
    let taken = replay_entries(alloc, store, by, book)?;
    if taken.replay.is_whole() {
        Ok(taken)
    } else {
        Err(damage_at(alloc, store, book, taken.replay.last()))
    }
}

/// The same, whatever the last entry begins.
fn replay_entries<S: Store, D: Describe>(
    alloc: Global,
    store: &mut S,
    by: &D,
    book: &Book,
) -> Result<Taken, LogFault>
    requires keeps { KeepsLengths (D.rules by.now) }
    requires held { S.tells → IsHeld book.now (S.disk store.old) }
    requires forced { book.now.waiting ≡ 0 }
    ensures taken { IfOk result (λ taken. HasTakenAll (D.rules by.now) S.tells book.now taken.entries.items taken.replay (S.disk store.old)) }
    ensures damaged { (area at : ℕ) → IsErrOf result (LogFault.Damaged area at) → S.tells → (all : List Entry) → Holds book.now all (S.disk store.old) → CannotFollow (D.rules by.now) all }
    ensures stays { Stays (S.disk store.old) (S.disk store.new) }
    ensures cause { IsErrOf result LogFault.StoreFault → Rose (S.disk store.old).faults (S.disk store.new).faults }
{
    let bounds = book.bounds();
    let count = bounds.1 - (bounds.0 - 1);
    let mut replay = Replay::new(alloc);
    let mut entries = Vec::new(alloc);
    let mut read = 0;
    while read < count {
        let more = (count - read).min(PIECE);
        let lo = bounds.0 + read;
        let hi = lo + (more - 1);
        take_range(alloc, store, by, book, &mut replay, &mut entries, lo, hi)?;
        read += more;
    }
    Ok(Taken { entries, replay })
}

/// Takes the entries of these sequences, which come behind those that were taken, and keeps them.
fn take_range<S: Store, D: Describe>(
    alloc: Global,
    store: &mut S,
    by: &D,
    book: &Book,
    replay: &mut Replay,
    kept: &mut Vec<Entry>,
    lo: u64,
    hi: u64,
) -> Result<(), LogFault>
    requires keeps { KeepsLengths (D.rules by.now) }
    requires held { S.tells → IsHeld book.now (S.disk store.old) }
    requires forced { book.now.waiting ≡ 0 }
    requires counted { 1 ≤ lo }
    requires kept { book.now.first ≤ lo }
    requires some { lo ≤ hi }
    requires there { hi ≤ last_of book.now }
    ensures taken { OnOk result (IsLeftBy (D.rules by.now) kept.old.items replay.old → HasTakenRange (D.rules by.now) S.tells book.now lo hi kept.old.items kept.new.items replay.new (S.disk store.old)) }
    ensures damaged { (area at : ℕ) → IsErrOf result (LogFault.Damaged area at) → S.tells → (before all : List Entry) → IsLeftBy (D.rules by.now) before replay.old → Holds book.now all (S.disk store.old) → CannotFollow (D.rules by.now) (before ++ between book.now.first lo hi all) }
    ensures stays { Stays (S.disk store.old) (S.disk store.new) }
    ensures cause { IsErrOf result LogFault.StoreFault → Rose (S.disk store.old).faults (S.disk store.new).faults }
{
    let mut entries = read_range(alloc, store, book, lo, hi)?;
    let found = take_all(by, replay, &entries)?;
    kept.append(&mut entries)?;
    match found {
        None => Ok(()),
        Some(n) => Err(damage_at(alloc, store, book, lo.saturating_add(n as u64))),
    }
}

/// The entries of these sequences, which are there.
fn read_range<S: Store>(
    alloc: Global,
    store: &mut S,
    book: &Book,
    lo: u64,
    hi: u64,
) -> Result<Vec<Entry>, LogFault>
    requires held { S.tells → IsHeld book.now (S.disk store.old) }
    requires counted { 1 ≤ lo }
    requires kept { book.now.first ≤ lo }
    requires some { lo ≤ hi }
    requires there { hi ≤ last_of book.now }
    ensures entries { IfOk result (λ found. S.tells → (all : List Entry) → Holds book.now all (S.disk store.old) → found.items ≡ between book.now.first lo hi all) }
    ensures whole { (area at : ℕ) → IsErrOf result (LogFault.Damaged area at) → S.tells → ⊥ }
    ensures stays { Stays (S.disk store.old) (S.disk store.new) }
    ensures cause { IsErrOf result LogFault.StoreFault → Rose (S.disk store.old).faults (S.disk store.new).faults }
{
    match book.entries(alloc, store, lo, hi) {
        Ok(entries) => Ok(entries),
        Err(BookFault::StoreFault) => Err(LogFault::StoreFault),
        Err(BookFault::NoMemory) => Err(LogFault::NoMemory),
        Err(BookFault::BlockChanged { area, at, .. }) => Err(LogFault::Damaged { area, at }),
        Err(BookFault::NoSuchEntry) => Err(LogFault::StoreFault), // the range is there
        Err(BookFault::ReceiverGone { .. }) => Err(LogFault::StoreFault), // nor is it gone
    }
}

/// Takes the entries one after another: how many come before the first that can't follow, `None` where each one may.
pub fn take_all<D: Describe>(
    by: &D,
    replay: &mut Replay,
    entries: &[Entry],
) -> Result<Option<usize>, AllocError>
    requires keeps { KeepsLengths (D.rules by.now) }
    ensures { IfOk result (λ found. (before : List Entry) → IsLeftBy (D.rules by.now) before replay.old → AreTaken (D.rules by.now) (before ++ entries.now) replay.new found) }
{
    let mut n = 0;
    for entry in entries {
        if take_one(by, replay, entry)? {
            n += 1;
        } else {
            return Ok(Some(n));
        }
    }
    Ok(None)
}

/// Takes one entry more, where it can follow as one that libraries deposit, and leaves the member that it names within its limits. Where it can't follow, the rest is not to be used again.
fn take_one<D: Describe>(by: &D, replay: &mut Replay, entry: &Entry) -> Result<bool, AllocError>
    requires keeps { KeepsLengths (D.rules by.now) }
    ensures taken { IfOk result (λ b. b ≡ true → (before : List Entry) → IsLeftBy (D.rules by.now) before replay.old → IsLeftBy (D.rules by.now) (before ++ entry.now ∷ []) replay.new) }
    ensures refused { IfOk result (λ b. b ≡ false → (before : List Entry) → IsLeftBy (D.rules by.now) before replay.old → CannotFollow (D.rules by.now) (before ++ entry.now ∷ [])) }
{
    if begins_too_many(&entry.kind) {
        Ok(false)
    } else {
        let taken = take_deposited(by, replay, entry)?;
        Ok(taken)
    }
}

/// The same, once it is known that it takes no memory for more slots than a member may have.
fn take_deposited<D: Describe>(
    by: &D,
    replay: &mut Replay,
    entry: &Entry,
) -> Result<bool, AllocError>
    requires keeps { KeepsLengths (D.rules by.now) }
    ensures taken { IfOk result (λ b. b ≡ true → (before : List Entry) → IsLeftBy (D.rules by.now) before replay.old → IsLeftBy (D.rules by.now) (before ++ entry.now ∷ []) replay.new) }
    ensures refused { IfOk result (λ b. b ≡ false → (before : List Entry) → IsLeftBy (D.rules by.now) before replay.old → CannotFollow (D.rules by.now) (before ++ entry.now ∷ [])) }
{
    if may_be_deposited(replay, entry) {
        let taken = take_judged(by, replay, entry)?;
        Ok(taken)
    } else {
        Ok(false)
    }
}

/// The same, once it is known that libraries deposit such an entry.
fn take_judged<D: Describe>(by: &D, replay: &mut Replay, entry: &Entry) -> Result<bool, AllocError>
    requires keeps { KeepsLengths (D.rules by.now) }
    requires deposited { may_be_deposited (catalogue_in replay.old) entry.now ≡ true }
    ensures taken { IfOk result (λ b. b ≡ true → (before : List Entry) → IsLeftBy (D.rules by.now) before replay.old → IsLeftBy (D.rules by.now) (before ++ entry.now ∷ []) replay.new) }
    ensures refused { IfOk result (λ b. b ≡ false → (before : List Entry) → IsLeftBy (D.rules by.now) before replay.old → CannotFollow (D.rules by.now) (before ++ entry.now ∷ [])) }
{
    let follows = replay.step(by, entry)?;
    if follows {
        let fits = fits_named(by, replay, entry.member)?;
        Ok(fits)
    } else {
        Ok(false)
    }
}

/// What is told of the entry of this sequence, which can't follow: where it stands.
fn damage_at<S: Store>(alloc: Global, store: &mut S, book: &Book, sequence: u64) -> LogFault
    requires held { S.tells → IsHeld book.now (S.disk store.old) }
    requires forced { book.now.waiting ≡ 0 }
    ensures stays { Stays (S.disk store.old) (S.disk store.new) }
    ensures cause { result ≡ LogFault.StoreFault → Rose (S.disk store.old).faults (S.disk store.new).faults }
{
    let bounds = book.bounds();
    if sequence < bounds.0 || sequence > bounds.1 {
        return LogFault::Damaged {
            area: FIRST_AREA,
            at: 0,
        };
    }
    match book.place(alloc, store, sequence) {
        Ok(place) => LogFault::Damaged {
            area: place.0,
            at: place.1,
        },
        Err(BookFault::StoreFault) => LogFault::StoreFault,
        Err(BookFault::NoMemory) => LogFault::NoMemory,
        Err(BookFault::BlockChanged { area, at, .. }) => LogFault::Damaged { area, at },
        Err(BookFault::NoSuchEntry) => LogFault::StoreFault, // its place is there
        Err(BookFault::ReceiverGone { .. }) => LogFault::StoreFault, // nor is it gone
    }
}
