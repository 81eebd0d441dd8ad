//! What a request reads of the journal, before anything is done. `answering.rt` does the request then.
ghost use Rattle.std.specs.Prelude.{◌≡◌, ◌+◌, ◌-◌, ◌≤◌, ◌<◌, ◌^◌, ℕ, None, List, [], length, IfErr, IfOk, IfSome, IsErr, IsErrOf, OnOk};
ghost use Rattle.std.specs.List.{AllByRecursion};
ghost use Rattle.store_model.specs.Faults.{Rose};
ghost use Rattle.record_changes.specs.Told.{IsTold};
ghost use Rattle.entry_codec.specs.declared.entries.Entry.{Entry};
ghost use Rattle.store_model.specs.Disk.{Stays};
ghost use Rattle.library_steps.specs.State.{State, memory_of};
ghost use Rattle.kept_library.specs.Journaled.{IsRemembered};
ghost use Rattle.journal_book.specs.Book.{Holds, IsHeld, last_of};
ghost use Rattle.journal_book.specs.Reads.{between};
ghost use Rattle.block_cache.specs.Cached.{AreStretches};
ghost use Rattle.journal_model.specs.Journal.{AreNumbered};
ghost use Rattle.journal_reads.specs.Stretches.{entries_from};
ghost use Rattle.library_core.specs.Reads.{HasRead};

use crate::told::is_told;
use block_cache::BlockCache;
use commitment_requests::library_parts::Contents;
use entry_codec::Entry;
use journal_book::BookFault;
use journal_reads::Stretch;
use journal_requests::display_wanted;
use kept_journal::KeptJournal;
use library_model::requests::{JournaledChanges, Request};
use range_requests::{RangeWanted, breaks, range_wanted};
use store_model::Store;

/// So many entries are read at once where a member's last break is looked for.
const PIECE: u64 = 1_000;

/// Why nothing was read.
#[derive(Clone, Copy)]
pub(crate) enum ReadFault {
    NoMemory,
    /// The store failed.
    StoreFault,
    /// The block that begins with this sequence isn't read back as the entries that were deposited, over a store that tells nothing of its bytes.
    BlockChanged { sequence: u64 },
}

/// Nothing was read.
pub(crate) fn nothing_read(contents: &Contents) -> Stretch
    ensures { result ≡ entries_from (contents.now.state.gone + 1) [] }
{
    let (first, _) = contents.bounds();
    Stretch::new(first, Vec::new(contents.alloc())).unwrap()
}

/// What DSPJRN, APYJRNCHG or RMVJRNCHG reads.
pub(crate) fn read_stretch<S: Store>(
    contents: &Contents,
    journal: &KeptJournal,
    cache: &mut BlockCache,
    store: &mut S,
    request: &Request,
) -> Result<Stretch, ReadFault>
    requires kept { (s : State) × IsRemembered S.tells (S.disk store.old) journal.now contents.now.state s }
    requires cached { S.tells → (all : List Entry) → Holds journal.now all (S.disk store.old) → AreStretches journal.now.first all cache.old }
    ensures read { (s : State) → IsRemembered S.tells (S.disk store.old) journal.now contents.now.state s → HasRead S.tells s result }
    ensures stays { Stays (S.disk store.old) (S.disk store.new) }
    ensures cause { IsErrOf result ReadFault.StoreFault → Rose (S.disk store.old).faults (S.disk store.new).faults }
    ensures untold { (sequence : ℕ) → IsErrOf result (ReadFault.BlockChanged sequence) → S.tells → ⊥ }
    ensures cached { S.tells → (all : List Entry) → Holds journal.now all (S.disk store.new) → AreStretches journal.now.first all cache.new }
{
    match request {
        Request::DisplayJournal(args) => match display_wanted(contents, args) {
            Some((from, to)) => read_between(contents, journal, cache, store, from, to),
            None => Ok(nothing_read(contents)),
        },
        Request::ApplyChanges(args) | Request::RemoveChanges(args) => {
            match wanted_of(contents, request, args) {
                Some(wanted) => read_range(contents, journal, cache, store, wanted),
                None => Ok(nothing_read(contents)),
            }
        }
        _ => Ok(nothing_read(contents)),
    }
}

/// What a range wants of the journal. RMVJRNCHG names it from its end back.
fn wanted_of(
    contents: &Contents,
    request: &Request,
    args: &JournaledChanges,
) -> Option<RangeWanted> {
    let wanted = range_wanted(contents, args)?;
    match request {
        Request::RemoveChanges(_) => Some(RangeWanted {
            member: wanted.member,
            from: wanted.to,
            to: wanted.from,
        }),
        _ => Some(wanted),
    }
}

/// The entries of these sequences, which are kept.
fn read_between<S: Store>(
    contents: &Contents,
    journal: &KeptJournal,
    cache: &mut BlockCache,
    store: &mut S,
    from: u64,
    to: u64,
) -> Result<Stretch, ReadFault>
    requires kept { (s : State) × IsRemembered S.tells (S.disk store.old) journal.now contents.now.state s }
    requires first { contents.now.state.gone + 1 ≤ from }
    requires order { from ≤ to }
    requires last { to ≤ (memory_of contents.now.state).last_entry }
    requires few { to + 1 < 2 ^ 64 }
    requires cached { S.tells → (all : List Entry) → Holds journal.now all (S.disk store.old) → AreStretches journal.now.first all cache.old }
    ensures read { (s : State) → IsRemembered S.tells (S.disk store.old) journal.now contents.now.state s → HasRead S.tells s result }
    ensures stays { Stays (S.disk store.old) (S.disk store.new) }
    ensures cause { IsErrOf result ReadFault.StoreFault → Rose (S.disk store.old).faults (S.disk store.new).faults }
    ensures untold { (sequence : ℕ) → IsErrOf result (ReadFault.BlockChanged sequence) → S.tells → ⊥ }
    ensures cached { S.tells → (all : List Entry) → Holds journal.now all (S.disk store.new) → AreStretches journal.now.first all cache.new }
{
    match entries_between(contents, journal, cache, store, from, to) {
        Ok(entries) => stretch_read(contents, journal, from, to, entries),
        Err(fault) => Err(fault_of(fault)),
    }
}

/// The entries of these sequences, through the cache.
fn entries_between<S: Store>(
    contents: &Contents,
    journal: &KeptJournal,
    cache: &mut BlockCache,
    store: &mut S,
    from: u64,
    to: u64,
) -> Result<Vec<Entry>, BookFault>
    requires held { S.tells → IsHeld journal.now (S.disk store.old) }
    requires cached { S.tells → (all : List Entry) → Holds journal.now all (S.disk store.old) → AreStretches journal.now.first all cache.old }
    ensures entries { IfOk result (λ found. S.tells → (all : List Entry) → Holds journal.now all (S.disk store.old) → found.items ≡ between journal.now.first from to all) }
    ensures there { from ≤ to → 1 ≤ from → to ≤ last_of journal.now → IsErrOf result BookFault.NoSuchEntry → ⊥ }
    ensures kept { journal.now.first ≤ from → (sequence : ℕ) → IsErrOf result (BookFault.ReceiverGone sequence) → ⊥ }
    ensures whole { (sequence area at : ℕ) → IsErrOf result (BookFault.BlockChanged sequence area at) → S.tells → ⊥ }
    ensures stays { Stays (S.disk store.old) (S.disk store.new) }
    ensures cause { IsErrOf result BookFault.StoreFault → Rose (S.disk store.old).faults (S.disk store.new).faults }
    ensures cached { S.tells → (all : List Entry) → Holds journal.now all (S.disk store.new) → AreStretches journal.now.first all cache.new }
{
    cache.entries(contents.alloc(), store, journal.book(), from, to)
}

/// The stretch of what was read of these sequences, where it may be so; else the block of an entry that may not.
fn stretch_read(
    contents: &Contents,
    journal: &KeptJournal,
    from: u64,
    to: u64,
    entries: Vec<Entry>,
) -> Result<Stretch, ReadFault>
    requires first { journal.now.first ≤ from }
    requires order { from ≤ to }
    requires few { to + 1 < 2 ^ 64 }
    ensures stretch { IfOk result (λ stretch. stretch ≡ entries_from from entries.items) }
    ensures long { OnOk result (length entries.items ≡ to + 1 - from) }
    ensures numbered { OnOk result (AreNumbered from entries.items) }
    ensures told { OnOk result (AllByRecursion (IsTold contents.now.state.files) entries.items) }
    ensures other { IsErr result → length entries.items ≡ to + 1 - from → AreNumbered from entries.items → AllByRecursion (IsTold contents.now.state.files) entries.items → ⊥ }
    ensures changed { IsErrOf result ReadFault.StoreFault → ⊥ }
{
    match judged(contents, from, to, entries) {
        Ok(stretch) => Ok(stretch),
        Err(sequence) => Err(ReadFault::BlockChanged {
            sequence: journal.block_of(sequence),
        }),
    }
}

/// Why nothing was read, where the sequences are there.
fn fault_of(fault: BookFault) -> ReadFault
    ensures memory { fault ≡ BookFault.NoMemory → result ≡ ReadFault.NoMemory }
    ensures changed { (sequence area at : ℕ) → fault ≡ BookFault.BlockChanged sequence area at → result ≡ ReadFault.BlockChanged sequence }
    ensures unread { (sequence : ℕ) → result ≡ ReadFault.BlockChanged sequence → (area : ℕ) × (at : ℕ) × (fault ≡ BookFault.BlockChanged sequence area at) }
{
    match fault {
        BookFault::NoMemory => ReadFault::NoMemory,
        BookFault::BlockChanged { sequence, .. } => ReadFault::BlockChanged { sequence },
        BookFault::NoSuchEntry | BookFault::ReceiverGone { .. } | BookFault::StoreFault => {
            ReadFault::StoreFault
        }
    }
}

/// What was read of these sequences, where it may be so: as many entries, with their numbers, that tell of records of their files; else the sequence of one
/// that doesn't. What a store that tells of its bytes gives always is.
fn judged(contents: &Contents, from: u64, to: u64, entries: Vec<Entry>) -> Result<Stretch, u64>
    requires order { from ≤ to }
    requires few { to + 1 < 2 ^ 64 }
    ensures stretch { IfOk result (λ stretch. stretch ≡ entries_from from entries.items) }
    ensures long { OnOk result (length entries.items ≡ to + 1 - from) }
    ensures numbered { OnOk result (AreNumbered from entries.items) }
    ensures told { OnOk result (AllByRecursion (IsTold contents.now.state.files) entries.items) }
    ensures other { IsErr result → length entries.items ≡ to + 1 - from → AreNumbered from entries.items → AllByRecursion (IsTold contents.now.state.files) entries.items → ⊥ }
    ensures least { IfErr result (λ sequence. from ≤ sequence) }
{
    if entries.len() as u64 != to - from + 1 {
        return Err(from);
    }
    match first_untold(contents, entries.as_slice()) {
        Some(at) => Err(from + at as u64),
        None => Stretch::new(from, entries).ok_or(from),
    }
}

/// The place of the first entry that names a member which a file has and doesn't tell of records of that file, at places that they may have.
fn first_untold(contents: &Contents, entries: &[Entry]) -> Option<usize>
    ensures told { result ≡ None → AllByRecursion (IsTold contents.now.state.files) entries.now }
    ensures other { IfSome result (λ at. AllByRecursion (IsTold contents.now.state.files) entries.now → ⊥) }
    ensures there { IfSome result (λ at. at < length entries.now) }
{
    let mut rest = entries;
    while let [entry, more @ ..] = rest {
        if !is_told(contents, entry) {
            return Some(entries.len() - rest.len());
        }
        rest = more;
    }
    None
}

/// What APYJRNCHG or RMVJRNCHG reads: its range with the entry before it, or from a last break of the member on, which is looked for from the journal's end.
fn read_range<S: Store>(
    contents: &Contents,
    journal: &KeptJournal,
    cache: &mut BlockCache,
    store: &mut S,
    wanted: RangeWanted,
) -> Result<Stretch, ReadFault>
    requires kept { (s : State) × IsRemembered S.tells (S.disk store.old) journal.now contents.now.state s }
    requires cached { S.tells → (all : List Entry) → Holds journal.now all (S.disk store.old) → AreStretches journal.now.first all cache.old }
    ensures read { (s : State) → IsRemembered S.tells (S.disk store.old) journal.now contents.now.state s → HasRead S.tells s result }
    ensures stays { Stays (S.disk store.old) (S.disk store.new) }
    ensures cause { IsErrOf result ReadFault.StoreFault → Rose (S.disk store.old).faults (S.disk store.new).faults }
    ensures untold { (sequence : ℕ) → IsErrOf result (ReadFault.BlockChanged sequence) → S.tells → ⊥ }
    ensures cached { S.tells → (all : List Entry) → Holds journal.now all (S.disk store.new) → AreStretches journal.now.first all cache.new }
{
    let (kept, last) = contents.bounds();
    if last < kept {
        return Ok(nothing_read(contents));
    }
    match (wanted.from, wanted.to) {
        (Some(from), Some(to)) => {
            if from < kept || to < from || last < to {
                return Ok(nothing_read(contents));
            }
            let begin = if from == kept { kept } else { from - 1 };
            read_between(contents, journal, cache, store, begin, to)
        }
        _ => {
            let begin = break_before(contents, journal, cache, store, wanted.member, kept, last)?;
            let begin = match wanted.from {
                Some(from) if kept < from && from - 1 < begin => from - 1,
                _ => begin,
            };
            read_between(contents, journal, cache, store, begin, last)
        }
    }
}

/// The sequence before which no break of the member has to be looked for: that of the first of a piece that has one, or the first that is kept.
fn break_before<S: Store>(
    contents: &Contents,
    journal: &KeptJournal,
    cache: &mut BlockCache,
    store: &mut S,
    member: u32,
    kept: u64,
    last: u64,
) -> Result<u64, ReadFault>
    requires remembered { (s : State) × IsRemembered S.tells (S.disk store.old) journal.now contents.now.state s }
    requires first { contents.now.state.gone + 1 ≤ kept }
    requires order { kept ≤ last }
    requires end { last ≤ (memory_of contents.now.state).last_entry }
    requires few { last + 1 < 2 ^ 64 }
    requires cached { S.tells → (all : List Entry) → Holds journal.now all (S.disk store.old) → AreStretches journal.now.first all cache.old }
    ensures first { IfOk result (λ begin. kept ≤ begin × begin ≤ last) }
    ensures stays { Stays (S.disk store.old) (S.disk store.new) }
    ensures cause { IsErrOf result ReadFault.StoreFault → Rose (S.disk store.old).faults (S.disk store.new).faults }
    ensures untold { (sequence : ℕ) → IsErrOf result (ReadFault.BlockChanged sequence) → S.tells → ⊥ }
    ensures cached { S.tells → (all : List Entry) → Holds journal.now all (S.disk store.new) → AreStretches journal.now.first all cache.new }
{
    let mut begin = last + 1;
    while kept < begin {
        let end = begin - 1;
        begin = if end - kept < PIECE {
            kept
        } else {
            end - (PIECE - 1)
        };
        let stretch = read_between(contents, journal, cache, store, begin, end)?;
        if has_break(stretch.entries(), member) {
            return Ok(begin);
        }
    }
    Ok(begin)
}

/// Whether one of the entries is a break of the member.
fn has_break(entries: &[Entry], member: u32) -> bool {
    let mut rest = entries;
    while let [entry, more @ ..] = rest {
        if breaks(entry, member) {
            return true;
        }
        rest = more;
    }
    false
}
