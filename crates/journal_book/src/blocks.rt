//! The entries that a block's bytes are. `ranges.rt` reads the blocks.
ghost use Rattle.std.specs.Prelude.{◌≡◌, ◌+◌, ◌≤◌, ◌++◌, ℕ, List, Some, IfOk, IfSome, MatchOption, IsTrue, ◌↔◌, length, filter};
ghost use Rattle.entry_codec.specs.declared.entries.Entry.{Entry};
ghost use Rattle.entry_codec.specs.Spelling.{IsSpelled, spelling};
ghost use Rattle.journal_model.specs.Journal.{AreNumbered};
ghost use Rattle.journal_book.specs.Entries.{IsBlock};
ghost use Rattle.journal_book.specs.Reads.{BeginsBehind, is_between};

use entry_codec::{Entry, read_entry};
use std::alloc::{AllocError, Global};

/// Sequences from the first up to the last.
#[derive(Clone, Copy)]
pub struct Range {
    pub lo: u64,
    pub hi: u64,
}

impl Range {
    /// Whether no sequence behind this one is in it.
    pub fn ends(&self, sequence: u64) -> bool
        ensures { IsTrue result ↔ (self.now.hi ≤ sequence) }
    {
        sequence >= self.hi
    }
}

/// Puts the entries of a block that are in the range behind those that were found, and gives the last sequence of the
/// block; `None` where it is no block of entries that follow this sequence.
pub fn take_entries(
    alloc: Global,
    block: &[u8],
    last: u64,
    range: Range,
    found: &mut Vec<Entry>,
) -> Result<Option<u64>, AllocError>
    ensures { (entries : List Entry) → IsBlock entries block.now → AreNumbered (last + 1) entries → IfOk result (λ taken. MatchOption taken ⊥ (λ reached. (reached ≡ last + length entries) × (found.new.items ≡ found.old.items ++ filter (is_between range.lo range.hi) entries))) }
{
    let Some(mut entries) = read_block(alloc, block)? else {
        return Ok(None);
    };
    let Some(reached) = numbered_to(&entries, last) else {
        return Ok(None);
    };
    keep_between(&mut entries, range);
    found.append(&mut entries)?;
    Ok(Some(reached))
}

/// The entries that a block is, `None` where it is none.
fn read_block(alloc: Global, block: &[u8]) -> Result<Option<Vec<Entry>>, AllocError>
    ensures { (entries : List Entry) → IsBlock entries block.now → IfOk result (λ found. MatchOption found ⊥ (λ read. read.items ≡ entries)) }
{
    let mut entries = Vec::new(alloc);
    let mut at = 0;
    while at < block.len() {
        entries.reserve(1)?;
        let Some((entry, count)) = read_front(alloc, &block[at..])? else {
            return Ok(None);
        };
        entries.push_reserved(entry);
        at += count;
    }
    Ok(Some(entries))
}

/// The entry at the front of the bytes, and how many of them it takes.
pub fn read_front(alloc: Global, bytes: &[u8]) -> Result<Option<(Entry, usize)>, AllocError>
    ensures only { (e : Entry) (rest : List ℕ) → IsSpelled e → bytes.now ≡ spelling e ++ rest → IfOk result (λ read. read ≡ Some (e, length (spelling e))) }
    ensures within { IfOk result (λ read. IfSome read (λ x. (1 ≤ x.1) × (x.1 ≤ length bytes.now))) }
{
    let read = read_entry(alloc, bytes)?;
    Ok(read)
}

/// Whether a block's first entry comes directly behind this sequence.
pub fn begins_behind(alloc: Global, block: &[u8], before: u64) -> Result<bool, AllocError>
    ensures { IfOk result (λ found. IsTrue found → (entries : List Entry) → IsBlock entries block.now → BeginsBehind before entries) }
{
    let Some((entry, _)) = read_front(alloc, block)? else {
        return Ok(false);
    };
    let found = follows(before, entry.sequence);
    Ok(found)
}

/// The last sequence of entries that follow this one; `None` where they don't.
fn numbered_to(entries: &[Entry], last: u64) -> Option<u64>
    ensures { MatchOption result (AreNumbered (last + 1) entries.now → ⊥) (λ reached. AreNumbered (last + 1) entries.now × (reached ≡ last + length entries.now)) }
{
    let mut reached = last;
    let mut rest = entries;
    while let [entry, more @ ..] = rest {
        if !follows(reached, entry.sequence) {
            return None;
        }
        reached = entry.sequence;
        rest = more;
    }
    Some(reached)
}

/// Whether one sequence comes directly behind another.
pub fn follows(last: u64, sequence: u64) -> bool
    ensures { IsTrue result ↔ (sequence ≡ last + 1) }
{
    sequence > last && sequence - last == 1
}

/// Keeps the entries that are in the range.
fn keep_between(entries: &mut Vec<Entry>, range: Range)
    ensures { entries.new.items ≡ filter (is_between range.lo range.hi) entries.old.items }
{
    entries.retain(|entry| range.lo <= entry.sequence && entry.sequence <= range.hi);
}
