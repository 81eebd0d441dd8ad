//! Whether a block is what may stand at its place in a receiver. `opening.rt` reads the blocks.
ghost use Rattle.std.specs.Prelude.{◌≡◌, ◌+◌, ◌<◌, ◌≤◌, ◌^◌, ◌↔◌, ℕ, length, drop, IfOk, IfSome, IsTrue, MatchOption};
ghost use Rattle.entry_codec.specs.Spelling.{Begins};
ghost use Rattle.receiver_chain.specs.Links.{IsStart};
ghost use Rattle.journal_book.specs.Entries.{IsInside};
ghost use Rattle.journal_book.specs.Bodies.{HasNoNext, IsNext, IsReadAs, ties};

use crate::blocks::follows;
use entry_codec::{Entry, EntryKind, read_entry};
use std::alloc::{AllocError, Global};

/// What a block was read as.
#[derive(Clone, Copy)]
pub enum Reading {
    /// The last sequence of its entries, that before them where it has none.
    Last(u64),
    /// Where in it stands what may not stand there.
    Fault(usize),
}

/// Reads a block whose entries tie no receivers, and follow this sequence.
pub fn read_body(alloc: Global, block: &[u8], last: u64) -> Result<Reading, AllocError>
    ensures { IfOk result (λ reading. IsReadAs block.now last reading) }
{
    let mut at = 0;
    let mut reached = last;
    while at < block.len() {
        let Some(count) = next_length(alloc, &block[at..], reached)? else {
            return Ok(Reading::Fault(at));
        };
        at += count;
        reached += 1;
    }
    Ok(Reading::Last(reached))
}

/// How many bytes the entry at the front of these takes, if it may come next.
fn next_length(alloc: Global, bytes: &[u8], last: u64) -> Result<Option<usize>, AllocError>
    ensures next { IfOk result (λ found. MatchOption found (HasNoNext last bytes.now) (λ count. IsNext last bytes.now count)) }
    ensures within { IfOk result (λ found. IfSome found (λ count. (1 ≤ count) × (count ≤ length bytes.now))) }
    ensures fits { IfOk result (λ found. IfSome found (λ _. last + 1 < 2 ^ 64)) }
{
    let Some((entry, count)) = read_entry(alloc, bytes)? else {
        return Ok(None);
    };
    let found = if_next(&entry, count, bytes, last);
    Ok(found)
}

/// The same, where this entry stands at the front of the bytes and takes so many of them.
fn if_next(entry: &Entry, count: usize, bytes: &[u8], last: u64) -> Option<usize>
    requires front { Begins bytes.now entry.now count }
    ensures next { MatchOption result (HasNoNext last bytes.now) (λ found. IsNext last bytes.now found) }
    ensures within { IfSome result (λ found. (1 ≤ found) × (found ≤ length bytes.now)) }
    ensures fits { IfSome result (λ _. last + 1 < 2 ^ 64) }
{
    if ties_receivers(&entry.kind) {
        return None;
    }
    if follows(last, entry.sequence) {
        Some(count)
    } else {
        None
    }
}

/// Whether a block is the one entry by which a receiver begins, which follows this sequence.
pub fn begins(alloc: Global, block: &[u8], previous: u32, last: u64) -> Result<bool, AllocError>
    ensures start { IfOk result (λ found. IsTrue found ↔ IsStart previous (last + 1) block.now) }
    ensures fits { IfOk result (λ found. IsTrue found → last + 1 < 2 ^ 64) }
{
    let Some((entry, count)) = read_entry(alloc, block)? else {
        return Ok(false);
    };
    let found = begins_by(&entry, count, block, previous, last);
    Ok(found)
}

/// The same, where this entry stands at the front of the block and takes so many of its bytes.
fn begins_by(entry: &Entry, count: usize, block: &[u8], previous: u32, last: u64) -> bool
    requires front { Begins block.now entry.now count }
    ensures start { IsTrue result ↔ IsStart previous (last + 1) block.now }
    ensures fits { IsTrue result → last + 1 < 2 ^ 64 }
{
    if count != block.len() {
        return false;
    }
    let EntryKind::PreviousReceiver { number } = entry.kind else {
        return false;
    };
    if number != previous {
        return false;
    }
    follows(last, entry.sequence)
}

/// Whether an entry of this kind ties receivers.
fn ties_receivers(kind: &EntryKind) -> bool
    ensures { result ≡ ties kind.now }
{
    match kind {
        EntryKind::NextReceiver { .. } | EntryKind::PreviousReceiver { .. } => true,
        EntryKind::FileCreated { .. }
        | EntryKind::FileDeleted { .. }
        | EntryKind::MemberAdded { .. }
        | EntryKind::JournalingStarted { .. }
        | EntryKind::InitialSlot { .. }
        | EntryKind::JournalingEnded
        | EntryKind::MemberCleared
        | EntryKind::MemberReorganized
        | EntryKind::ChangesApplied { .. }
        | EntryKind::ChangesRemoved { .. }
        | EntryKind::RecordAdded { .. }
        | EntryKind::RecordAddedAtNumber { .. }
        | EntryKind::BeforeImage { .. }
        | EntryKind::AfterImage { .. }
        | EntryKind::RecordDeleted { .. }
        | EntryKind::UndoBeforeImage { .. }
        | EntryKind::UndoAfterImage { .. }
        | EntryKind::UndoDelete { .. }
        | EntryKind::CommitmentStarted { .. }
        | EntryKind::CommitCycleStarted
        | EntryKind::CommitCycleCommitted
        | EntryKind::CommitCycleRolledBack
        | EntryKind::CommitmentEnded
        | EntryKind::AbnormalEnd => false,
    }
}
