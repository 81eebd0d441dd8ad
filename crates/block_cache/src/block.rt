//! A block of the journal, decoded.
ghost use Rattle.std.specs.Prelude.{◌≡◌, ◌+◌, ◌<◌, ◌≤◌, IfOk, IsTrue, ◌↔◌, MatchOption, length};
ghost use Rattle.journal_model.specs.Journal.{AreNumbered};
ghost use Rattle.block_cache.specs.Cached.{has_entry};
ghost use Rattle.block_cache.specs.Sizes.{block_bytes};
ghost use Rattle.block_cache.specs.Walks.{IsCopied, IsWhole};

use crate::copies::copy_between;
use crate::limits::MOST_BYTES;
use crate::sizes::are_long;
use entry_codec::Entry;
use journal_book::BlockBounds;
use std::alloc::{AllocError, Global};
use std::marker::Model;

/// The entries of a block, one behind the other.
#[derive(Drop)]
pub struct Block {
    /// The sequence of the first one.
    first: u64,
    entries: Vec<Entry>,
}

impl Model for Block {
    ghost use Rattle.std.specs.Prelude.{List};
    ghost use Rattle.entry_codec.specs.declared.entries.Entry.{Entry};
    ghost use Rattle.journal_model.specs.Journal.{AreNumbered};

    ghost Value = { List Entry };

    ghost view = { λ b. b.entries.items };

    ghost invariant = { λ b. AreNumbered b.first b.entries.items };
}

impl Block {
    /// The block of these entries; `None` where they aren't those with these bounds.
    pub fn of(entries: Vec<Entry>, bounds: BlockBounds) -> Option<Block>
        requires { 1 ≤ bounds.first }
        ensures { MatchOption result (IsWhole bounds.first bounds.last entries.items → ⊥) (λ block. (block ≡ entries.items) × IsWhole bounds.first bounds.last entries.items) }
    {
        if !are_whole(&entries, bounds) {
            return None;
        }
        Some(Block {
            first: bounds.first,
            entries,
        })
    }

    /// Whether an entry has this sequence.
    pub fn has(&self, sequence: u64) -> bool
        ensures { result ≡ has_entry sequence self.now }
    {
        is_within(&self.entries, self.first, sequence)
    }

    /// Whether the entries have more bytes than those of a block that is kept.
    pub fn is_long(&self) -> bool
        ensures { IsTrue result ↔ (MOST_BYTES < block_bytes self.now) }
    {
        are_long(&self.entries)
    }

    /// Copies the entries from one sequence up to another, as far as the block has them. Gives the last one.
    pub fn copy(
        &self,
        alloc: Global,
        lo: u64,
        hi: u64,
        found: &mut Vec<Entry>,
    ) -> Result<u64, AllocError>
        requires has { IsTrue (has_entry lo self.now) }
        requires some { lo ≤ hi }
        ensures { IfOk result (λ reached. IsCopied self.now lo hi found.old.items found.new.items reached) }
    {
        let reached = copy_between(alloc, &self.entries, self.first, lo, hi, found)?;
        Ok(reached)
    }
}

/// Whether the entries are those with these bounds, one behind the other.
fn are_whole(entries: &[Entry], bounds: BlockBounds) -> bool
    requires { 1 ≤ bounds.first }
    ensures { IsTrue result ↔ IsWhole bounds.first bounds.last entries.now }
{
    let Some(reached) = numbered_to(entries, bounds.first - 1) else {
        return false;
    };
    reached == bounds.last
}

/// Whether a sequence is one of those of the entries, which begin with another.
fn is_within(entries: &[Entry], first: u64, sequence: u64) -> bool
    ensures { IsTrue result ↔ ((first ≤ sequence) × (sequence < first + length entries.now)) }
{
    sequence >= first && sequence - first < entries.len() as u64
}

/// The last sequence of entries that follow this one; `None` where they don't.
fn numbered_to(entries: &[Entry], last: u64) -> Option<u64>
    ensures { MatchOption result (AreNumbered (last + 1) entries.now → ⊥) (λ reached. AreNumbered (last + 1) entries.now × (reached ≡ last + length entries.now)) }
{
    let mut reached = last;
    let mut rest = entries;
    while let [entry, more @ ..] = rest {
        if !follows(reached, entry.sequence) {
            return None;
        }
        reached = entry.sequence;
        rest = more;
    }
    Some(reached)
}

/// Whether one sequence comes directly behind another.
fn follows(last: u64, sequence: u64) -> bool
    ensures { IsTrue result ↔ (sequence ≡ last + 1) }
{
    sequence > last && sequence - last == 1
}
