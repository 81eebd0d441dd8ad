//! Entries of a journal that follow each other, and the parts of them that requests read.
ghost use Rattle.std.specs.Prelude.{◌≡◌, ℕ, ◌+◌, ◌-◌, ◌<◌, ◌≤◌, ◌^◌, true, false, Some, None, IfSome, IsSome, List, length, take, drop};
ghost use Rattle.entry_codec.specs.declared.entries.Entry.{Entry};
ghost use Rattle.journal_model.specs.Acts.{entry_before};
ghost use Rattle.journal_model.specs.Journal.{AreNumbered};
ghost use Rattle.journal_reads.specs.Stretches.{IsStretchOf, entries_from};

use entry_codec::Entry;
use std::marker::Model;

/// Entries of a journal that were read: those from a sequence on, without a gap.
#[derive(Drop)]
pub struct Stretch {
    first: u64,
    entries: Vec<Entry>,
}

impl Model for Stretch {
    ghost use Rattle.std.specs.Prelude.{◌+◌, ◌<◌, ◌^◌, length};
    ghost use Rattle.journal_model.specs.Journal.{AreNumbered};
    ghost use Rattle.journal_reads.specs.Stretches.{EntriesFrom, entries_from};

    ghost Value = { EntriesFrom };

    ghost view = { λ s. entries_from s.first s.entries.items };

    ghost invariant = { λ s. AreNumbered s.first s.entries.items × (s.first + length s.entries.items < 2 ^ 64) };
}

impl Stretch {
    /// Those from this sequence on, where they are numbered so.
    pub fn new(first: u64, entries: Vec<Entry>) -> Option<Stretch>
        ensures holds { IfSome result (λ s. s ≡ entries_from first entries.items) }
        ensures serves { AreNumbered first entries.items → first + length entries.items < 2 ^ 64 → IsSome result }
    {
        if entries.len() as u64 > u64::MAX - first {
            return None;
        }
        if !are_numbered(first, entries.as_slice()) {
            return None;
        }
        Some(Stretch { first, entries })
    }

    /// The sequence of the first entry, or that of the next one where there is none.
    pub fn first(&self) -> u64
        ensures first { result ≡ self.now.first }
        ensures fits { self.now.first + length self.now.entries < 2 ^ 64 }
    {
        self.first
    }

    /// All of them.
    pub fn entries(&self) -> &[Entry]
        ensures { result.now ≡ self.now.entries }
    {
        self.entries.as_slice()
    }

    /// Whether the last one has this sequence; where there is none, whether it is the one before the first.
    pub fn reaches(&self, last: u64) -> bool
        ensures reached { result ≡ true → self.now.first + length self.now.entries ≡ last + 1 }
        ensures short { result ≡ false → self.now.first + length self.now.entries ≡ last + 1 → ⊥ }
    {
        let next = self.first + self.entries.len() as u64;
        next > last && next - last == 1
    }

    /// The entries from a sequence up to another, where all of them were read.
    pub fn between(&self, from: u64, to: u64) -> Option<&[Entry]>
        ensures read { (kept : ℕ) → (read : List Entry) → IsStretchOf kept read self.now → IfSome result (λ shown. shown.now ≡ take (to + 1 - from) (drop (from - kept) read)) }
        ensures some { IfSome result (λ shown. 0 < length shown.now) }
        ensures numbered { IfSome result (λ shown. AreNumbered from shown.now) }
        ensures serves { self.now.first ≤ from → from ≤ to → to < self.now.first + length self.now.entries → IsSome result }
    {
        if from < self.first || to < from {
            return None;
        }
        if to - self.first >= self.entries.len() as u64 {
            return None;
        }
        let begin = (from - self.first) as usize;
        let count = (to - from) as usize + 1;
        Some(&self.entries.as_slice()[begin..begin + count])
    }

    /// The entry before a sequence, where it was read.
    pub fn before(&self, sequence: u64) -> Option<&Entry>
        ensures read { (kept : ℕ) → (read : List Entry) → IsStretchOf kept read self.now → IfSome result (λ entry. Some entry.now ≡ entry_before None (take (sequence - kept) read)) }
        ensures serves { self.now.first < sequence → sequence ≤ self.now.first + length self.now.entries → IsSome result }
    {
        if sequence <= self.first {
            return None;
        }
        let behind = sequence - self.first;
        if behind > self.entries.len() as u64 {
            return None;
        }
        Some(&self.entries.as_slice()[behind as usize - 1])
    }
}

/// Whether the entries have the sequences from this one on.
fn are_numbered(first: u64, entries: &[Entry]) -> bool
    requires { first + length entries.now < 2 ^ 64 }
    ensures numbered { result ≡ true → AreNumbered first entries.now }
    ensures gap { result ≡ false → AreNumbered first entries.now → ⊥ }
{
    let mut next = first;
    let mut rest = entries;
    while let [entry, more @ ..] = rest {
        if entry.sequence != next {
            return false;
        }
        next += 1;
        rest = more;
    }
    true
}
