//! Copies of entries, by their sequences.
ghost use Rattle.std.specs.Prelude.{◌≡◌, ◌+◌, ◌<◌, ◌≤◌, ◌++◌, length, take, drop, IfOk, OnOk};
ghost use Rattle.journal_book.specs.Reads.{between};

use entry_codec::Entry;
use std::alloc::{AllocError, Global};

/// Copies the entries from one sequence up to another, as far as they reach, which begin with a sequence and have one behind
/// the other. Gives the last one.
pub fn copy_between(
    alloc: Global,
    entries: &[Entry],
    first: u64,
    lo: u64,
    hi: u64,
    found: &mut Vec<Entry>,
) -> Result<u64, AllocError>
    requires from { first ≤ lo }
    requires below { lo < first + length entries.now }
    requires some { lo ≤ hi }
    ensures from { IfOk result (λ reached. lo ≤ reached) }
    ensures upto { IfOk result (λ reached. reached ≤ hi) }
    ensures within { IfOk result (λ reached. reached < first + length entries.now) }
    ensures copied { IfOk result (λ reached. found.new.items ≡ found.old.items ++ between first lo reached entries.now) }
{
    let from = lo - first;
    let behind = entries.len() as u64 - 1 - from;
    let more = fewer(hi - lo, behind);
    copy_part(alloc, entries, from as usize, more as usize + 1, found)?;
    Ok(lo + more)
}

/// The smaller number.
fn fewer(a: u64, b: u64) -> u64
    ensures first { result ≤ a }
    ensures second { result ≤ b }
{
    if a < b { a } else { b }
}

/// Copies so many entries from a place on.
fn copy_part(
    alloc: Global,
    entries: &[Entry],
    from: usize,
    count: usize,
    found: &mut Vec<Entry>,
) -> Result<(), AllocError>
    requires { from + count ≤ length entries.now }
    ensures { OnOk result (found.new.items ≡ found.old.items ++ take count (drop from entries.now)) }
{
    copy_all(alloc, &entries[from..from + count], found)?;
    Ok(())
}

/// Copies the entries.
fn copy_all(alloc: Global, entries: &[Entry], found: &mut Vec<Entry>) -> Result<(), AllocError>
    ensures { OnOk result (found.new.items ≡ found.old.items ++ entries.now) }
{
    for entry in entries {
        found.reserve(1)?;
        found.push_reserved(entry.copied(alloc)?);
    }
    Ok(())
}
