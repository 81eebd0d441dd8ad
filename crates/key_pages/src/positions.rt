//! Where a read begins, and on which side of it an entry lies. `search.rt` looks for the nearest entry.

ghost use Rattle.std.specs.Prelude.{◌≡◌, ◌+◌, ◌||◌, if◌then◌else◌};
ghost use Rattle.std.specs.declared.cmp.Ordering.TheVariants.{Less, Greater};
ghost use Rattle.std.specs.Ordering.{is_lt, is_le};
ghost use Rattle.key_pages.specs.Position.{is_less, begins_with, side_of};

use crate::counting::Steps;
use crate::entries::{self, Entry};
use std::cmp::Ordering;
use std::sync::ledger::Ledger;

/// A place between or on the entries of a list. It borrows its key, and takes no memory.
#[derive(Clone, Copy)]
pub enum Position<'a> {
    /// Before all entries.
    Start,

    /// Past all entries.
    End,

    /// On the place of an entry, which need not be in the list.
    On {
        key: &'a [u8],
        format: u16,
        rrn: u32,
    },

    /// Before each entry whose key begins with this partial key or is greater.
    Before(&'a [u8]),

    /// Past each entry whose key begins with this partial key or is less.
    Past(&'a [u8]),
}

/// One comparison, which is the only one that a search has, and one step.
pub(crate) fn side<L: Ledger>(
    from: &Position<'_>,
    entry: &Entry,
    falling: bool,
    steps: &mut Steps<L>,
) -> Ordering
    ensures side { result ≡ side_of falling from.now entry.now }
    ensures cost { steps.new ≡ steps.old + 1 }
{
    steps.tick();
    match *from {
        Position::Start => Ordering::Greater,
        Position::End => Ordering::Less,
        Position::On { key, format, rrn } => entries::compare(entry, key, format, rrn, falling),
        Position::Before(part) => between(compare_part(entry.key.as_bytes(), part).is_lt()),
        Position::Past(part) => between(compare_part(entry.key.as_bytes(), part).is_le()),
    }
}

// The side of an entry that can't be on the position.
fn between(before: bool) -> Ordering
    ensures { result ≡ (if before then Less else Greater) }
{
    if before {
        Ordering::Less
    } else {
        Ordering::Greater
    }
}

// The key, cut to the length of the partial key, against it: `Equal` where it begins with it.
fn compare_part(key: &[u8], part: &[u8]) -> Ordering
    ensures less { is_lt result ≡ is_less key.now part.now }
    ensures upto { is_le result ≡ (is_less key.now part.now || begins_with key.now part.now) }
{
    let length = key.len().min(part.len());
    (&key[..length]).cmp(&part)
}
