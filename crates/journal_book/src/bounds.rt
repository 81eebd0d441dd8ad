//! Which sequences the block of a sequence has, as far as the book knows that without a read.
ghost use Rattle.std.specs.Prelude.{◌+◌, ◌<◌, ◌≤◌, IfSome};

use crate::book::Book;
use crate::starts::BlockStart;
use receiver_chain::Chain;

/// The first and the last sequence of a block.
#[derive(Clone, Copy)]
pub struct BlockBounds {
    pub first: u64,
    pub last: u64,
}

impl Book {
    /// The bounds of the block on the disk that has this sequence, as far as its beginning and its end are known; else this
    /// sequence alone. It reads nothing.
    pub fn block_of(&self, sequence: u64) -> BlockBounds
        requires from { self.now.first ≤ sequence }
        requires forced { sequence < self.now.first + self.now.forced }
        ensures first { result.first ≤ sequence }
        ensures last { sequence ≤ result.last }
        ensures from { self.now.first ≤ result.first }
        ensures forced { result.last < self.now.first + self.now.forced }
    {
        let end = self.next_start();
        let known = known_bounds(&self.chain, self.starts.as_slice(), end, sequence);
        let forced = BlockBounds {
            first: self.first,
            last: self.first - 1 + self.forced,
        };
        bounds_within(known, forced, sequence)
    }
}

/// The bounds, where they are known and go round the sequence, as far as they are in others that do; else the sequence
/// alone.
fn bounds_within(known: Option<BlockBounds>, others: BlockBounds, sequence: u64) -> BlockBounds
    requires from { others.first ≤ sequence }
    requires upto { sequence ≤ others.last }
    ensures first { result.first ≤ sequence }
    ensures last { sequence ≤ result.last }
    ensures from { others.first ≤ result.first }
    ensures upto { result.last ≤ others.last }
{
    let Some(bounds) = known else {
        return alone(sequence);
    };
    if bounds.first > sequence || bounds.last < sequence {
        return alone(sequence);
    }
    if bounds.first < others.first || bounds.last > others.last {
        return alone(sequence);
    }
    bounds
}

/// The sequence alone.
fn alone(sequence: u64) -> BlockBounds
    ensures first { result.first ≤ sequence }
    ensures last { sequence ≤ result.last }
    ensures from { sequence ≤ result.first }
    ensures upto { result.last ≤ sequence }
{
    BlockBounds {
        first: sequence,
        last: sequence,
    }
}

/// What the starts say of the block that begins last before this sequence, and of the one behind it, which is the end of
/// them all where there is none.
fn known_bounds(
    chain: &Chain,
    starts: &[BlockStart],
    end: BlockStart,
    sequence: u64,
) -> Option<BlockBounds> {
    let behind = starts.partition_point(|start| start.before < sequence);
    let Some(at) = behind.checked_sub(1) else {
        return None;
    };
    let Some(start) = starts.get(at) else {
        return None;
    };
    let found = match starts.get(behind) {
        Some(next) => bounds_between(chain, *start, *next),
        None => bounds_between(chain, *start, end),
    };
    found
}

/// The bounds of a block by its start and that of the next one, where no other stands between them.
fn bounds_between(chain: &Chain, start: BlockStart, next: BlockStart) -> Option<BlockBounds> {
    if start.before < next.before && is_next(chain, start, next) {
        Some(BlockBounds {
            first: start.before + 1,
            last: next.before,
        })
    } else {
        None
    }
}

/// Whether the second block comes directly behind the first.
fn is_next(chain: &Chain, start: BlockStart, next: BlockStart) -> bool {
    if next.receiver == start.receiver {
        return start.n < next.n && next.n - start.n == 1;
    }
    if next.receiver < start.receiver || next.receiver - start.receiver > 1 {
        return false;
    }
    next.n == 0 && is_last(chain, start)
}

/// Whether the block is the last one of its receiver.
fn is_last(chain: &Chain, start: BlockStart) -> bool {
    if start.receiver < chain.first() || start.receiver > chain.attached() {
        return false;
    }
    let count = chain.log(start.receiver).count();
    start.n < count && count - start.n == 1
}
