//! Opens a book: reads each block of each receiver, and trusts no byte. `grammar.rt` has what may stand in a block.
ghost use Rattle.std.specs.Prelude.{◌≡◌, ◌≢◌, ◌+◌, ◌<◌, ◌≤◌, ◌⊎◌, ◌^◌, ◌↔◌, ℕ, true, false, List, length, drop, take, IfOk, IsErrOf, IsTrue};
ghost use Rattle.store_model.specs.Disk.{Stays};
ghost use Rattle.store_model.specs.Faults.{Rose};
ghost use Rattle.entry_codec.specs.declared.entries.Entry.{Entry};
ghost use Rattle.receiver_chain.specs.declared.numbers.TheConstants.{MAX_RECEIVER};
ghost use Rattle.receiver_chain.specs.Receivers.{Kept, area_of, receiver_at};
ghost use Rattle.receiver_chain.specs.Chain.{Holds, IsHeld, attached_of, log_at};
ghost use Rattle.journal_book.specs.Book.{HasEntries};
ghost use Rattle.journal_book.specs.Entries.{IsAttached, IsEnded};
ghost use Rattle.journal_book.specs.Kept.{SpellEntries};
ghost use Rattle.journal_book.specs.Openings.{HasBodies, HasNoBodies, HasNoFront, HasNoRead, HasRead, HaveNoRead, HaveRead, IsFront};

use crate::book::{Book, empty_block};
use crate::grammar::{Reading, begins, read_body};
use crate::starts::{BlockStart, block_start, note, room_for};
use gated_log::LogFault;
use receiver_chain::{Chain, FIRST_RECEIVER};
use std::alloc::Global;
use store_model::Store;

/// The areas before that of receiver 1 hold root records and checkpoints.
const AREAS_BEFORE: u32 = 2;

/// Where the first gate of a receiver stands, behind the header.
const FIRST_GATE: u64 = 32;

/// Blocks of one receiver, up to before the last number.
#[derive(Clone, Copy)]
pub struct Stretch {
    receiver: u32,
    from: u64,
    to: u64,
}

/// Opens the journal from this receiver on. It writes nothing. All its entries are on the disk, and a stop leaves them.
pub fn open<S: Store>(alloc: Global, store: &mut S, first: u32) -> Result<Book, LogFault>
    requires { 1 ≤ first × (first ≤ MAX_RECEIVER) }
    ensures opened { IfOk result (λ book. S.tells → HasEntries book (S.disk store.new)) }
    ensures first { IfOk result (λ book. book.chain.first ≡ first) }
    ensures all_forced { IfOk result (λ book. book.waiting ≡ 0) }
    ensures damaged { (area at : ℕ) → IsErrOf result (LogFault.Damaged area at) → S.tells → area_of first ≤ area × ((entries : List Entry) → SpellEntries first entries (S.disk store.old).seen → ⊥) }
    ensures stays { Stays (S.disk store.old) (S.disk store.new) }
    ensures cause { IsErrOf result LogFault.StoreFault → Rose (S.disk store.old).faults (S.disk store.new).faults }
{
    let chain = receiver_chain::open(alloc, store, first)?;
    let first_sequence = chain.log(first).first();
    if first_sequence == 0 {
        return Err(LogFault::Damaged {
            area: AREAS_BEFORE + first,
            at: 0,
        });
    }
    let before = first_sequence - 1;
    let mut starts = room_for(alloc, &chain)?;
    let last = read_receivers(alloc, store, &chain, &mut starts, before)?;
    let begun = has_begun(&chain);
    let framed = empty_block(alloc)?;
    Ok(Book {
        chain,
        first: first_sequence,
        forced: last - before,
        waiting: 0,
        begun,
        framed,
        starts,
    })
}

/// Whether the attached receiver of a chain whose blocks were read has begun.
fn has_begun(chain: &Chain) -> bool
    ensures begun { result ≡ true → (attached_of chain.now ≡ 1) ⊎ (0 < length chain.now.attached.lengths) }
    ensures bare { result ≡ false → (attached_of chain.now ≢ 1) × (length chain.now.attached.lengths ≡ 0) }
{
    let attached = chain.attached();
    if attached == FIRST_RECEIVER {
        return true;
    }
    chain.log(attached).count() > 0
}

/// Reads all receivers, whose entries follow this sequence, and gives the last one.
fn read_receivers<S: Store>(
    alloc: Global,
    store: &mut S,
    chain: &Chain,
    starts: &mut Vec<BlockStart>,
    before: u64,
) -> Result<u64, LogFault>
    requires held { S.tells → IsHeld chain.now (S.disk store.old) }
    ensures read { IfOk result (λ reached. S.tells → (kept : Kept) → Holds chain.now kept (S.disk store.old) → HaveRead chain.now.first before kept.earlier kept.attached reached) }
    ensures above { IfOk result (λ reached. before ≤ reached) }
    ensures damaged { (area at : ℕ) → IsErrOf result (LogFault.Damaged area at) → (area_of chain.now.first ≤ area) × (S.tells → (kept : Kept) → Holds chain.now kept (S.disk store.old) → HaveNoRead chain.now.first before kept.earlier kept.attached) }
    ensures stays { Stays (S.disk store.old) (S.disk store.new) }
    ensures cause { IsErrOf result LogFault.StoreFault → Rose (S.disk store.old).faults (S.disk store.new).faults }
{
    let attached = chain.attached();
    let mut receiver = chain.first();
    let mut last = before;
    while receiver < attached {
        last = read_ended(alloc, store, chain, starts, receiver, last)?;
        receiver += 1;
    }
    let reached = read_attached(alloc, store, chain, starts, last)?;
    Ok(reached)
}

/// Reads a receiver that another follows.
fn read_ended<S: Store>(
    alloc: Global,
    store: &mut S,
    chain: &Chain,
    starts: &mut Vec<BlockStart>,
    receiver: u32,
    last: u64,
) -> Result<u64, LogFault>
    requires held { S.tells → IsHeld chain.now (S.disk store.old) }
    requires from { chain.now.first ≤ receiver }
    requires below { receiver < attached_of chain.now }
    requires most { receiver < MAX_RECEIVER }
    ensures read { IfOk result (λ reached. S.tells → (kept : Kept) → Holds chain.now kept (S.disk store.old) → HasRead (IsEnded receiver) last (receiver_at chain.now.first kept receiver).blocks reached) }
    ensures above { IfOk result (λ reached. last ≤ reached) }
    ensures damaged { (area at : ℕ) → IsErrOf result (LogFault.Damaged area at) → (area ≡ area_of receiver) × (S.tells → (kept : Kept) → Holds chain.now kept (S.disk store.old) → HasNoRead (IsEnded receiver) last (receiver_at chain.now.first kept receiver).blocks) }
    ensures stays { Stays (S.disk store.old) (S.disk store.new) }
    ensures cause { IsErrOf result LogFault.StoreFault → Rose (S.disk store.old).faults (S.disk store.new).faults }
{
    let Some(to) = chain.log(receiver).count().checked_sub(1) else {
        return Err(LogFault::Damaged {
            area: AREAS_BEFORE + receiver,
            at: FIRST_GATE,
        });
    };
    let (from, begun) = read_front(alloc, store, chain, starts, receiver, last)?;
    let stretch = Stretch { receiver, from, to };
    let reached = read_bodies(alloc, store, chain, starts, stretch, begun)?;
    note(starts, block_start(reached, receiver, to));
    if is_second(reached, chain.log(receiver + 1).first()) {
        Ok(reached + 1)
    } else {
        Err(LogFault::Damaged {
            area: AREAS_BEFORE + receiver,
            at: place_of(chain, receiver, to, 0),
        })
    }
}

/// Whether one sequence comes behind another with one between.
fn is_second(last: u64, sequence: u64) -> bool
    ensures second { IsTrue result ↔ (sequence ≡ last + 2) }
    ensures fits { IsTrue result → last + 1 < 2 ^ 64 }
{
    sequence > last && sequence - last == 2
}

/// Reads the attached receiver.
fn read_attached<S: Store>(
    alloc: Global,
    store: &mut S,
    chain: &Chain,
    starts: &mut Vec<BlockStart>,
    last: u64,
) -> Result<u64, LogFault>
    requires held { S.tells → IsHeld chain.now (S.disk store.old) }
    ensures read { IfOk result (λ reached. S.tells → (kept : Kept) → Holds chain.now kept (S.disk store.old) → HasRead (IsAttached (attached_of chain.now)) last kept.attached.blocks reached) }
    ensures above { IfOk result (λ reached. last ≤ reached) }
    ensures damaged { (area at : ℕ) → IsErrOf result (LogFault.Damaged area at) → (area ≡ area_of (attached_of chain.now)) × (S.tells → (kept : Kept) → Holds chain.now kept (S.disk store.old) → HasNoRead (IsAttached (attached_of chain.now)) last kept.attached.blocks) }
    ensures stays { Stays (S.disk store.old) (S.disk store.new) }
    ensures cause { IsErrOf result LogFault.StoreFault → Rose (S.disk store.old).faults (S.disk store.new).faults }
{
    let receiver = chain.attached();
    let to = chain.log(receiver).count();
    let (from, begun) = read_front(alloc, store, chain, starts, receiver, last)?;
    let stretch = Stretch { receiver, from, to };
    let reached = read_bodies(alloc, store, chain, starts, stretch, begun)?;
    Ok(reached)
}

/// Reads the block by which a receiver begins, where it has one: how many blocks that are, and the last sequence then.
fn read_front<S: Store>(
    alloc: Global,
    store: &mut S,
    chain: &Chain,
    starts: &mut Vec<BlockStart>,
    receiver: u32,
    last: u64,
) -> Result<(u64, u64), LogFault>
    requires held { S.tells → IsHeld chain.now (S.disk store.old) }
    requires from { chain.now.first ≤ receiver }
    requires upto { receiver ≤ attached_of chain.now }
    requires most { receiver ≤ MAX_RECEIVER }
    ensures front { IfOk result (λ front. S.tells → (kept : Kept) → Holds chain.now kept (S.disk store.old) → IsFront receiver last (receiver_at chain.now.first kept receiver).blocks front.0 front.1) }
    ensures above { IfOk result (λ front. last ≤ front.1) }
    ensures damaged { (area at : ℕ) → IsErrOf result (LogFault.Damaged area at) → (area ≡ area_of receiver) × (S.tells → (kept : Kept) → Holds chain.now kept (S.disk store.old) → HasNoFront receiver last (receiver_at chain.now.first kept receiver).blocks) }
    ensures stays { Stays (S.disk store.old) (S.disk store.new) }
    ensures cause { IsErrOf result LogFault.StoreFault → Rose (S.disk store.old).faults (S.disk store.new).faults }
{
    if receiver == FIRST_RECEIVER {
        return Ok((0, last));
    }
    if chain.log(receiver).count() == 0 {
        return Ok((0, last));
    }
    note(starts, block_start(last, receiver, 0));
    let block = chain.block(alloc, store, receiver, 0)?;
    if begins(alloc, &block, receiver.saturating_sub(1), last)? {
        Ok((1, last + 1))
    } else {
        Err(LogFault::Damaged {
            area: AREAS_BEFORE + receiver,
            at: place_of(chain, receiver, 0, 0),
        })
    }
}

/// Reads blocks whose entries tie no receivers.
fn read_bodies<S: Store>(
    alloc: Global,
    store: &mut S,
    chain: &Chain,
    starts: &mut Vec<BlockStart>,
    stretch: Stretch,
    last: u64,
) -> Result<u64, LogFault>
    requires held { S.tells → IsHeld chain.now (S.disk store.old) }
    requires from { chain.now.first ≤ stretch.receiver }
    requires upto { stretch.receiver ≤ attached_of chain.now }
    requires most { stretch.receiver ≤ MAX_RECEIVER }
    requires within { stretch.to ≤ length (log_at chain.now stretch.receiver).lengths }
    ensures read { IfOk result (λ reached. S.tells → (kept : Kept) → Holds chain.now kept (S.disk store.old) → HasBodies last (drop stretch.from (take stretch.to (receiver_at chain.now.first kept stretch.receiver).blocks)) reached) }
    ensures above { IfOk result (λ reached. last ≤ reached) }
    ensures damaged { (area at : ℕ) → IsErrOf result (LogFault.Damaged area at) → (area ≡ area_of stretch.receiver) × (S.tells → (kept : Kept) → Holds chain.now kept (S.disk store.old) → HasNoBodies last (drop stretch.from (take stretch.to (receiver_at chain.now.first kept stretch.receiver).blocks))) }
    ensures stays { Stays (S.disk store.old) (S.disk store.new) }
    ensures cause { IsErrOf result LogFault.StoreFault → Rose (S.disk store.old).faults (S.disk store.new).faults }
{
    let mut n = stretch.from;
    let mut reached = last;
    while n < stretch.to {
        note(starts, block_start(reached, stretch.receiver, n));
        let block = chain.block(alloc, store, stretch.receiver, n)?;
        match read_body(alloc, &block, reached)? {
            Reading::Last(sequence) => {
                reached = sequence;
            }
            Reading::Fault(offset) => {
                return Err(LogFault::Damaged {
                    area: AREAS_BEFORE + stretch.receiver,
                    at: place_of(chain, stretch.receiver, n, offset),
                });
            }
        }
        n += 1;
    }
    Ok(reached)
}

/// Where in its area a receiver's nth block has a byte.
fn place_of(chain: &Chain, receiver: u32, n: u64, offset: usize) -> u64
    requires from { chain.now.first ≤ receiver }
    requires below { n < length (log_at chain.now receiver).lengths }
{
    let start = chain.log(receiver).place(n);
    start.saturating_add(4).saturating_add(offset as u64)
}
