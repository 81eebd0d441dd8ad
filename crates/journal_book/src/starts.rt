//! Where blocks begin. A read is told so of where it may begin, and asks the block whether it is so.
ghost use Rattle.std.specs.Prelude.{◌≡◌, ◌+◌, ◌<◌, ◌≤◌, ◌^◌, ◌++◌, [], ◌∷◌, length, IfSome, vec_len, vec_capacity};
ghost use Rattle.receiver_chain.specs.Chain.{attached_of, log_at};

use receiver_chain::Chain;
use std::alloc::{AllocError, Global};

/// The nth block of a receiver, from 0, and the last sequence before it.
#[derive(Clone, Copy)]
pub struct BlockStart {
    pub before: u64,
    pub receiver: u32,
    pub n: u64,
}

/// The nth block of a receiver, which begins behind this sequence.
pub fn block_start(before: u64, receiver: u32, n: u64) -> BlockStart {
    BlockStart {
        before,
        receiver,
        n,
    }
}

/// Room for all blocks of a chain.
pub fn room_for(alloc: Global, chain: &Chain) -> Result<Vec<BlockStart>, AllocError> {
    let attached = chain.attached();
    let mut receiver = chain.first();
    let mut blocks = chain.log(attached).count();
    while receiver < attached {
        blocks = blocks.saturating_add(chain.log(receiver).count());
        receiver += 1;
    }
    let mut starts = Vec::new(alloc);
    starts.reserve(blocks as usize)?;
    Ok(starts)
}

/// Notes a block behind the others, if there is room. Without it a read begins at a block further in front.
pub fn note(starts: &mut Vec<BlockStart>, start: BlockStart)
    ensures noted { vec_len starts.old < vec_capacity starts.old → starts.new.items ≡ starts.old.items ++ start ∷ [] }
{
    if starts.len() < starts.capacity() {
        starts.push_reserved(start);
    }
}

/// Forgets the blocks of the receivers up to this one.
pub fn forget(starts: &mut Vec<BlockStart>, receiver: u32) {
    starts.retain(|start| receiver < start.receiver);
}

/// The last block that begins before this sequence, as far as such are known and there. The blocks stand in their order.
pub fn start_of(chain: &Chain, starts: &[BlockStart], sequence: u64) -> Option<BlockStart>
    ensures from { IfSome result (λ start. chain.now.first ≤ start.receiver) }
    ensures upto { IfSome result (λ start. start.receiver ≤ attached_of chain.now) }
    ensures below { IfSome result (λ start. start.n < length (log_at chain.now start.receiver).lengths) }
    ensures before { IfSome result (λ start. start.before < sequence) }
    ensures fits { IfSome result (λ start. start.n + 1 < 2 ^ 64) }
{
    let count = starts.partition_point(|start| start.before < sequence);
    let Some(at) = count.checked_sub(1) else {
        return None;
    };
    let Some(start) = starts.get(at) else {
        return None;
    };
    let found = if_there(chain, *start, sequence);
    found
}

/// The block, if the chain has it and it begins before this sequence.
fn if_there(chain: &Chain, start: BlockStart, sequence: u64) -> Option<BlockStart>
    ensures from { IfSome result (λ start. chain.now.first ≤ start.receiver) }
    ensures upto { IfSome result (λ start. start.receiver ≤ attached_of chain.now) }
    ensures below { IfSome result (λ start. start.n < length (log_at chain.now start.receiver).lengths) }
    ensures before { IfSome result (λ start. start.before < sequence) }
    ensures fits { IfSome result (λ start. start.n + 1 < 2 ^ 64) }
{
    if start.receiver < chain.first() || start.receiver > chain.attached() {
        return None;
    }
    if start.n < chain.log(start.receiver).count() && start.before < sequence {
        Some(start)
    } else {
        None
    }
}
