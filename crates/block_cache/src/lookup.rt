//! Which block of a cache has a sequence.
ghost use Rattle.std.specs.Prelude.{◌≡◌, ◌≤◌, Some, IfOk};
ghost use Rattle.std.specs.Map.{values_of};
ghost use Rattle.block_cache.specs.Cached.{has_sequence, key_of};
ghost use Rattle.block_cache.specs.Walks.{IsFound};

use crate::block::Block;
use entry_codec::Entry;
use lru::LruCache;
use std::alloc::{AllocError, Global};

/// The key of the first block with this sequence. It looks at each.
pub fn key_of(blocks: &LruCache<u64, Block>, sequence: u64) -> Option<u64>
    ensures { result ≡ key_of sequence blocks.now.entries }
{
    for (key, block) in blocks.iter() {
        if block.has(sequence) {
            return Some(*key);
        }
    }
    None
}

/// Whether there is one.
pub fn has_sequence(blocks: &LruCache<u64, Block>, sequence: u64) -> bool
    ensures { result ≡ has_sequence sequence (values_of blocks.now.entries) }
{
    key_of(blocks, sequence).is_some()
}

/// Copies the entries of that block from the sequence up to another, as far as the block has them. Gives the last one.
pub fn copy_kept(
    blocks: &LruCache<u64, Block>,
    alloc: Global,
    key: u64,
    lo: u64,
    hi: u64,
    found: &mut Vec<Entry>,
) -> Result<u64, AllocError>
    requires key { key_of lo blocks.now.entries ≡ Some key }
    requires some { lo ≤ hi }
    ensures { IfOk result (λ reached. IsFound (values_of blocks.now.entries) (values_of blocks.now.entries) lo hi found.old.items found.new.items reached) }
{
    let _count = blocks.len(); // no key stands there twice
    let reached = blocks.peek(&key).unwrap().copy(alloc, lo, hi, found)?;
    Ok(reached)
}
