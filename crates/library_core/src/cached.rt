//! How a request reads the journal through the library's cache, which takes memory only when a request reads. `reading.rt` has what is read.
ghost use Rattle.std.specs.Prelude.{◌≡◌, ℕ, true, false, [], unwrap_or, IfOk, OnErr, IsErr, IsErrOf};
ghost use Rattle.store_model.specs.Disk.{Stays};
ghost use Rattle.store_model.specs.Faults.{Rose};
ghost use Rattle.library_model.specs.NeedsMemory.{needs_memory};
ghost use Rattle.library_steps.specs.State.{State};
ghost use Rattle.kept_library.specs.Journaled.{IsRemembered};
ghost use Rattle.kept_library.specs.Unread.{reads_journal};
ghost use Rattle.library_core.specs.Cached.{AreCached};
ghost use Rattle.library_core.specs.Reads.{HasRead};

use crate::kinds;
use crate::reading::{ReadFault, nothing_read, read_stretch};
use block_cache::BlockCache;
use commitment_requests::library_parts::Contents;
use journal_reads::Stretch;
use kept_journal::KeptJournal;
use library_model::requests::Request;
use std::alloc::{AllocError, Global};
use store_model::Store;

/// The stretch of the journal that the request reads; an empty one where it reads none, which leaves the cache alone.
pub(crate) fn read_through<S: Store>(
    contents: &Contents,
    journal: &KeptJournal,
    cache: &mut Option<BlockCache>,
    store: &mut S,
    request: &Request,
) -> Result<Stretch, ReadFault>
    requires kept { (s : State) × IsRemembered S.tells (S.disk store.old) journal.now contents.now.state s }
    requires cached { AreCached S.tells journal.now (S.disk store.old) (unwrap_or cache.old []) }
    ensures read { (s : State) → IsRemembered S.tells (S.disk store.old) journal.now contents.now.state s → HasRead S.tells s result }
    ensures stays { Stays (S.disk store.old) (S.disk store.new) }
    ensures wants { IsErr result → needs_memory request.now ≡ true }
    ensures cause { IsErrOf result ReadFault.StoreFault → Rose (S.disk store.old).faults (S.disk store.new).faults }
    ensures unread { (sequence : ℕ) → IsErrOf result (ReadFault.BlockChanged sequence) → reads_journal request.now ≡ true }
    ensures untold { (sequence : ℕ) → IsErrOf result (ReadFault.BlockChanged sequence) → S.tells → ⊥ }
    ensures cached { AreCached S.tells journal.now (S.disk store.old) (unwrap_or cache.new []) }
    ensures alone { reads_journal request.now ≡ false → cache.new ≡ cache.old }
{
    if kinds::reads_journal(request) {
        read_asked(contents, journal, cache, store, request)
    } else {
        Ok(nothing_read(contents))
    }
}

/// What a request reads that reads the journal.
fn read_asked<S: Store>(
    contents: &Contents,
    journal: &KeptJournal,
    cache: &mut Option<BlockCache>,
    store: &mut S,
    request: &Request,
) -> Result<Stretch, ReadFault>
    requires kept { (s : State) × IsRemembered S.tells (S.disk store.old) journal.now contents.now.state s }
    requires cached { AreCached S.tells journal.now (S.disk store.old) (unwrap_or cache.old []) }
    ensures read { (s : State) → IsRemembered S.tells (S.disk store.old) journal.now contents.now.state s → HasRead S.tells s result }
    ensures stays { Stays (S.disk store.old) (S.disk store.new) }
    ensures cause { IsErrOf result ReadFault.StoreFault → Rose (S.disk store.old).faults (S.disk store.new).faults }
    ensures untold { (sequence : ℕ) → IsErrOf result (ReadFault.BlockChanged sequence) → S.tells → ⊥ }
    ensures cached { AreCached S.tells journal.now (S.disk store.old) (unwrap_or cache.new []) }
{
    match taken(cache, contents.alloc()) {
        Ok(mut blocks) => {
            let found = read_stretch(contents, journal, &mut blocks, store, request);
            *cache = Some(blocks);
            found
        }
        Err(_) => Err(ReadFault::NoMemory),
    }
}

/// The blocks of the cache, taken out of it; a cache without blocks where there is none yet.
fn taken(cache: &mut Option<BlockCache>, alloc: Global) -> Result<BlockCache, AllocError>
    ensures same { IfOk result (λ blocks. blocks ≡ unwrap_or cache.old []) }
    ensures kept { OnErr result (unwrap_or cache.new [] ≡ unwrap_or cache.old []) }
{
    match cache.take() {
        Some(blocks) => Ok(blocks),
        None => {
            let blocks = BlockCache::new(alloc)?;
            Ok(blocks)
        }
    }
}
