//! Loads the state that a root names, and trusts no byte.
ghost use Rattle.std.specs.Prelude.{◌≡◌, ◌<◌, ◌^◌, ℕ, List, [], ◌∷◌, ◌⊎◌, length, IfOk, IsErrOf};
ghost use Rattle.store_model.specs.Disk.{IsDurable, Stays};
ghost use Rattle.store_model.specs.Faults.{Rose};
ghost use Rattle.entry_codec.specs.declared.entries.Entry.{Entry};
ghost use Rattle.gated_log.specs.Blocks.{IsDamagedAt, Spells};
ghost use Rattle.checkpoint.specs.declared.layout.TheConstants.{VERSION};
ghost use Rattle.checkpoint.specs.Roots.{IsRoot};
ghost use Rattle.checkpoint.specs.States.{IsNotOneAt, IsSaved, IsStateDamagedAt};
ghost use Rattle.checkpoint.specs.Holding.{IsKept};

use crate::layout::{FIRST_BLOCK, FIRST_GATE};
use crate::root::Root;
use crate::state::entries_of;
use entry_codec::Entry;
use gated_log::LogFault;
use std::alloc::Global;
use store_model::Store;

/// The entries of the state that the root names, none where it names no area. It writes nothing; from its sync on a stop
/// leaves the state.
pub fn load<S: Store>(alloc: Global, store: &mut S, root: Root) -> Result<Vec<Entry>, LogFault>
    requires ranges { IsRoot root }
    ensures loaded { IfOk result (λ state. S.tells → IsKept root state.items (S.disk store.new)) }
    ensures same { IfOk result (λ entries. S.tells → (state : List Entry) → IsSaved root state (S.disk store.old).seen → entries.items ≡ state) }
    ensures damaged { (area at : ℕ) → IsErrOf result (LogFault.Damaged area at) → (area ≡ root.area) × (S.tells → IsStateDamagedAt root ((S.disk store.old).seen root.area) at) }
    ensures stays { Stays (S.disk store.old) (S.disk store.new) }
    ensures cause { IsErrOf result LogFault.StoreFault → Rose (S.disk store.old).faults (S.disk store.new).faults }
{
    if root.area == 0 {
        return Ok(Vec::new(alloc));
    }
    let block = one_block(alloc, store, root)?;
    let entries = entries_of(alloc, root.area, &block)?;
    Ok(entries)
}

/// The one block of the area that a root names, which is as long as the root says.
fn one_block<S: Store>(alloc: Global, store: &mut S, root: Root) -> Result<Vec<u8>, LogFault>
    requires ranges { IsRoot root }
    ensures spells { IfOk result (λ block. S.tells → Spells root.area 0 VERSION (block.items ∷ []) ((S.disk store.new).seen root.area)) }
    ensures durable { IfOk result (λ _. S.tells → IsDurable root.area (S.disk store.new)) }
    ensures length { IfOk result (λ block. length block.items ≡ root.length) }
    ensures short { IfOk result (λ block. length block.items < 2 ^ 32) }
    ensures damaged { (area at : ℕ) → IsErrOf result (LogFault.Damaged area at) → (area ≡ root.area) × (S.tells → IsDamagedAt root.area ((S.disk store.old).seen root.area) at ⊎ ((blocks : List (List ℕ)) × Spells root.area 0 VERSION blocks ((S.disk store.old).seen root.area) × IsNotOneAt root.length blocks at)) }
    ensures stays { Stays (S.disk store.old) (S.disk store.new) }
    ensures cause { IsErrOf result LogFault.StoreFault → Rose (S.disk store.old).faults (S.disk store.new).faults }
{
    let area = root.area;
    let log = gated_log::open(alloc, store, area)?;
    if log.count() == 0 {
        let at = FIRST_GATE;
        return Err(LogFault::Damaged { area, at });
    }
    let block = log.block(alloc, store, 0)?;
    if block.as_slice().len() as u64 != root.length {
        let at = FIRST_BLOCK;
        return Err(LogFault::Damaged { area, at });
    }
    if log.count() > 1 {
        let at = log.place(1) - 1; // a gate is open that had to be closed
        return Err(LogFault::Damaged { area, at });
    }
    Ok(block)
}
