//! How area 0 gets its first root.
ghost use Rattle.std.specs.Prelude.{◌≡◌, [], IsErrOf, OnOk};
ghost use Rattle.store_model.specs.Disk.{Does, IsDurable, Stays};
ghost use Rattle.store_model.specs.Faults.{Rose};
ghost use Rattle.checkpoint.specs.declared.layout.TheConstants.{ROOT_AREA};
ghost use Rattle.checkpoint.specs.Roots.{AreRoots, IsFormatting, first_root};

use crate::blank::{blank_log, make};
use crate::fault::SaveFault;
use crate::layout::ROOT_AREA;
use crate::root::{FIRST_ROOT, framed_root};
use std::alloc::Global;
use store_model::Store;

/// Writes the root of a store that has no state and keeps receiver 1. Format that receiver first: from the end of this call
/// on the store restarts from it.
pub fn format_roots<S: Store>(alloc: Global, store: &mut S) -> Result<(), SaveFault>
    requires empty { S.tells → (S.disk store.old).seen ROOT_AREA ≡ [] }
    requires settled { S.tells → IsDurable ROOT_AREA (S.disk store.old) }
    ensures formatted { OnOk result (S.tells → AreRoots [] first_root ((S.disk store.new).seen ROOT_AREA)) }
    ensures durable { OnOk result (S.tells → IsDurable ROOT_AREA (S.disk store.new)) }
    ensures any_moment { S.tells → Does ROOT_AREA (λ _ bytes. IsFormatting bytes) (S.disk store.old) (S.disk store.new) }
    ensures no_memory { IsErrOf result SaveFault.NoMemory → Stays (S.disk store.old) (S.disk store.new) }
    ensures cause { IsErrOf result SaveFault.StoreFault → Rose (S.disk store.old).faults (S.disk store.new).faults }
{
    let mut log = blank_log(alloc, ROOT_AREA)?;
    make(store, ROOT_AREA, &log)?;
    log.append(store, &framed_root(&FIRST_ROOT))?;
    Ok(())
}
