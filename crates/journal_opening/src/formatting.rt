//! How a store becomes that of an empty library. What that is, is in specs/Journals.antt.
ghost use Rattle.std.specs.Prelude.{◌≡◌, ◌≢◌, [], OnOk, IsErrOf};
ghost use Rattle.store_model.specs.Disk.{Areas, Does, IsDurable, Leaves, May, Stays};
ghost use Rattle.store_model.specs.Faults.{Rose};
ghost use Rattle.gated_log.specs.Log.{Anything};
ghost use Rattle.journal_opening.specs.Journals.{IsEmptyLibrary, IsFormattingOf};

use crate::fault::FormatFault;
use crate::layout::{FIRST_AREA, FIRST_SEQUENCE, ROOT_AREA, VERSION};
use crate::written::is_written;
use checkpoint::{SaveFault, format_roots};
use gated_log::format;
use std::alloc::Global;
use store_model::Store;

/// Makes the store that of an empty library: receiver 1 first, then the roots, so that a root is never without its receiver.
pub fn format_library<S: Store>(alloc: Global, store: &mut S) -> Result<(), FormatFault>
    ensures formatted { OnOk result (S.tells → IsEmptyLibrary (S.disk store.new).seen) }
    ensures durable { OnOk result (S.tells → (areas : Areas) → May (S.disk store.new) areas → IsEmptyLibrary areas) }
    ensures empty { OnOk result (S.tells → (S.disk store.old).seen ROOT_AREA ≡ []) }
    ensures occupied { IsErrOf result FormatFault.Exists → S.tells → (S.disk store.old).seen ROOT_AREA ≢ [] }
    ensures untouched { IsErrOf result FormatFault.Exists → Stays (S.disk store.old) (S.disk store.new) }
    ensures kept { S.tells → (S.disk store.old).seen ROOT_AREA ≢ [] → Stays (S.disk store.old) (S.disk store.new) }
    ensures moments { S.tells → Leaves (S.disk store.old) (S.disk store.new) (IsFormattingOf (S.disk store.old)) }
    ensures no_memory { IsErrOf result FormatFault.NoMemory → Does FIRST_AREA Anything (S.disk store.old) (S.disk store.new) }
    ensures cause { IsErrOf result FormatFault.StoreFault → Rose (S.disk store.old).faults (S.disk store.new).faults }
{
    if is_written(store, ROOT_AREA)? {
        return Err(FormatFault::Exists);
    }
    make_library(alloc, store)?;
    Ok(())
}

/// The same of a store of which area 0 is empty.
fn make_library<S: Store>(alloc: Global, store: &mut S) -> Result<(), FormatFault>
    requires empty { S.tells → (S.disk store.old).seen ROOT_AREA ≡ [] }
    requires settled { S.tells → IsDurable ROOT_AREA (S.disk store.old) }
    ensures formatted { OnOk result (S.tells → IsEmptyLibrary (S.disk store.new).seen) }
    ensures durable { OnOk result (S.tells → (areas : Areas) → May (S.disk store.new) areas → IsEmptyLibrary areas) }
    ensures is_new { IsErrOf result FormatFault.Exists → ⊥ }
    ensures moments { S.tells → Leaves (S.disk store.old) (S.disk store.new) (IsFormattingOf (S.disk store.old)) }
    ensures no_memory { IsErrOf result FormatFault.NoMemory → Does FIRST_AREA Anything (S.disk store.old) (S.disk store.new) }
    ensures cause { IsErrOf result FormatFault.StoreFault → Rose (S.disk store.old).faults (S.disk store.new).faults }
{
    format(store, FIRST_AREA, FIRST_SEQUENCE, VERSION)?;
    match format_roots(alloc, store) {
        Ok(()) => Ok(()),
        Err(SaveFault::StoreFault) => Err(FormatFault::StoreFault),
        Err(SaveFault::NoMemory) => Err(FormatFault::NoMemory),
    }
}
