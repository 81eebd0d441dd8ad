//! A library is made in a store.
ghost use Rattle.ibmi_batch.specs.Parts.{Makes};

use crate::status::Status;
use journal_opening::{FormatFault, format_library};
use std::alloc::Global;
use store_model::Store;

/// Makes a library with nothing in it, where the store has none.
pub(crate) fn make_library<S: Store>(alloc: Global, store: S) -> (Status, S)
    ensures { Makes result.0 (record { tells = S.tells; old = S.disk store; new = S.disk result.1 }) }
{
    let mut store = store;
    match format_library(alloc, &mut store) {
        Ok(()) => (Status::Done, store),
        Err(FormatFault::Exists) => (Status::Exists, store),
        Err(FormatFault::StoreFault) => (Status::StoreFault, store),
        Err(FormatFault::NoMemory) => (Status::NoMemory, store),
    }
}
