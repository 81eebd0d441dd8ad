//! How an area becomes a log of no block.
ghost use Rattle.std.specs.Prelude.{◌<◌, ◌≤◌, [], IfOk, OnOk, IsErr};
ghost use Rattle.store_model.specs.Disk.{Does};
ghost use Rattle.store_model.specs.Faults.{Rose};
ghost use Rattle.gated_log.specs.Log.{Anything, Settled};
ghost use Rattle.gated_log.specs.Steps.{IsNoLonger};
ghost use Rattle.checkpoint.specs.Holding.{IsBlank};

use crate::layout::VERSION;
use crate::root::LAST_STATE_AREA;
use gated_log::{Log, StoreFault, format};
use std::alloc::{AllocError, Global};
use store_model::Store;

/// The log of no block for an area, with room for one, before anything is written.
pub(crate) fn blank_log(alloc: Global, area: u32) -> Result<Log, AllocError>
    ensures blank { IfOk result (λ log. IsBlank area log) }
    ensures room { IfOk result (λ log. 0 < log.room) }
{
    let mut log = Log::empty(alloc, area, 0, VERSION);
    log.reserve(1)?;
    Ok(log)
}

/// Makes the area that log, whatever it held.
pub(crate) fn make<S: Store>(store: &mut S, area: u32, log: &Log) -> Result<(), StoreFault>
    requires blank { IsBlank area log.now }
    requires below { area ≤ LAST_STATE_AREA }
    ensures settled { OnOk result (S.tells → Settled log.now [] (S.disk store.new)) }
    ensures any_moment { Does area Anything (S.disk store.old) (S.disk store.new) }
    ensures short { Does area IsNoLonger (S.disk store.old) (S.disk store.new) }
    ensures cause { IsErr result → Rose (S.disk store.old).faults (S.disk store.new).faults }
{
    format(store, area, 0, VERSION)?;
    Ok(())
}
