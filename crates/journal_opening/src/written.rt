//! Whether anything was ever written in an area.
ghost use Rattle.std.specs.Prelude.{◌≡◌, ◌≢◌, true, false, [], IfOk, IsErr};
ghost use Rattle.store_model.specs.Disk.{IsDurable, Stays};
ghost use Rattle.store_model.specs.Faults.{Rose};

use store_model::{Failed, Store};

/// Whether the area has bytes. From its sync on a stop leaves of it what a read gives.
pub(crate) fn is_written<S: Store>(store: &mut S, area: u32) -> Result<bool, Failed>
    ensures some { IfOk result (λ written. written ≡ true → S.tells → (S.disk store.old).seen area ≢ []) }
    ensures none { IfOk result (λ written. written ≡ false → S.tells → (S.disk store.old).seen area ≡ []) }
    ensures durable { IfOk result (λ _. S.tells → IsDurable area (S.disk store.new)) }
    ensures stays { Stays (S.disk store.old) (S.disk store.new) }
    ensures cause { IsErr result → Rose (S.disk store.old).faults (S.disk store.new).faults }
{
    store.sync(area)?;
    let size = store.size(area)?;
    Ok(size > 0)
}
