//! What is known of each receiver, and its blocks. `chain.rt` has the chain.
ghost use Rattle.std.specs.Prelude.{◌≡◌, ◌<◌, ◌≤◌, ◌^◌, ℕ, List, [], length, get_or, Some, None, IfOk, IsErrOf, ◌⊎◌};
ghost use Rattle.store_model.specs.Disk.{Stays};
ghost use Rattle.store_model.specs.Faults.{Rose};
ghost use Rattle.receiver_chain.specs.Receivers.{Kept, receiver_at};
ghost use Rattle.receiver_chain.specs.Chain.{Holds, IsHeld, attached_of, last_of, log_at};

use crate::chain::Chain;
use gated_log::{Log, LogFault};
use std::alloc::Global;
use store_model::Store;

impl Chain {
    /// The log of a receiver that is kept.
    pub fn log(&self, receiver: u32) -> &Log
        requires from { self.now.first ≤ receiver }
        ensures { result.now ≡ log_at self.now receiver }
    {
        match self.earlier.get((receiver - self.first) as usize) {
            Some(log) => log,
            None => &self.attached,
        }
    }

    /// The last sequence up to a receiver's end, where `last` is the last one of all; `None` for a receiver that was
    /// never made or is gone.
    pub fn last_in(&self, receiver: u32, last: u64) -> Option<u64>
        ensures kept { self.now.first ≤ receiver → receiver ≤ attached_of self.now → result ≡ Some (last_of self.now receiver last) }
        ensures gone { (receiver < self.now.first) ⊎ (attached_of self.now < receiver) → result ≡ None }
    {
        let attached = self.attached();
        if receiver < self.first() || receiver > attached {
            return None;
        }
        if receiver == attached {
            return Some(last);
        }
        let next = self.log(receiver + 1);
        Some(next.first().saturating_sub(1))
    }

    /// The nth block of a receiver, from 0.
    pub fn block<S: Store>(
        &self,
        alloc: Global,
        store: &mut S,
        receiver: u32,
        n: u64,
    ) -> Result<Vec<u8>, LogFault>
        requires held { S.tells → IsHeld self.now (S.disk store.old) }
        requires from { self.now.first ≤ receiver }
        requires upto { receiver ≤ attached_of self.now }
        requires below { n < length (log_at self.now receiver).lengths }
        ensures block { IfOk result (λ bytes. S.tells → (kept : Kept) → Holds self.now kept (S.disk store.old) → bytes.items ≡ get_or (receiver_at self.now.first kept receiver).blocks n []) }
        ensures length { IfOk result (λ bytes. length bytes.items ≡ get_or (log_at self.now receiver).lengths n 0) }
        ensures short { IfOk result (λ bytes. length bytes.items < 2 ^ 32) }
        ensures stays { Stays (S.disk store.old) (S.disk store.new) }
        ensures cause { IsErrOf result LogFault.StoreFault → Rose (S.disk store.old).faults (S.disk store.new).faults }
        ensures whole { (area at : ℕ) → IsErrOf result (LogFault.Damaged area at) → ⊥ }
    {
        let log = self.log(receiver);
        let bytes = log.block(alloc, store, n)?;
        Ok(bytes)
    }
}
