//! A disk in memory that keeps its whole past, fails where it is told to, and may stop. The trait is in `store.rt`,
//! what a stop may leave in `stop_images.rt`.

use crate::calls::Calls;
use crate::past::{Change, Past};
use crate::{Failed, Store};
use std::alloc::Global;

/// Areas in memory. At most one of its calls is to fail, and from one call on all may fail; growth that finds no
/// memory fails too. A call that fails changes nothing.
#[derive(Drop)]
pub struct MemoryStore {
    pub(crate) alloc: Global,
    pub(crate) past: Past,
    pub(crate) calls: Calls,
    pub(crate) stop: Option<u64>,
}

impl MemoryStore {
    ghost use Rattle.std.specs.Prelude.{◌≡◌, ◌≤◌, ◌++◌, [], ◌∷◌, Some, None, OnOk, OnErr, IsErr, ◌⊎◌};
    ghost use Rattle.store_model.specs.Faults.{Rose};
    ghost use Rattle.store_model.specs.Past.{HasRoom};
    ghost use Rattle.store_model.specs.Calls.{fresh, counted, passed, failed, faulted, IsToFail};
    ghost use Rattle.store_model.specs.MemoryStore.{changes_of, calls_of, stop_of, IsStopped};

    /// A store of which nothing was written. It fails at no call.
    pub fn new(alloc: Global) -> MemoryStore
        ensures changes { changes_of result ≡ [] }
        ensures calls { calls_of result ≡ fresh }
        ensures stop { stop_of result ≡ None }
    {
        MemoryStore {
            alloc,
            past: Past::new(alloc),
            calls: Calls::NONE,
            stop: None,
        }
    }

    /// Lets one call fail, counted from 1 over all calls; a call that was made already doesn't come again.
    pub fn fail_at(&mut self, call: u64)
        ensures changes { changes_of self.new ≡ changes_of self.old }
        ensures calls { calls_of self.new ≡ record (calls_of self.old) { failing = Some call } }
        ensures stop { stop_of self.new ≡ stop_of self.old }
    {
        self.calls.failing = Some(call);
    }

    /// Lets this call and each after it fail, counted from 1 over all calls.
    pub fn stop_at(&mut self, call: u64)
        ensures changes { changes_of self.new ≡ changes_of self.old }
        ensures calls { calls_of self.new ≡ calls_of self.old }
        ensures stop { stop_of self.new ≡ Some call }
    {
        self.stop = Some(call);
    }

    /// One call more.
    fn begin(&mut self) -> Result<(), Failed>
        ensures changes { changes_of self.new ≡ changes_of self.old }
        ensures stop { stop_of self.new ≡ stop_of self.old }
        ensures cause { IsErr result → Rose (calls_of self.old).faults (calls_of self.new).faults }
        ensures never_falls { (calls_of self.old).faults ≤ (calls_of self.new).faults }
        ensures passed { OnOk result (calls_of self.new ≡ passed (calls_of self.old)) }
        ensures passed_only { OnOk result (IsToFail (calls_of self.old) → ⊥) }
        ensures not_stopped { OnOk result (IsStopped self.old → ⊥) }
        ensures failed { OnErr result (IsToFail (calls_of self.old) → calls_of self.new ≡ failed (calls_of self.old)) }
        ensures faulted { OnErr result ((IsToFail (calls_of self.old) → ⊥) → calls_of self.new ≡ faulted (calls_of self.old)) }
        ensures told_to { OnErr result (IsToFail (calls_of self.old) ⊎ IsStopped self.old) }
    {
        self.calls.begin()?;
        match self.stop {
            Some(call) if call <= self.calls.made => Err(self.calls.fault()),
            _ => Ok(()),
        }
    }

    /// Keeps a change. Want of room is a fault.
    fn add(&mut self, change: Change) -> Result<(), Failed>
        ensures pushed { OnOk result (changes_of self.new ≡ changes_of self.old ++ change ∷ []) }
        ensures room { OnOk result (HasRoom change) }
        ensures calls { OnOk result (calls_of self.new ≡ calls_of self.old) }
        ensures unchanged { OnErr result (changes_of self.new ≡ changes_of self.old) }
        ensures fault { OnErr result (calls_of self.new ≡ record (calls_of self.old) { faults = counted (calls_of self.old).faults }) }
        ensures cause { IsErr result → Rose (calls_of self.old).faults (calls_of self.new).faults }
        ensures never_falls { (calls_of self.old).faults ≤ (calls_of self.new).faults }
        ensures stop { stop_of self.new ≡ stop_of self.old }
    {
        match self.past.add(self.alloc, change) {
            Ok(()) => Ok(()),
            Err(_) => Err(self.calls.fault()),
        }
    }
}

impl Store for MemoryStore {
    ghost use Rattle.std.specs.Prelude.{◌≡◌, ◌⊎◌, ◌+◌, ◌^◌, ◌≤◌, ℕ, length, take, drop, IfOk, OnOk, OnErr, IsErr};
    ghost use Rattle.store_model.specs.Disk.{Stays, Does, Torn, Cut, IsDurable, written};
    ghost use Rattle.store_model.specs.MemoryStore.{disk_of, changes_of, calls_of, stop_of, IsStopped, may_seen, sizes_fit};
    ghost use Rattle.store_model.specs.Faults.{Rose};
    ghost use Rattle.store_model.specs.Calls.{passed, failed, faulted, IsToFail};

    ghost tells = { Unit {0} };

    ghost disk = { disk_of };

    fn size(&mut self, area: u32) -> Result<u64, Failed>
        ensures size { IfOk result (λ n. n ≡ length ((disk_of self.old).seen area)) }
        ensures bound { IfOk result (λ n. n ≤ 2 ^ 62) }
        ensures stays { Stays (disk_of self.old) (disk_of self.new) }
        ensures cause { IsErr result → Rose (disk_of self.old).faults (disk_of self.new).faults }
        ensures unchanged { OnErr result (changes_of self.new ≡ changes_of self.old) }
        ensures passed { OnOk result (calls_of self.new ≡ passed (calls_of self.old)) }
        ensures passed_only { OnOk result (IsToFail (calls_of self.old) → ⊥) }
        ensures not_stopped { OnOk result (IsStopped self.old → ⊥) }
        ensures failed { OnErr result (IsToFail (calls_of self.old) → calls_of self.new ≡ failed (calls_of self.old)) }
        ensures faulted { OnErr result ((IsToFail (calls_of self.old) → ⊥) → calls_of self.new ≡ faulted (calls_of self.old)) }
        ensures stop { stop_of self.new ≡ stop_of self.old }
        ensures told_to { OnErr result (IsToFail (calls_of self.old) ⊎ IsStopped self.old) }
    {
        self.begin()?;
        Ok(self.past.bytes(area).len() as u64)
    }

    fn read(&mut self, area: u32, at: u64, into: &mut [u8]) -> Result<(), Failed>
        requires { at + length into.old ≤ length ((disk_of self.old).seen area) }
        ensures bytes { OnOk result (into.new ≡ take (length into.new) (drop at ((disk_of self.old).seen area))) }
        ensures stays { Stays (disk_of self.old) (disk_of self.new) }
        ensures cause { IsErr result → Rose (disk_of self.old).faults (disk_of self.new).faults }
        ensures unchanged { OnErr result (changes_of self.new ≡ changes_of self.old) }
        ensures passed { OnOk result (calls_of self.new ≡ passed (calls_of self.old)) }
        ensures passed_only { OnOk result (IsToFail (calls_of self.old) → ⊥) }
        ensures not_stopped { OnOk result (IsStopped self.old → ⊥) }
        ensures failed { OnErr result (IsToFail (calls_of self.old) → calls_of self.new ≡ failed (calls_of self.old)) }
        ensures faulted { OnErr result ((IsToFail (calls_of self.old) → ⊥) → calls_of self.new ≡ faulted (calls_of self.old)) }
        ensures stop { stop_of self.new ≡ stop_of self.old }
        ensures told_to { OnErr result (IsToFail (calls_of self.old) ⊎ IsStopped self.old) }
    {
        self.begin()?;
        let start = at as usize;
        let end = start + into.len();
        into.copy_from_slice(&self.past.bytes(area)[start..end]);
        Ok(())
    }

    fn write(&mut self, area: u32, at: u64, bytes: &[u8]) -> Result<(), Failed>
        requires { at ≤ length ((disk_of self.old).seen area) }
        ensures written { OnOk result ((disk_of self.new).seen area ≡ written at bytes.now ((disk_of self.old).seen area)) }
        ensures bound { OnOk result (at + length bytes.now ≤ 2 ^ 62) }
        ensures does { Does area (Torn at (length bytes.now)) (disk_of self.old) (disk_of self.new) }
        ensures cause { IsErr result → Rose (disk_of self.old).faults (disk_of self.new).faults }
        ensures unchanged { OnErr result (changes_of self.new ≡ changes_of self.old) }
        ensures passed { OnOk result (calls_of self.new ≡ passed (calls_of self.old)) }
        ensures passed_only { OnOk result (IsToFail (calls_of self.old) → ⊥) }
        ensures not_stopped { OnOk result (IsStopped self.old → ⊥) }
        ensures failed { OnErr result (IsToFail (calls_of self.old) → calls_of self.new ≡ failed (calls_of self.old)) }
        ensures faulted { OnErr result ((IsToFail (calls_of self.old) → ⊥) → calls_of self.new ≡ faulted (calls_of self.old)) }
        ensures stop { stop_of self.new ≡ stop_of self.old }
    {
        self.begin()?;
        let Ok(copy) = Vec::from_slice(self.alloc, bytes) else {
            return Err(self.calls.fault());
        };
        self.add(Change::Wrote(area, at, copy))?;
        Ok(())
    }

    fn cut(&mut self, area: u32, length: u64) -> Result<(), Failed>
        requires { length ≤ Rattle.std.specs.Prelude.length ((disk_of self.old).seen area) }
        ensures cut { OnOk result ((disk_of self.new).seen area ≡ take length ((disk_of self.old).seen area)) }
        ensures does { Does area (Cut length) (disk_of self.old) (disk_of self.new) }
        ensures cause { IsErr result → Rose (disk_of self.old).faults (disk_of self.new).faults }
        ensures unchanged { OnErr result (changes_of self.new ≡ changes_of self.old) }
        ensures passed { OnOk result (calls_of self.new ≡ passed (calls_of self.old)) }
        ensures passed_only { OnOk result (IsToFail (calls_of self.old) → ⊥) }
        ensures not_stopped { OnOk result (IsStopped self.old → ⊥) }
        ensures failed { OnErr result (IsToFail (calls_of self.old) → calls_of self.new ≡ failed (calls_of self.old)) }
        ensures faulted { OnErr result ((IsToFail (calls_of self.old) → ⊥) → calls_of self.new ≡ faulted (calls_of self.old)) }
        ensures stop { stop_of self.new ≡ stop_of self.old }
    {
        self.begin()?;
        self.add(Change::Shortened(area, length))?;
        Ok(())
    }

    fn sync(&mut self, area: u32) -> Result<(), Failed>
        ensures durable { OnOk result (IsDurable area (disk_of self.new)) }
        ensures stays { Stays (disk_of self.old) (disk_of self.new) }
        ensures cause { IsErr result → Rose (disk_of self.old).faults (disk_of self.new).faults }
        ensures unchanged { OnErr result (changes_of self.new ≡ changes_of self.old) }
        ensures passed { OnOk result (calls_of self.new ≡ passed (calls_of self.old)) }
        ensures passed_only { OnOk result (IsToFail (calls_of self.old) → ⊥) }
        ensures not_stopped { OnOk result (IsStopped self.old → ⊥) }
        ensures failed { OnErr result (IsToFail (calls_of self.old) → calls_of self.new ≡ failed (calls_of self.old)) }
        ensures faulted { OnErr result ((IsToFail (calls_of self.old) → ⊥) → calls_of self.new ≡ faulted (calls_of self.old)) }
        ensures stop { stop_of self.new ≡ stop_of self.old }
    {
        self.begin()?;
        self.add(Change::Synced(area))?;
        Ok(())
    }

    ghost leaves = { λ store _. may_seen store };

    ghost fits = { λ store area _. sizes_fit store area };
}
