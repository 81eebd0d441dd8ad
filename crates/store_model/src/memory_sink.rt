//! A sink that keeps what it took. The trait is in `sink.rt`.
ghost use Rattle.std.specs.Prelude.{◌≡◌, ◌++◌, ◌<◌, ◌≤◌, [], Some, None, length, take, IfOk, OnOk, OnErr, IsErr};
ghost use Rattle.store_model.specs.Faults.{Rose};
ghost use Rattle.store_model.specs.Calls.{fresh, passed, failed, faulted, IsToFail};

use crate::calls::Calls;
use crate::{Failed, Sink};
use std::alloc::Global;
use std::marker::Model;

/// Bytes that were written, in order. At most one of its calls is to fail; growth that finds no memory fails too.
#[derive(Drop)]
pub struct MemorySink {
    bytes: Vec<u8>,
    calls: Calls,
}

impl Model for MemorySink {
    ghost use Rattle.store_model.specs.Memory.{Output};

    ghost Value = { Output };

    ghost view = { λ s. record { taken = s.bytes.items; calls = s.calls } };
}

impl MemorySink {
    /// An empty sink. It fails at no call.
    pub fn new(alloc: Global) -> MemorySink
        ensures { result ≡ record { taken = []; calls = fresh } }
    {
        MemorySink {
            bytes: Vec::new(alloc),
            calls: Calls::NONE,
        }
    }

    /// What it has taken.
    pub fn bytes(&self) -> &[u8]
        ensures { result.now ≡ self.now.taken }
    {
        &self.bytes
    }

    /// Lets one call fail, counted from 1 over all calls; a call that was made already doesn't come again.
    pub fn fail_at(&mut self, call: u64)
        ensures taken { self.new.taken ≡ self.old.taken }
        ensures calls { self.new.calls ≡ record self.old.calls { failing = Some call } }
    {
        self.calls.failing = Some(call);
    }
}

impl Sink for MemorySink {
    ghost use Rattle.std.specs.Prelude.{◌≡◌};

    ghost tells = { Unit {0} };

    ghost taken = { λ s. s.taken };

    ghost faults = { λ s. s.calls.faults };

    fn write(&mut self, bytes: &[u8]) -> Result<usize, Failed>
        ensures within { IfOk result (λ n. n ≡ length bytes.now) }
        ensures taken { OnOk result (self.new.taken ≡ self.old.taken ++ bytes.now) }
        ensures unchanged { OnErr result (self.new.taken ≡ self.old.taken) }
        ensures never_falls { self.old.calls.faults ≤ self.new.calls.faults }
        ensures cause { IsErr result → Rose self.old.calls.faults self.new.calls.faults }
        ensures passed { OnOk result (self.new.calls ≡ passed self.old.calls) }
        ensures passed_only { OnOk result (IsToFail self.old.calls → ⊥) }
        ensures failed { OnErr result (IsToFail self.old.calls → self.new.calls ≡ failed self.old.calls) }
        ensures no_memory { OnErr result ((IsToFail self.old.calls → ⊥) → self.new.calls ≡ faulted self.old.calls) }
    {
        self.calls.begin()?;
        if self.bytes.extend_from_slice(bytes).is_err() {
            return Err(self.calls.fault());
        }
        Ok(bytes.len())
    }
}
