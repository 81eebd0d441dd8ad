//! A source over bytes in memory. The trait is in `source.rt`.
ghost use Rattle.std.specs.Prelude.{◌≡◌, ◌++◌, ◌<◌, ◌≤◌, [], Some, None, length, take, IfOk, OnOk, OnErr, IsErr};
ghost use Rattle.store_model.specs.Faults.{Rose};
ghost use Rattle.store_model.specs.Calls.{fresh, passed, failed, IsToFail};

use crate::calls::Calls;
use crate::{Failed, Source};
use std::alloc::{AllocError, Global};
use std::marker::Model;

/// Bytes that are read once, from the front. At most one of its calls is to fail.
#[derive(Drop)]
pub struct MemorySource {
    bytes: Vec<u8>,
    place: usize,
    calls: Calls,
}

impl Model for MemorySource {
    ghost use Rattle.std.specs.Prelude.{◌≤◌, drop, vec_len};
    ghost use Rattle.store_model.specs.Memory.{Input};

    ghost Value = { Input };

    ghost view = { λ s. record { left = drop s.place s.bytes.items; calls = s.calls } };

    ghost invariant = { λ s. s.place ≤ vec_len s.bytes };
}

impl MemorySource {
    /// A source of these bytes. It fails at no call.
    pub fn over(alloc: Global, bytes: &[u8]) -> Result<MemorySource, AllocError>
        ensures left { IfOk result (λ s. s.left ≡ bytes.now) }
        ensures calls { IfOk result (λ s. s.calls ≡ fresh) }
    {
        Ok(MemorySource {
            bytes: Vec::from_slice(alloc, bytes)?,
            place: 0,
            calls: Calls::NONE,
        })
    }

    /// Lets one call fail, counted from 1 over all calls; a call that was made already doesn't come again.
    pub fn fail_at(&mut self, call: u64)
        ensures left { self.new.left ≡ self.old.left }
        ensures calls { self.new.calls ≡ record self.old.calls { failing = Some call } }
    {
        self.calls.failing = Some(call);
    }
}

impl Source for MemorySource {
    ghost use Rattle.std.specs.Prelude.{◌≡◌};

    ghost tells = { Unit {0} };

    ghost left = { λ s. s.left };

    ghost faults = { λ s. s.calls.faults };

    fn read(&mut self, into: &mut [u8]) -> Result<usize, Failed>
        ensures within { IfOk result (λ n. n ≤ length into.new) }
        ensures taken { IfOk result (λ n. self.old.left ≡ take n into.new ++ self.new.left) }
        ensures end { IfOk result (λ n. n ≡ 0 → 0 < length into.new → self.old.left ≡ []) }
        ensures unchanged { OnErr result (self.new.left ≡ self.old.left) }
        ensures never_falls { self.old.calls.faults ≤ self.new.calls.faults }
        ensures cause { IsErr result → Rose self.old.calls.faults self.new.calls.faults }
        ensures passed { OnOk result (self.new.calls ≡ passed self.old.calls) }
        ensures passed_only { OnOk result (IsToFail self.old.calls → ⊥) }
        ensures failed { OnErr result (self.new.calls ≡ failed self.old.calls) }
        ensures failed_only { OnErr result (IsToFail self.old.calls) }
    {
        self.calls.begin()?;
        let count = into.len().min(self.bytes.len() - self.place);
        into[..count].copy_from_slice(&self.bytes[self.place..self.place + count]);
        self.place += count;
        Ok(count)
    }
}
