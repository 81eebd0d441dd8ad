//! The kept calls. What a call counts for the bound on a history stands in `counting.rt`.
ghost use Rattle.std.specs.Prelude.{◌≡◌, ◌+◌, ◌≤◌, ◌<◌, [], ◌∷◌, ◌++◌, length, OnOk, OnErr, IsTrue};
ghost use Rattle.job_history.specs.Counting.{is_full};

use crate::counting::{call_bytes, is_end_job};
use crate::limits::{MOST_BYTES, MOST_CALLS};
use library_model::calls::Call;
use std::alloc::{AllocError, Global};
use std::marker::Model;

/// The calls of a run, in order. Contracts see them, and beside them the room for more.
#[derive(Drop)]
pub struct History {
    calls: Vec<Call>,
    counted_calls: u64,
    counted_bytes: u64,
}

impl Model for History {
    ghost use Rattle.std.specs.Prelude.{◌-◌, vec_len, vec_capacity};
    ghost use Rattle.job_history.specs.Counting.{Kept, IsCounted};

    ghost Value = { Kept };

    ghost view = { λ h. record { calls = h.calls.items; room = vec_capacity h.calls - vec_len h.calls } };

    ghost invariant = { λ h. IsCounted h.calls.items h.counted_calls h.counted_bytes };
}

impl History {
    /// A history without calls.
    pub fn new(alloc: Global) -> History
        ensures { result.calls ≡ [] }
    {
        History {
            calls: Vec::new(alloc),
            counted_calls: 0,
            counted_bytes: 0,
        }
    }

    /// Makes room for at least so many calls more.
    pub fn reserve(&mut self, calls: u32) -> Result<(), AllocError>
        ensures unchanged { self.new.calls ≡ self.old.calls }
        ensures room { OnOk result (calls ≤ self.new.room) }
        ensures kept { self.old.room ≤ self.new.room }
    {
        self.calls.reserve(calls as usize)
    }

    /// Keeps a call after the others.
    pub fn push(&mut self, call: Call)
        requires room { 1 ≤ self.old.room }
        ensures calls { self.new.calls ≡ self.old.calls ++ call ∷ [] }
        ensures room { self.new.room + 1 ≡ self.old.room }
    {
        self.counted_bytes = self.counted_bytes.saturating_add(call_bytes(&call));
        if !is_end_job(&call) {
            self.counted_calls = self.counted_calls.saturating_add(1);
        }
        self.calls.push_reserved(call);
    }

    /// The calls in order.
    pub fn calls(&self) -> &[Call]
        ensures { result.now ≡ self.now.calls }
    {
        self.calls.as_slice()
    }

    /// Whether no request but ENDJOB may follow.
    pub fn is_full(&self) -> bool
        ensures { result ≡ is_full self.now.calls }
    {
        self.counted_calls >= MOST_CALLS || self.counted_bytes >= MOST_BYTES
    }
}
