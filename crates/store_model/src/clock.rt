//! The moment of each call. `StepClock` counts.
ghost use Rattle.std.specs.Prelude.{◌≡◌, ℕ};
ghost use Rattle.store_model.specs.Calls.{counted};

use std::marker::Model;

/// A clock of microseconds. It can't fail, and it may give any value, also one that it gave before.
pub trait Clock {
    /// The first clock may give the moment and be the second one then. `Unit {0}` of a clock that says nothing.
    ghost gives: { Self → ℕ → Self → Type 0 };

    /// The moment now.
    fn now(&mut self) -> u64
        ensures { gives self.old result self.new };
}

/// A clock that gives 0, 1, 2 and so on, and the greatest u64 again and again once it is reached.
/// Contracts see it as the moment that it gives next.
#[derive(Drop)]
pub struct StepClock {
    next: u64,
}

impl Model for StepClock {
    ghost use Rattle.std.specs.Prelude.{ℕ};

    ghost Value = { ℕ };

    ghost view = { λ clock. clock.next };
}

impl StepClock {
    /// A clock whose next moment is 0.
    pub fn new() -> StepClock
        ensures { result ≡ 0 }
    {
        StepClock { next: 0 }
    }
}

impl Clock for StepClock {
    ghost use Rattle.std.specs.Prelude.{◌≡◌};
    ghost use Rattle.store_model.specs.Calls.{counted};

    ghost gives = { λ old moment new. (moment ≡ old) × (new ≡ counted old) };

    fn now(&mut self) -> u64 {
        let moment = self.next;
        self.next = moment.saturating_add(1);
        moment
    }
}
