//! The system's clock.
use std::time::{SystemTime, UNIX_EPOCH};
use store_model::Clock;

/// The system's clock in microseconds since 1970; its last value again where the system gives none.
#[derive(Drop)]
pub struct SystemClock<R: std::rt::Clock + Drop> {
    rt: R,
    last: u64,
}

impl<R: std::rt::Clock + Drop> SystemClock<R> {
    /// A clock that has given no moment.
    pub fn new(rt: R) -> SystemClock<R> {
        SystemClock { rt, last: 0 }
    }
}

impl<R: std::rt::Clock + Drop> Clock for SystemClock<R> {
    ghost gives = { λ _ _ _. Unit {0} };

    fn now(&mut self) -> u64 {
        if let Ok(now) = SystemTime::now(&self.rt) {
            if let Ok(since) = now.duration_since(UNIX_EPOCH) {
                self.last = u64::try_from(since.as_micros()).unwrap_or(u64::MAX);
            }
        }
        self.last
    }
}
