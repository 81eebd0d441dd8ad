//! Runs over stores that stop, fail or change at a call: stops within a run (`stops.rt`), faults within a run and stops within a restart
//! (`faults.rt`), and stores of which a byte changes meanwhile (`changed_stores.rt`).
#![tactic(auto)]

#[cfg(test)]
mod changed_stores;
#[cfg(test)]
mod faults;
#[cfg(test)]
mod runs;
#[cfg(test)]
mod stops;

/// Does nothing: the tests are all there is. A program, since a library that nobody stands on would be built for nothing.
fn main() {}
