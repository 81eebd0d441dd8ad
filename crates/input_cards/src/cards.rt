//! One card.

use field_types::lists::ListOf;
use field_types::names::Name;

/// The order of the calls that a //SCHED card asks for.
#[derive(Drop)]
pub enum Turns {
    /// Names of jobs, each one call of that job.
    Jobs(ListOf<Name>),
    /// *RR
    RoundRobin,
}

/// A card.
#[derive(Drop)]
pub enum Card {
    /// //DDS
    Source(Name),
    /// //JOB
    Job(Name),
    /// //SCHED
    Schedule(Turns),
    /// //END
    End,
}
