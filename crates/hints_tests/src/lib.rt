//! Tests of the help beside statuses.
#![tactic(auto)]

#[cfg(test)]
mod cards;
#[cfg(test)]
mod runs;
#[cfg(test)]
mod statements;
#[cfg(test)]
mod texts;
