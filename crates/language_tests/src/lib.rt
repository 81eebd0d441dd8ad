//! Tests of the job language, of the history of a run and of its texts.
#![tactic(auto)]

#[cfg(test)]
mod entries;
#[cfg(test)]
mod histories;
#[cfg(test)]
mod listings;
#[cfg(test)]
mod numbers;
#[cfg(test)]
mod progress;
#[cfg(test)]
mod scripts;
#[cfg(test)]
mod statements;
