//! Tests of listings that are read back.
#![tactic(auto)]

#[cfg(test)]
mod entry_rows;
#[cfg(test)]
mod exchanges;
#[cfg(test)]
mod faults;
#[cfg(test)]
mod line_faults;
#[cfg(test)]
mod readings;
#[cfg(test)]
mod runs;
