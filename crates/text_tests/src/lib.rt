//! Tests of lines, data descriptions and the spelling of journal entries.
#![tactic(auto)]

#[cfg(test)]
mod journal_entries;
#[cfg(test)]
mod lines;
#[cfg(test)]
mod physical_files;
#[cfg(test)]
mod physical_rows;
#[cfg(test)]
mod source_rows;
#[cfg(test)]
mod sources;
