//! The bytes that stand for a value in a field of each type: characters, zoned, packed and binary numbers, dates,
//! times and timestamps.
#![tactic(auto)]

mod binary;
mod bounds;
mod decimals;
pub mod fields;
mod moments;
mod packed;
mod zoned;
