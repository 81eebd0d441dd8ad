//! The arithmetic of a job's script: sums, differences and products of decimal numbers, and the order of two values.
//! Begin with `specs/Arithmetic.antt` and `specs/Order.antt`.
#![tactic(auto)]

pub mod order;
pub mod products;
mod splits;
pub mod sums;
pub mod units;
pub mod zeros;
