//! Where an open stands, and what a read finds from there, in key order or in arrival order. Begin with
//! `specs/Finding.antt`.
#![tactic(auto)]

mod arrival;
pub mod cursor;
mod keyed;
pub mod laws;
mod numbered;
pub mod places;
mod spot;
