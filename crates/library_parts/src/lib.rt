//! The memory of a library as one value over its parts, ready for the bodies of its requests. Begin with `contents.rt`.
#![tactic(auto)]

pub mod authors;
mod bases;
mod boundaries;
pub mod contents;
mod cycles;
pub mod deposits;
mod files;
pub mod finds;
mod given;
mod journal;
mod keys;
pub mod laws;
mod leave;
mod locking;
mod looks;
mod members;
mod opens;
pub mod reading;
mod records;
mod reserves;
mod restart;
pub mod rows;
pub mod sizes;
mod texts;
mod users;

pub use authors::Author;
pub use contents::Contents;
pub use deposits::{deposit_all, deposits_leave, may_deposit, reserve_all, with_room};
pub use finds::no_such_name;
pub use locking::{holder_of, record_of};
pub use members::SlotTaken;
pub use parts_model;
pub use parts_model::{Found, MemberFound, OpenFound, RowFound, Stop, file_catalogue, job_table};
