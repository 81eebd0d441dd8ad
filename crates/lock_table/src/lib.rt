//! The record locks of all jobs: who holds which record of which member, in which kind, and how long. The table is in
//! table.rt, a lock in lock.rt, and what each call asks for at each level of commitment control in levels.rt.
#![tactic(auto)]

mod chosen;
mod fault;
pub mod laws;
mod levels;
mod lock;
mod marks;
mod part;
mod row;
mod shelves;
mod sorted;
mod table;
mod tree;

pub use commit_level::Level;
pub use fault::{InUse, LockFault};
pub use levels::{Call, Freed, OpenLocks, Wanted, asked, released};
pub use lock::{Holder, Lock, LockKind, Reach, RecordId};
pub use table::{Held, LockTable, MOST_LOCKS};
