//! The jobs that have begun: their opens, their lock levels and their open commit cycles. Begin with `jobs.rt`.
#![tactic(auto)]

mod changes;
mod cycle;
mod job;
pub mod jobs;
pub mod laws;
mod open;
mod opens;
mod reads;
mod users;

pub use changes::{Undo, UndoParts, Undos};
pub use file_cursor;
pub use jobs::{Jobs, LAST_OPEN};
pub use join_position;
pub use open::{Open, OpenAt, first_of};
pub use opens::{OpenNumbers, RowRead};
pub use reads::{OpenReads, OpenRows};
pub use users::lesser;
