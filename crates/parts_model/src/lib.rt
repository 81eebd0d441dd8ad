//! What the parts of a library's memory are to each other, what each request finds in them and makes of them, and the laws of that. The definitions are in
//! `specs/`; nothing runs. `library_parts` has the code. Begin with `specs/Parts.antt`, then `specs/Answers.antt` and `specs/Indexed.antt`.
#![tactic(auto)]

pub mod boundaries;
pub mod finds;
pub mod keys;
pub mod reading;
pub mod rows;
pub mod stop;

pub use boundaries::Origin;
pub use file_catalogue;
pub use finds::{MemberFound, OpenFound};
pub use given_changes;
pub use job_table;
pub use job_table::file_cursor;
pub use join_records;
pub use keys::{Reservation, Test};
pub use memory_journal;
pub use open_position;
pub use path_set;
pub use reading::Found;
pub use rows::RowFound;
pub use stop::Stop;
pub use view_records;
