//! What a store restarts from: the root records of area 0, and the states that are saved in turns in the areas 1 and 2. Begin
//! with `root.rt`.
#![tactic(auto)]

mod blank;
mod fault;
mod formatting;
mod laws;
mod layout;
mod loading;
mod opening;
mod root;
mod roots;
mod saving;
mod state;

pub use fault::SaveFault;
pub use formatting::format_roots;
pub use laws::one_reading;
pub use loading::load;
pub use opening::open_roots;
pub use root::Root;
pub use roots::Roots;
pub use state::MAX_STATE;
