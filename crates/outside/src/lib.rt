//! The real outside of the program: standard input and output, and the system's clock. Nothing of what passes through them is
//! claimed but what their traits ask of every object.
#![tactic(auto)]

mod clock;
mod streams;

pub use clock::SystemClock;
pub use streams::{StandardInput, StandardOutput};
