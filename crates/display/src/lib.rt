//! What DSP shows of a library. Its text is defined in `specs/Display.antt`; begin with `library_text.rt`.
#![tactic(auto)]

mod files;
pub mod library_text;
mod members;
mod parameters;
