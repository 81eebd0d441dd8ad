//! The worked rows of displays: what the definition of `display` gives is computed by the check, and compared with what its rules give by hand.
//! Nothing depends on this crate.
#![tactic(auto, unfolding(display::specs::Display::file_line, display::specs::Display::source_line, display::specs::Display::file_text))]

mod libraries;
