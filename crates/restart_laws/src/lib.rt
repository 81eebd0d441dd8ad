//! Laws of the library that a journal leaves: its parts fit each other. Nothing runs here.
//! Begin with `specs/Libraries.antt` of `restart_model` and `specs/Sound.antt` of `joint_state`.
#![tactic(auto)]

pub mod laws;
