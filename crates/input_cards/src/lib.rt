//! The cards of an input and the lines between them. Begin with `specs/Cards.antt` and `cards.rt`; which lines are at fault
//! by the cards alone is `specs/CardFaults.antt`.
#![tactic(auto)]

pub mod cards;
pub mod faults;
pub mod kinds;
pub mod limits;
pub mod names;
pub mod reading;
pub mod section;
pub mod sections;
