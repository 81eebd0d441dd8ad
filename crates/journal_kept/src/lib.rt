//! What the journal's entries tell of a library's records stays so, whatever is done to it. Begin with
//! `specs/Agreed.antt` of `joint_state`.
#![tactic(auto)]

ghost use Rattle.library_steps.specs.State.{empty_library};
ghost use Rattle.range_histories.specs.Agreed.{Agrees};
ghost use Rattle.range_histories.specs.Sound.{IsKept};

/// The entries of each record go on from one another, and the last of them leaves it as it stands, after whatever is
/// done to a sound library.
pub fn journal_is_kept()
    ensures { IsKept Agrees }
{}

/// So it is of a library with nothing in it.
pub fn an_empty_library_agrees()
    ensures { Agrees empty_library }
{}

pub use range_histories;
