//! What holds of a library between calls: its locks, current records, commit cycles and journal agree. Begin with
//! `specs/Joint.antt`.
#![tactic(auto)]

ghost use Rattle.lawful_states.specs.State.{empty_library};
ghost use Rattle.joint_state.specs.Joint.{IsJoint};

/// So it is of a library with nothing in it.
pub fn an_empty_library_is_joint()
    ensures { IsJoint empty_library }
{}
