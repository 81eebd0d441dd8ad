//! Each request that a library does leaves a library: its parts need of each other what they needed before. Nothing runs here.
//! Begin with `specs/Sound.antt` of `joint_state`.
#![tactic(auto)]

ghost use Rattle.std.specs.Prelude.{ℕ, List};
ghost use Rattle.lawful_states.specs.Owners.{AreApart};
ghost use Rattle.library_steps.specs.State.{empty_library, begun};
ghost use Rattle.lawful_states.specs.Lawful.{IsLibrary};
ghost use Rattle.joint_state.specs.Limits.{AreFormats, AreWithin};
ghost use Rattle.joint_state.specs.Told.{AreTold};
ghost use Rattle.joint_state.specs.Sound.{IsKept, IsSound};
ghost use Rattle.joint_state.specs.Views.{AreMapped, HaveDefaults};

/// It has the members that its files and opens name, with values in their records, and what open commit cycles changed can be taken back.
pub fn library_is_kept()
    ensures library { IsKept IsLibrary }
    ensures apart { IsKept (λ s. AreApart s.files) }
    ensures formats { IsKept (λ s. AreFormats s.files) }
    ensures views { IsKept (λ s. AreMapped s.files) }
    ensures defaults { IsKept (λ s. HaveDefaults s.files) }
    ensures within { IsKept (λ s. AreWithin s.members) }
{}

/// What the entries of the journal tell of records fits the files: images are records of their member's fields, at places that it may have.
pub fn told_is_kept()
    ensures { IsKept AreTold }
{}

/// So a library is sound from its beginning, whatever jobs begin in it.
pub fn empty_library_is_sound()
    ensures { (names : List (List ℕ)) → IsSound (begun empty_library names) }
{}
