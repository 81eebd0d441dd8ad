//! STRJRNPF, APYJRNCHG and RMVJRNCHG keep that the journal can be replayed. The functions do nothing.

ghost use Rattle.std.specs.Prelude.{◌≡◌};
ghost use Rattle.library_model.specs.declared.requests.JournaledChanges.{JournaledChanges};
ghost use Rattle.library_model.specs.declared.requests.StartJournaling.{StartJournaling as Started};
ghost use Rattle.library_model.specs.declared.requests.Request.TheVariants.{ApplyChanges, RemoveChanges, StartJournaling};
ghost use Rattle.library_steps.specs.State.{State};
ghost use Rattle.library_steps.specs.Change.{Change};
ghost use Rattle.joint_state.specs.Sound.{Does, after};
ghost use Rattle.replayed_histories.specs.Replayed.{IsReplayed};

/// What the journal leaves stays the library after STRJRNPF, whatever records stand in the member.
pub fn begun_journaling_keeps_replays()
    ensures { (s : State) (done : Change) (d : Does s done) (args : Started) → d.request ≡ StartJournaling args → IsReplayed s → IsReplayed (after s done) }
{}

/// So it does after APYJRNCHG and RMVJRNCHG, whatever range of the journal is gone through.
pub fn ranges_keep_replays()
    ensures applied { (s : State) (done : Change) (d : Does s done) (args : JournaledChanges) → d.request ≡ ApplyChanges args → IsReplayed s → IsReplayed (after s done) }
    ensures removed { (s : State) (done : Change) (d : Does s done) (args : JournaledChanges) → d.request ≡ RemoveChanges args → IsReplayed s → IsReplayed (after s done) }
{}
