//! ROLLBACK and ENDJOB keep that the journal can be replayed. The functions do nothing.

ghost use Rattle.std.specs.Prelude.{◌≡◌};
ghost use Rattle.library_model.specs.declared.requests.EndJob.{EndJob as EndedJob};
ghost use Rattle.library_model.specs.declared.requests.Request.TheVariants.{Rollback, EndJob};
ghost use Rattle.library_steps.specs.State.{State};
ghost use Rattle.library_steps.specs.Change.{Change};
ghost use Rattle.joint_state.specs.Sound.{Does, after};
ghost use Rattle.replayed_histories.specs.Replayed.{IsReplayed};

/// What the journal leaves stays the library where the changes of an open commit cycle are taken back: after ROLLBACK, and after ENDJOB.
pub fn changes_taken_back_keep_replays()
    ensures rollback { (s : State) (done : Change) (d : Does s done) → d.request ≡ Rollback → IsReplayed s → IsReplayed (after s done) }
    ensures end_job { (s : State) (done : Change) (d : Does s done) (args : EndedJob) → d.request ≡ EndJob args → IsReplayed s → IsReplayed (after s done) }
{}
