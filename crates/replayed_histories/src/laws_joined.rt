//! What all requests keep that make no checkpoint, and whole histories without one. The functions do nothing.

ghost use Rattle.std.specs.Prelude.{ℕ, List};
ghost use Rattle.library_model.specs.declared.calls.Call.{Call};
ghost use Rattle.library_model.specs.declared.sources.NamedSource.{NamedSource};
ghost use Rattle.library_steps.specs.State.{State};
ghost use Rattle.sound_histories.specs.Reached.{IsReached};
ghost use Rattle.replayed_histories.specs.Replayed.{AreReplaysKept, IsReplayed};
ghost use Rattle.replayed_histories.specs.Unsaved.{AsksNoCheckpoint};

use sound_histories::each_call_leaves_a_sound_library;

/// What the journal leaves stays the library after each request that makes no checkpoint: after each but CHKPT.
pub fn requests_keep_replays()
    ensures { AreReplaysKept }
{}

/// So it is after each legal history in which no call asks for a checkpoint.
pub fn histories_are_replayed()
    ensures { (sources : List NamedSource) (names : List (List ℕ)) (calls : List Call) (s : State) → AsksNoCheckpoint calls → IsReached sources names calls s → IsReplayed s }
{
    each_call_leaves_a_sound_library();
}
