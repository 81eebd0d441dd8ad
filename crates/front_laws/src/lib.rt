//! What a stop leaves of a run's journal can be opened again. Laws alone: the function does nothing. Begin with `specs/Opens.antt`.
#![tactic(auto)]

ghost use Rattle.front_laws.specs.Opens.{FrontsCanBeOpened};

use replayed_histories::laws_histories::other_requests_make_no_checkpoint;
use replayed_histories::laws_joined::requests_keep_replays;
use replayed_histories::sound_histories::each_call_leaves_a_sound_library;

/// Each front of the journal that whole calls leave can be opened again, also where CHGJRN's entry by which a receiver ends stands alone behind them.
pub fn fronts_can_be_opened()
    ensures { FrontsCanBeOpened }
{
    requests_keep_replays();
    other_requests_make_no_checkpoint();
    each_call_leaves_a_sound_library();
}
