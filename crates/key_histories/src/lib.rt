//! What every legal history of jobs leaves of keys, from a library with nothing in it: no unique file has two records with one key, now
//! and after whatever commit cycles are rolled back. Laws alone: the function does nothing, and its contract says it.
#![tactic(auto)]

ghost use Rattle.std.specs.Prelude.{ℕ, List};
ghost use Rattle.library_model.specs.declared.calls.Call.{Call};
ghost use Rattle.library_model.specs.declared.sources.NamedSource.{NamedSource};
ghost use Rattle.library_steps.specs.State.{State, memory_of};
ghost use Rattle.key_state.specs.Keys.{KeysStand};
ghost use Rattle.keys_kept.specs.KeysKept.{HasUniqueKeys, all_rolled_back};
ghost use Rattle.sound_histories.specs.Reached.{IsReached};

use key_state::keys_of_begun_jobs_stand;
use keys_kept::{keys_are_kept, rolled_back_keys_are_unique};
use sound_histories::every_history_leaves_a_sound_library;

/// After each history that is legal no unique path has two records with one key, nor has one after jobs have rolled back, whichever they are
/// and in whatever order. What is known of keys between calls holds.
pub fn every_history_keeps_the_keys()
    ensures stand { (sources : List NamedSource) (names : List (List ℕ)) (calls : List Call) (s : State) → IsReached sources names calls s → KeysStand (memory_of s) }
    ensures unique { (sources : List NamedSource) (names : List (List ℕ)) (calls : List Call) (s : State) → IsReached sources names calls s
        → HasUniqueKeys (memory_of s) }
    ensures rolled_back { (sources : List NamedSource) (names : List (List ℕ)) (calls : List Call) (s : State) (places : List ℕ)
        → IsReached sources names calls s → HasUniqueKeys (all_rolled_back places (memory_of s)) }
{
    every_history_leaves_a_sound_library();
    keys_of_begun_jobs_stand();
    keys_are_kept();
    rolled_back_keys_are_unique();
}
