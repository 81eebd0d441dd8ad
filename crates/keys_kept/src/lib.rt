//! Laws of unique keys: what holds of them in a sound library still holds after whatever is done to it. Begin with `specs` of
//! `key_state`.
#![tactic(auto)]

ghost use Rattle.std.specs.Prelude.{ℕ, List};
ghost use Rattle.library_steps.specs.State.{State, memory_of};
ghost use Rattle.joint_state.specs.Sound.{IsSound};
ghost use Rattle.key_state.specs.Keys.{KeysStand};
ghost use Rattle.keys_kept.specs.KeysKept.{AreKeysKept, HasUniqueKeys, all_rolled_back};

use library_kept::library_is_kept;

/// No unique path has equal keys after a request, with however many changes of a job's open commit cycle taken back, and no key is kept by two
/// jobs to themselves, where it was so before.
pub fn keys_are_kept()
    ensures { AreKeysKept }
{
    library_is_kept();
}

/// No unique path has equal keys once jobs have rolled back, whichever they are and in whatever order.
pub fn rolled_back_keys_are_unique()
    ensures { (s : State) → IsSound s → KeysStand (memory_of s) → (places : List ℕ) → HasUniqueKeys (all_rolled_back places (memory_of s)) }
{}
