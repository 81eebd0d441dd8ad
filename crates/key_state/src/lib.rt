//! What holds of the keys of a library between calls. Begin with `specs/Keys.antt`.
#![tactic(auto)]

ghost use Rattle.std.specs.Prelude.{◌≡◌, ◌↔◌, ℕ, true, List, Ok};
ghost use Rattle.library_steps.specs.State.{Memory, begun, empty_library, memory_of};
ghost use Rattle.library_steps.specs.UniqueKeys.{all_apart, unique_paths};
ghost use Rattle.key_state.specs.Keys.{AreUnique, KeysStand};

/// So it is of a library with nothing in it, whatever jobs begin in it.
pub fn keys_of_begun_jobs_stand()
    ensures { (names : List (List ℕ)) → KeysStand (memory_of (begun empty_library names)) }
{}

/// No unique path has two records with one key exactly where the test that APYJRNCHG and RMVJRNCHG make of each member passes.
pub fn keys_are_unique_as_tested()
    ensures { (m : Memory) → AreUnique m m.members ↔ ((member : ℕ) → all_apart (unique_paths member m) m ≡ Ok true) }
{}
