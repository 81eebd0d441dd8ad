//! Laws of open commit cycles: what holds of them in a sound library still holds after whatever is done to it. Begin with
//! `specs` of `joint_state`.
#![tactic(auto)]

ghost use Rattle.std.specs.Prelude.{◌≡◌, ℕ, ◌+◌, List, Some, slice_get};
ghost use Rattle.std.specs.List.{IsDistinct};
ghost use Rattle.std.specs.Map.{keys_of};
ghost use Rattle.journal_model.specs.Journal.{AreNumbered};
ghost use Rattle.library_model.specs.Named.{same_name};
ghost use Rattle.library_steps.specs.State.{Memory, JobState, empty_library, memory_of, new_job};
ghost use Rattle.library_steps.specs.Uses.{changes_in};
ghost use Rattle.joint_state.specs.Cycles.{AreJournaled, ChangesAreLocked, StandAsMade, HasBegun};
ghost use Rattle.joint_state.specs.Sound.{IsKept};

/// Of each job's open commit cycle: it began with an entry of the journal, the job has the lock of each record that it changed, and each
/// change stands as it was made once the later ones are taken back.
pub fn cycles_are_kept()
    ensures begun { IsKept (λ s. (place : ℕ) (job : JobState) → slice_get s.jobs place ≡ Some job → HasBegun (memory_of s) job) }
    ensures locked { IsKept (λ s. (place : ℕ) (job : JobState) → slice_get s.jobs place ≡ Some job → ChangesAreLocked (memory_of s) (place + 1) job) }
    ensures made { IsKept (λ s. (place : ℕ) (job : JobState) → slice_get s.jobs place ≡ Some job → StandAsMade (changes_in job.cycle) s.members) }
{}

/// The entries of the journal that are kept have the sequences behind those that are gone, and none is left out; so it is from the beginning.
pub fn entries_stay_numbered()
    ensures empty { AreNumbered (empty_library.gone + 1) empty_library.entries }
    ensures kept { IsKept (λ s. AreNumbered (s.gone + 1) s.entries) }
{}

/// All members of each open under commitment are journaled. A job that begins has no open.
pub fn opens_stay_journaled()
    ensures new { (m : Memory) (name : List ℕ) → AreJournaled m (new_job name) }
    ensures kept { IsKept (λ s. (place : ℕ) (job : JobState) → slice_get s.jobs place ≡ Some job → AreJournaled (memory_of s) job) }
{}

/// No two files of a library have one name, from the beginning on.
pub fn names_stay_apart()
    ensures empty { IsDistinct same_name (keys_of empty_library.files) }
    ensures kept { IsKept (λ s. IsDistinct same_name (keys_of s.files)) }
{}
