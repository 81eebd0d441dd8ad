//! Contracts of functions that do nothing.
ghost use Rattle.std.specs.Prelude.{◌≡◌, ◌≢◌, ◌≤◌, ◌+◌, IsTrue, List, ◌∷◌, length, AllPairs, Contains};
ghost use Rattle.member_slots.specs.Members.{NumberedMembers};
ghost use Rattle.file_model.specs.declared.paths.PathSpec.{PathSpec};
ghost use Rattle.file_model.specs.Paths.{path};
ghost use Rattle.logical_model.specs.SamePaths.{same_path, count_paths};

/// Two specifications that are told to be the same have one access path, whatever the members are.
pub fn same_specifications_have_one_path()
    ensures path { (p q : PathSpec) (members : NumberedMembers) → IsTrue (same_path p q) → path p members ≡ path q members }
    ensures own { (p : PathSpec) → IsTrue (same_path p p) }
    ensures either_way { (p q : PathSpec) → same_path p q ≡ same_path q p }
    ensures equal { (p q : PathSpec) → IsTrue (same_path p q) → p ≡ q }
{}

/// A specification counts where it isn't among the others yet.
pub fn paths_are_counted_once()
    ensures at_most { (paths : List PathSpec) → count_paths paths ≤ length paths }
    ensures counted { (spec : PathSpec) (paths : List PathSpec) → Contains paths spec → count_paths (spec ∷ paths) ≡ count_paths paths }
    ensures added { (spec : PathSpec) (paths : List PathSpec) → (Contains paths spec → ⊥) → count_paths (spec ∷ paths) ≡ count_paths paths + 1 }
    ensures different { (paths others : List PathSpec) → AllPairs (λ p q. p ≢ q) others → ((spec : PathSpec) → Contains paths spec → Contains others spec)
        → ((spec : PathSpec) → Contains others spec → Contains paths spec) → count_paths paths ≡ length others }
{}
