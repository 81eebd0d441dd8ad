//! Laws of equal keys in kept paths, as contracts of functions that do nothing.
ghost use Rattle.std.specs.Prelude.{◌≡◌, ℕ, List, [], ◌∷◌};
ghost use Rattle.member_slots.specs.Members.{NumberedMembers};
ghost use Rattle.file_model.specs.declared.paths.PathFormat.{PathFormat};
ghost use Rattle.file_model.specs.Paths.{clash, repeated_in};
ghost use Rattle.file_model.specs.Views.{view_of};
ghost use Rattle.access_path.specs.KeyFields.{AreBytes};
ghost use Rattle.access_path.specs.PathBytes.{IsInBytes};
ghost use Rattle.path_entrants.specs.Repeated.{TellsRepeated};
ghost use Rattle.path_set.specs.KeptPaths.{KeptPath, entries_of};
ghost use Rattle.path_set.specs.EqualKeys.{repeated_of, clash_in};

/// The record that is found to have an equal later one is that of the definition.
pub fn repeated_keys_are_told()
    ensures { (path : KeptPath) (members : NumberedMembers) → path.entries ≡ entries_of path.spec members → TellsRepeated path.spec members
        → repeated_of path ≡ repeated_in path.spec members }
{}

/// In a path of one format the other record that is found to have the key of an image is that of the definition.
pub fn clashes_are_told()
    ensures { (format : PathFormat) (members : NumberedMembers) (image : List ℕ) (rrn : ℕ) (path : KeptPath) → path.spec.formats ≡ format ∷ []
        → path.entries ≡ entries_of path.spec members → IsInBytes path.spec members → AreBytes (view_of format.fields image) → clash_in 0 image rrn path ≡ clash format members image rrn }
{}
