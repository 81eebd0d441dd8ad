//! Laws of the keys of a path, as contracts of functions that do nothing.
ghost use Rattle.std.specs.Prelude.{◌≡◌, List, map, None, if◌then◌else◌};
ghost use Rattle.view_rules.below.file_model.specs.declared.paths.PathFormat.{PathFormat};
ghost use Rattle.view_rules.below.file_model.specs.declared.paths.PathSpec.{PathSpec};
ghost use Rattle.view_rules.specs.Paths.{path, repeated_in};
ghost use Rattle.member_slots.specs.Members.{NumberedMembers};
ghost use Rattle.access_path.specs.PathBytes.{AreKeysFrom, in_bytes};
ghost use Rattle.path_entrants.specs.Formats.{keys_of};
ghost use Rattle.path_entrants.specs.Repeated.{least_repeated, TellsRepeated};

/// The keys of an entrant are those of the specification's formats, so that the path that `access_path` keeps by them
/// is the specification's.
pub fn keys_are_the_formats()
    ensures { (formats : List PathFormat) → AreKeysFrom (keys_of formats) 0 formats }
{}

/// The number that `least_repeated` gives of a path is that of the definition: the least record that has an equal later one.
pub fn repeated_keys_are_told()
    ensures { (spec : PathSpec) (members : NumberedMembers) → TellsRepeated spec members
        → (let entries = map (in_bytes spec.formats) (path spec members) in
        if spec.unique then least_repeated entries entries else None) ≡ repeated_in spec members }
{}
