//! Laws of kept paths, as contracts of functions that do nothing.
ghost use Rattle.std.specs.Prelude.{◌≡◌, ℕ, ◌≤◌, List, map};
ghost use Rattle.member_slots.specs.Members.{NumberedMembers};
ghost use Rattle.file_model.specs.declared.paths.PathSpec.{PathSpec};
ghost use Rattle.file_model.specs.Paths.{path};
ghost use Rattle.access_path.specs.PathBytes.{in_bytes, IsInBytes};
ghost use Rattle.path_set.specs.declared.moves.PathMove.{PathMove};
ghost use Rattle.path_set.specs.KeptPaths.{KeptPaths, NumberedPaths, AreShared, AreOver, entries_of};
ghost use Rattle.path_set.specs.RecordChanges.{RecordChange, reversed, moves_in, opposites, paths_after, CanBeMade, HaveRoom};
ghost use Rattle.path_set.specs.MemberChanges.{IsRecordChange, AreReady};

/// The entries of a path over members are the definition's access path, with the keys in bytes.
pub fn entries_are_the_path()
    ensures { (spec : PathSpec) (members : NumberedMembers) → IsInBytes spec members → entries_of spec members ≡ map (in_bytes spec.formats) (path spec members) }
{}

/// Where the paths are those of the members, the moves of a change of one record can be made, and lead each path to that of
/// the members after the change.
pub fn paths_follow_a_change()
    ensures made { (c : RecordChange) (before after : NumberedMembers) (kept : KeptPaths) → AreReady c before after kept → CanBeMade (moves_in c kept.paths) kept }
    ensures over { (c : RecordChange) (before after : NumberedMembers) (paths : NumberedPaths) → IsRecordChange c before after → AreShared paths → AreOver before paths
        → AreOver after (paths_after (moves_in c paths) paths) }
{}

/// The opposite of a change's moves is what the change back has for moves, before the change and after it.
pub fn opposite_is_the_change_back()
    ensures opposite { (c : RecordChange) (paths : NumberedPaths) → opposites (moves_in c paths) ≡ moves_in (reversed c) paths }
    ensures later { (c : RecordChange) (moves : List PathMove) (paths : NumberedPaths) → moves_in c (paths_after moves paths) ≡ moves_in c paths }
{}
