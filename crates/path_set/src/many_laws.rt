//! Laws of several changes, one after another, as contracts of functions that do nothing.
ghost use Rattle.std.specs.Prelude.{◌≡◌, ℕ, ◌*◌, ◌≤◌, List, length, map, reverse, All};
ghost use Rattle.member_slots.specs.Members.{NumberedMembers};
ghost use Rattle.path_set.specs.declared.moves.ImageChange.{ImageChange};
ghost use Rattle.path_set.specs.declared.moves.PathMove.{PathMove};
ghost use Rattle.path_set.specs.KeptPaths.{KeptPaths, NumberedPaths, AreShared, AreOver, spare_of};
ghost use Rattle.path_set.specs.RecordChanges.{RecordChange, opposites, paths_after, CanBeMade, HaveRoom, count_in};
ghost use Rattle.path_set.specs.ManyChanges.{change_in, moves_of_all, LeadTo, AreInOrder};

/// Where the paths are those of the members, the moves of several changes of a member's records can be made one after
/// another, and lead each path to that of the members after the last change.
pub fn paths_follow_many_changes()
    ensures over { (changes : List RecordChange) (before after : NumberedMembers) (paths : NumberedPaths) → LeadTo changes before after → AreShared paths → AreOver before paths
        → AreOver after (paths_after (moves_of_all changes paths) paths) }
    ensures made { (member : ℕ) (changes : List RecordChange) (before after : NumberedMembers) (kept : KeptPaths) → All (λ c. c.member ≡ member) changes → LeadTo changes before after
        → AreShared kept.paths → AreOver before kept.paths → HaveRoom member (length changes) kept → CanBeMade (moves_of_all changes kept.paths) kept }
    ensures few { (member times most : ℕ) (changes : List RecordChange) (kept : KeptPaths) → All (λ c. c.member ≡ member) changes → AreShared kept.paths → times * length changes ≤ most
        → HaveRoom member most kept → (id : ℕ) → times * count_in id (moves_of_all changes kept.paths) ≤ spare_of id kept }
    ensures member { (member : ℕ) (changes : List ImageChange) → All (λ c. c.member ≡ member) (map (change_in member) changes) }
    ensures shared { (moves : List PathMove) (paths : NumberedPaths) → AreShared paths → AreShared (paths_after moves paths) }
{}

/// The opposites of moves, the last one first, can be made after the moves, and leave the paths as they were before them.
pub fn moves_are_taken_back()
    ensures in_order { (members : NumberedMembers) (paths : NumberedPaths) → AreOver members paths → AreInOrder paths }
    ensures undone { (moves : List PathMove) (kept : KeptPaths) → CanBeMade moves kept → AreInOrder kept.paths
        → paths_after (reverse (opposites moves)) (paths_after moves kept.paths) ≡ kept.paths }
    ensures made { (moves : List PathMove) (kept now : KeptPaths) → CanBeMade moves kept → AreInOrder kept.paths → now.paths ≡ paths_after moves kept.paths
        → ((id : ℕ) → count_in id moves ≤ spare_of id now) → CanBeMade (reverse (opposites moves)) now }
{}
