//! Laws of what a change of a member makes of the paths, as contracts of functions that do nothing.
ghost use Rattle.std.specs.Prelude.{◌≡◌, ℕ, ◌+◌, ◌≤◌, false, [], List, length, map, All, Some, None, IsSome, if◌then◌else◌};
ghost use Rattle.member_slots.specs.declared.slot.Slot.{Slot};
ghost use Rattle.member_slots.specs.declared.slot.Slot.TheVariants.{Live, Deleted};
ghost use Rattle.key_pages.specs.EntryList.{EntryList};
ghost use Rattle.member_slots.specs.Member.{MemberState, slot_at, empty_member, appended, changed};
ghost use Rattle.member_slots.specs.Members.{Numbered, NumberedMembers, member_at, member_of, with_member, put_member, without_member};
ghost use Rattle.file_model.specs.declared.paths.PathSpec.{PathSpec};
ghost use Rattle.path_set.specs.KeptPaths.{KeptPaths, NumberedPaths, AreShared, AreOver, entries_of, spare_of};
ghost use Rattle.path_set.specs.RecordChanges.{RecordChange, reversed, moves_of, moves_in, paths_after, HaveRoom, count_in};
ghost use Rattle.path_set.specs.MemberChanges.{IsRecordChange};
ghost use Rattle.path_set.specs.MemberSteps.{slot_added, record_added, with_slot_behind, slot_replaced, AreSameBut, is_over, paths_over};
ghost use Rattle.path_set.specs.RebuiltPaths.{AreRebuilt, HaveTies, path_with};

/// A record behind the last slot of a member is a change of one record, and so are a deleted slot there and the deletion
/// that undoes it.
pub fn paths_follow_an_added_record()
    ensures slot { (number : ℕ) (slot : Slot) (members : NumberedMembers) → IsSome (member_at number members)
        → IsRecordChange (slot_added number slot members) members (with_member number (with_slot_behind slot (member_of number members)) members) }
    ensures change { (number : ℕ) (image : List ℕ) (members : NumberedMembers) → IsSome (member_at number members)
        → IsRecordChange (record_added number image members) members (with_member number (appended (member_of number members) image) members) }
    ensures over { (number : ℕ) (image : List ℕ) (members : NumberedMembers) (paths : NumberedPaths) → IsSome (member_at number members) → AreShared paths → AreOver members paths
        → AreOver (with_member number (appended (member_of number members) image) members) (paths_after (moves_in (record_added number image members) paths) paths) }
    ensures undone { (number : ℕ) (image : List ℕ) (members : NumberedMembers) → IsSome (member_at number members)
        → let added = with_member number (appended (member_of number members) image) members in
        IsRecordChange (reversed (record_added number image members)) added (with_member number (changed (member_of number added) (length (member_of number members).slots + 1) Deleted) added) }
{}

/// Another slot in the place of one is a change of one record. The change back is the same with the slots exchanged.
pub fn paths_follow_a_replaced_slot()
    ensures change { (number rrn : ℕ) (old new : Slot) (members : NumberedMembers) → slot_at (member_of number members) rrn ≡ Some old
        → IsRecordChange (slot_replaced number rrn old new) members (with_member number (changed (member_of number members) rrn new) members) }
    ensures over { (number rrn : ℕ) (old new : Slot) (members : NumberedMembers) (paths : NumberedPaths) → slot_at (member_of number members) rrn ≡ Some old
        → AreShared paths → AreOver members paths
        → AreOver (with_member number (changed (member_of number members) rrn new) members) (paths_after (moves_in (slot_replaced number rrn old new) paths) paths) }
    ensures back { (number rrn : ℕ) (old new : Slot) → reversed (slot_replaced number rrn old new) ≡ slot_replaced number rrn new old }
{}

/// A path that is over no format of a member has no part in its changes.
pub fn paths_of_others_stay()
    ensures entries { (number : ℕ) (before after : NumberedMembers) (spec : PathSpec) → AreSameBut number before after → is_over number spec ≡ false → entries_of spec after ≡ entries_of spec before }
    ensures moves { (c : RecordChange) (spec : PathSpec) → is_over c.member spec ≡ false → moves_of c spec ≡ [] }
    ensures all { (c : RecordChange) (paths : NumberedPaths) → moves_in c paths ≡ moves_in c (paths_over c.member paths) }
{}

/// A member without records changes no path where it is put, nor does one that no path is over where it goes.
pub fn paths_stay_where_members_come_and_go()
    ensures put { (number record_length : ℕ) (members : NumberedMembers) (paths : NumberedPaths) → member_at number members ≡ None → AreOver members paths
        → AreOver (put_member number (empty_member record_length) members) paths }
    ensures gone { (number : ℕ) (members : NumberedMembers) (paths : NumberedPaths) → All (λ path. is_over number path.item.spec ≡ false) paths → AreOver members paths
        → AreOver (without_member number members) paths }
{}

/// A change has at most as many moves in a path as that has formats, and none where the path isn't over its member. So
/// where the paths have memory for the moves of so many changes and one more, it is left for so many after the change.
pub fn room_falls_by_one_change()
    ensures few { (c : RecordChange) (paths : NumberedPaths) → AreShared paths
        → All (λ path. count_in path.number (moves_in c paths) ≤ (if is_over c.member path.item.spec then length path.item.spec.formats else 0)) paths }
    ensures room { (c : RecordChange) (member changes : ℕ) (old new : KeptPaths) → AreShared old.paths → HaveRoom member (changes + 1) old
        → new.paths ≡ paths_after (moves_in c old.paths) old.paths → ((id : ℕ) → spare_of id old ≤ spare_of id new + count_in id (moves_in c old.paths)) → HaveRoom member changes new }
{}

/// Paths made anew for all paths over a member can take their places, which keeps numbers, specifications and counts, and
/// are then those of the members with the member as it was given.
pub fn rebuilt_paths_are_those_of_the_members()
    ensures ties { (number held : ℕ) (after : NumberedMembers) (paths : NumberedPaths) (rebuilt : List (Numbered EntryList)) → AreShared paths
        → AreRebuilt after held (paths_over number paths) rebuilt → HaveTies rebuilt paths }
    ensures over { (number held : ℕ) (before after : NumberedMembers) (paths : NumberedPaths) (rebuilt : List (Numbered EntryList)) → AreSameBut number before after → AreShared paths
        → AreOver before paths → AreRebuilt after held (paths_over number paths) rebuilt → AreOver after (map (path_with rebuilt) paths) }
    ensures same { (number : ℕ) (member : MemberState) (members : NumberedMembers) → AreSameBut number members (with_member number member members) }
    ensures shared { (paths : NumberedPaths) (rebuilt : List (Numbered EntryList)) → AreShared paths → AreShared (map (path_with rebuilt) paths) }
{}
