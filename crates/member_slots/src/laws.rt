//! Laws of the words by which `member.rt` and `members.rt` say what changes: contracts of functions that do nothing.
ghost use Rattle.std.specs.Prelude.{◌≡◌, ℕ, ◌+◌, ◌≤◌, List, length, Some, None, IsSome, IsTrue, All};
ghost use Rattle.member_slots.specs.declared.slot.Slot.{Slot};
ghost use Rattle.member_slots.specs.declared.slot.Slot.TheVariants.{Live};
ghost use Rattle.member_slots.specs.Member.{MemberState, is_live, appended, changed, reorganized};
ghost use Rattle.member_slots.specs.Members.{NumberedMembers, member_at, with_member, put_member, without_member};
ghost use Rattle.member_slots.specs.Changes.{ChangesSlot, ChangesMember, images};

/// A record is added, and a slot set, at one relative record number alone; a reorganized member has the same records.
pub fn slots_change_alone()
    ensures appended { (member : MemberState) (image : List ℕ) → ChangesSlot member (appended member image) (length member.slots + 1) (Live image) }
    ensures changed { (member : MemberState) (rrn : ℕ) (slot : Slot) → 1 ≤ rrn → rrn ≤ length member.slots → ChangesSlot member (changed member rrn slot) rrn slot }
    ensures reorganized { (member : MemberState) → images (reorganized member) ≡ images member }
    ensures compact { (member : MemberState) → All (λ slot. IsTrue (is_live slot)) (reorganized member).slots }
{}

/// A member is changed, put and taken at one number alone.
pub fn members_change_alone()
    ensures changed { (number : ℕ) (member : MemberState) (members : NumberedMembers) → IsSome (member_at number members) → ChangesMember members (with_member number member members) number (Some member) }
    ensures put { (number : ℕ) (member : MemberState) (members : NumberedMembers) → ChangesMember members (put_member number member members) number (Some member) }
    ensures taken { (number : ℕ) (members : NumberedMembers) → ChangesMember members (without_member number members) number None }
{}
