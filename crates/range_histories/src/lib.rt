//! What APYJRNCHG and RMVJRNCHG make of a member's records, by the journal alone. Begin with `specs/Ranges.antt`.
#![tactic(auto)]

ghost use Rattle.std.specs.Prelude.{◌≡◌, ℕ, Err, List};
ghost use Rattle.member_slots.specs.declared.slot.Slot.{Slot};
ghost use Rattle.journal_model.specs.Walks.{Numbered, RangeFault, apply, remove};
ghost use Rattle.library_model.specs.declared.requests.JournaledChanges.{JournaledChanges};
ghost use Rattle.library_steps.specs.State.{State};
ghost use Rattle.library_steps.specs.Change.{Change};
ghost use Rattle.range_histories.specs.Ranges.{GoesBack, GoesForward, AppliesAgain};
ghost use Rattle.range_histories.specs.Stops.{StopsGoingBack, StopsGoingForward};

/// A removal takes each record of its range back to the sequence before the range, by what the journal tells of it.
pub fn removed_ranges_go_back()
    ensures { (s : State) (args : JournaledChanges) (done : Change) → GoesBack s args done }
{}

/// Applying takes each record of its range on to the last sequence of the range.
pub fn applied_ranges_go_forward()
    ensures { (s : State) (args : JournaledChanges) (done : Change) → GoesForward s args done }
{}

/// A removal that is applied again gives all members back, slot by slot.
pub fn a_removed_range_is_applied_again()
    ensures { (s : State) (args : JournaledChanges) (removal application : Change) (lo hi count : ℕ) → AppliesAgain s args removal application lo hi count }
{}

/// A fault that a walk finds is that of the first change in its order that doesn't fit: all that the walk went through
/// before it did.
pub fn refused_walks_name_the_first()
    ensures removed { (changes : List Numbered) (slots : List Slot) (fault : RangeFault) → remove changes slots ≡ Err fault → StopsGoingBack changes slots fault }
    ensures applied { (changes : List Numbered) (slots : List Slot) (fault : RangeFault) → apply changes slots ≡ Err fault → StopsGoingForward changes slots fault }
{}
