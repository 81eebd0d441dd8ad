//! Laws of ranges that are removed and applied: contracts of functions that do nothing.
ghost use Rattle.std.specs.Prelude.{◌≡◌, ℕ, ◌+◌, ◌-◌, ◌<◌, ◌≤◌, List, ◌++◌, length, take, None, Some, Ok, IsOkAnd, IsTrue, IsFalse};
ghost use Rattle.std.specs.List.{list_any};
ghost use Rattle.member_slots.specs.declared.slot.Slot.{Slot};
ghost use Rattle.journal_model.specs.Acts.{Act, changes};
ghost use Rattle.journal_model.specs.Places.{slot_of, HasSameRecords};
ghost use Rattle.journal_model.specs.Walks.{Numbered, numbered, apply, remove, ◌then◌};
ghost use Rattle.journal_model.specs.Closed.{is_closed, closed_prefix, closed_suffix, last};
ghost use Rattle.journal_model.specs.Parts.{applied_part, not_applied, removed_part, not_removed};
ghost use Rattle.journal_model.specs.Ranges.{is_break, lacks_before, RangeDone, apply_range, remove_range, RemovesWhole};
ghost use Rattle.journal_model.specs.Replay.{State, all_moved};
ghost use Rattle.journal_model.specs.Replayable.{CanReplay};
ghost use Rattle.journal_model.specs.AtSequence.{slot_at, touches, IsChained};

/// A closed range behind a closed range is closed.
pub fn closed_ranges_join()
    ensures { (range rest : List Act) → IsTrue (is_closed range) → IsTrue (is_closed rest) → IsTrue (is_closed (range ++ rest)) }
{}

/// The closed part at either end of a range is closed, and no longer part at that end is.
pub fn closed_part_is_longest()
    ensures prefix { (range : List Act) → IsTrue (is_closed (take (closed_prefix range) range)) }
    ensures longer_prefix { (range : List Act) (n : ℕ) → closed_prefix range < n → n ≤ length range → IsFalse (is_closed (take n range)) }
    ensures suffix { (range : List Act) → IsTrue (is_closed (last (closed_suffix range) range)) }
    ensures longer_suffix { (range : List Act) (n : ℕ) → closed_suffix range < n → n ≤ length range → IsFalse (is_closed (last n range)) }
{}

/// Changes are applied from the first on and removed from the last on, in parts as in whole; a part that doesn't fit
/// ends it there.
pub fn walks_go_in_parts()
    ensures applied { (front rest : List Numbered) (slots : List Slot) → apply (front ++ rest) slots ≡ apply front slots then apply rest }
    ensures removed { (front rest : List Numbered) (slots : List Slot) → remove (front ++ rest) slots ≡ remove rest slots then remove front }
{}

/// Changes that were removed can be applied again, which gives the member back slot by slot. Changes that were applied
/// can be removed where each before side is there, which gives its records back; the place of an added record stays.
pub fn each_way_undoes_the_other()
    ensures removed { (changes : List Numbered) (slots after : List Slot) → remove changes slots ≡ Ok after → apply changes after ≡ Ok slots }
    ensures applied { (changes : List Numbered) (slots after : List Slot) → apply changes slots ≡ Ok after → IsFalse (list_any lacks_before changes)
        → IsOkAnd (remove changes after) (λ given. HasSameRecords given slots) }
{}

/// A removal leaves each record that the range changes as it was at the sequence before the range, and every other
/// record as it is. The range has no break of the member, and the entries of each record follow one from the other.
pub fn removal_goes_back()
    ensures touched { (place first : ℕ) (before range after : List Act) (slots given : List Slot) → IsChained place None (before ++ (range ++ after)) → IsFalse (list_any is_break range)
        → remove (numbered first range) slots ≡ Ok given → IsTrue (touches place (changes range)) → slot_at place before (range ++ after) ≡ Some (slot_of given place) }
    ensures others { (place first : ℕ) (range : List Act) (slots given : List Slot) → remove (numbered first range) slots ≡ Ok given → IsFalse (touches place (changes range))
        → slot_of given place ≡ slot_of slots place }
{}

/// Applying leaves each record that the range changes as it was at the last sequence of the range, and every other
/// record as it is.
pub fn applying_goes_forward()
    ensures touched { (place first : ℕ) (before range after : List Act) (slots given : List Slot) → IsFalse (list_any is_break range)
        → apply (numbered first range) slots ≡ Ok given → IsTrue (touches place (changes range)) → slot_at place (before ++ range) after ≡ Some (slot_of given place) }
    ensures others { (place first : ℕ) (range : List Act) (slots given : List Slot) → apply (numbered first range) slots ≡ Ok given → IsFalse (touches place (changes range))
        → slot_of given place ≡ slot_of slots place }
{}

/// The same of the two commands, where they aren't refused: of the closed part, which has no break then.
pub fn commands_go_back_and_forward()
    ensures removed { (place first : ℕ) (before range after : List Act) (slots : List Slot) (done : RangeDone) → IsChained place None (before ++ (range ++ after))
        → remove_range first range slots ≡ Ok done → IsTrue (touches place (changes (removed_part range)))
        → slot_at place (before ++ not_removed range) (removed_part range ++ after) ≡ Some (slot_of done.slots place) }
    ensures not_removed { (place first : ℕ) (range : List Act) (slots : List Slot) (done : RangeDone) → remove_range first range slots ≡ Ok done
        → IsFalse (touches place (changes (removed_part range))) → slot_of done.slots place ≡ slot_of slots place }
    ensures applied { (place first : ℕ) (before range after : List Act) (slots : List Slot) (done : RangeDone) → apply_range first range slots ≡ Ok done
        → IsTrue (touches place (changes (applied_part range))) → slot_at place (before ++ applied_part range) (not_applied range ++ after) ≡ Some (slot_of done.slots place) }
    ensures not_applied { (place first : ℕ) (range : List Act) (slots : List Slot) (done : RangeDone) → apply_range first range slots ≡ Ok done
        → IsFalse (touches place (changes (applied_part range))) → slot_of done.slots place ≡ slot_of slots place }
{}

/// A closed range at the journal's end, without a break of the member and with each before side there, is removed whole
/// and gives back the records from which it was replayed.
pub fn closed_range_is_removed_whole()
    ensures { (first : ℕ) (range : List Act) (s : State) → CanReplay s range → IsTrue (is_closed range) → IsFalse (list_any is_break range)
        → IsFalse (list_any lacks_before (numbered first range)) → IsOkAnd (remove_range first range (all_moved s.slots range)) (λ done. RemovesWhole first range s.slots done) }
{}
