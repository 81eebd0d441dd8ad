//! Laws of replay, of the settled records and of restart: contracts of functions that do nothing.
ghost use Rattle.std.specs.Prelude.{◌≡◌, ℕ, List, ◌++◌, None, Some, Ok, IsOkAnd, IsTrue, IsFalse};
ghost use Rattle.std.specs.List.{list_any};
ghost use Rattle.member_slots.specs.declared.slot.Slot.{Slot};
ghost use Rattle.journal_model.specs.Acts.{Act, changes};
ghost use Rattle.journal_model.specs.Places.{slot_of, HasSameRecords};
ghost use Rattle.journal_model.specs.Walks.{numbered, apply, remove};
ghost use Rattle.journal_model.specs.Ranges.{is_break, lacks_before};
ghost use Rattle.journal_model.specs.Replay.{State, state_at, replay, all_moved};
ghost use Rattle.journal_model.specs.Replayable.{CanReplay, can_replay};
ghost use Rattle.journal_model.specs.Settled.{settled};
ghost use Rattle.journal_model.specs.Restart.{all_undone};
ghost use Rattle.journal_model.specs.AtSequence.{IsChained, IsSo, slot_at, known_after, touches, before_break};

/// A journal that passes the test can be replayed.
pub fn test_tells()
    ensures { (s : State) (journal : List Act) → IsTrue (can_replay s journal) → CanReplay s journal }
{}

/// A range without a break of the member that was replayed can be applied to the member as it was before, which gives
/// the member as replaying leaves it. At the journal's end it can be removed, where each before side is there.
pub fn replayed_range_fits()
    ensures applied { (range : List Act) (s : State) (first : ℕ) → CanReplay s range → IsFalse (list_any is_break range) → apply (numbered first range) s.slots ≡ Ok (all_moved s.slots range) }
    ensures removed { (range : List Act) (s : State) (first : ℕ) → CanReplay s range → IsFalse (list_any is_break range) → IsFalse (list_any lacks_before (numbered first range))
        → IsOkAnd (remove (numbered first range) (all_moved s.slots range)) (λ given. HasSameRecords given s.slots) }
{}

/// In a journal that can be replayed the entries of each record follow one from the other.
pub fn replayed_records_are_chained()
    ensures kept { (place : ℕ) (s : State) (journal : List Act) → CanReplay s journal → IsChained place None journal }
    ensures from_checkpoint { (place : ℕ) (s : State) (journal : List Act) → CanReplay s journal → IsChained place (Some (slot_of s.slots place)) journal }
{}

/// Replaying a journal, and then undoing each open commit cycle backwards, leaves the settled records.
pub fn undoing_settles()
    ensures { (next : ℕ) (slots : List Slot) (journal : List Act) → CanReplay (state_at next slots) journal
        → HasSameRecords (all_undone (replay (state_at next slots) journal)) (settled slots journal) }
{}

/// What the journal tells of a record at a sequence is its slot when the entries up to there are replayed. Entries kept
/// from before the checkpoint tell nothing else of the record than the checkpoint; the record is changed after the
/// sequence, before the next break of the member.
pub fn slots_at_sequences()
    ensures { (place : ℕ) (before replayed later : List Act) (s : State) (slot : Slot) → IsSo (known_after place None before) (slot_of s.slots place)
        → CanReplay s (replayed ++ later) → IsTrue (touches place (changes (before_break later))) → slot_at place (before ++ replayed) later ≡ Some slot
        → slot ≡ slot_of (replay s replayed).slots place }
{}
