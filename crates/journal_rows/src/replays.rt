//! Journals that are replayed, settled, and taken up again by a restart.
ghost use Rattle.std.specs.Prelude.{◌≡◌, List, [], ◌∷◌, ◌++◌, true, false, codes, take, drop, Some, None};
ghost use Rattle.member_slots.specs.declared.slot.Slot.TheVariants.{Live, Deleted};
ghost use Rattle.journal_model.specs.Replay.{all_moved, state_at};
ghost use Rattle.journal_model.specs.Replayable.{can_replay};
ghost use Rattle.journal_model.specs.Settled.{settled};
ghost use Rattle.journal_model.specs.Restart.{restart_acts};
ghost use Rattle.journal_model.specs.AtSequence.{slot_at};
ghost use Rattle.journal_rows.specs.Journals.{of_one, plain, removed_plain, interleaved, pending, undone_whole, undone_half, half_committed, overtaken, broken, half_kept};
ghost use Rattle.journal_rows.specs.Outcomes.{slots_after, replayed};

/// Journals that can be replayed, and some that can't.
pub fn replayable()
    ensures plain { can_replay (state_at 1 []) (of_one removed_plain) ≡ true }
    ensures interleaved { can_replay (state_at 1 []) (of_one interleaved) ≡ true }
    ensures pending { can_replay (state_at 1 []) (of_one pending) ≡ true }
    ensures undone_whole { can_replay (state_at 1 []) (of_one undone_whole) ≡ true }
    ensures half_kept { can_replay (state_at 1 []) (of_one half_kept) ≡ true }
    ensures broken { can_replay (state_at 1 []) (of_one broken) ≡ true }
    // A record that was changed twice is given the later of its before images.
    ensures undone_half { can_replay (state_at 1 []) (of_one undone_half) ≡ false }
    // A record that an open commit cycle changed is changed outside it, or by another.
    ensures own { can_replay (state_at 1 []) (of_one (overtaken (Some 21))) ≡ true }
    ensures outside { can_replay (state_at 1 []) (of_one (overtaken None)) ≡ false }
    ensures another { can_replay (state_at 1 []) (of_one (overtaken (Some 22))) ≡ false }
    // The entries before are gone, and the checkpoint has another slot.
    ensures checkpoint { can_replay (state_at 6 (slots_after (take 5 plain))) (drop 5 (of_one plain)) ≡ true }
    ensures wrong_checkpoint { can_replay (state_at 6 (Live (codes "A") ∷ [])) (drop 5 (of_one plain)) ≡ false }
{}

/// A rollback in the journal leaves the places that were added, as deleted ones; restart does what the rollback does.
pub fn undone()
    ensures slots { (replayed undone_whole).slots ≡ Live (codes "A") ∷ Live (codes "B") ∷ Live (codes "C") ∷ Deleted ∷ [] }
    ensures closed { (replayed undone_whole).cycles ≡ [] }
    ensures pending { (replayed pending).slots ≡ Deleted ∷ Live (codes "B2") ∷ Live (codes "C") ∷ Live (codes "D") ∷ [] }
    ensures open { (replayed pending).cycles ≡ 7 ∷ [] }
    ensures restarted { all_moved (replayed pending).slots (restart_acts (replayed pending)) ≡ (replayed undone_whole).slots }
    ensures replays { can_replay (state_at 1 []) (of_one pending ++ restart_acts (replayed pending)) ≡ true }
{}

/// The settled records have what is committed, and what is outside commitment control.
pub fn settled_records()
    ensures interleaved { settled [] (of_one interleaved) ≡ Live (codes "A2") ∷ Live (codes "B3") ∷ [] }
    ensures half_committed { settled [] (of_one half_committed) ≡ Live (codes "A2") ∷ Live (codes "B") ∷ [] }
    ensures pending { settled [] (of_one pending) ≡ Live (codes "A") ∷ Live (codes "B") ∷ Live (codes "C") ∷ [] }
    ensures undone_whole { settled [] (of_one undone_whole) ≡ Live (codes "A") ∷ Live (codes "B") ∷ Live (codes "C") ∷ [] }
{}

/// How a record was, by the entries before a sequence and those after it.
pub fn at_sequences()
    ensures known { slot_at 0 (take 5 (of_one plain)) (drop 5 (of_one plain)) ≡ Some (Live (codes "A")) }
    ensures not_yet { slot_at 2 (take 4 (of_one plain)) (drop 4 (of_one plain)) ≡ Some Deleted }
    // The entries before are gone, so the next change of the record tells.
    ensures from_later { slot_at 1 [] (drop 5 (of_one plain)) ≡ Some (Live (codes "B")) }
    ensures untold { slot_at 2 [] (drop 5 (of_one plain)) ≡ None }
    ensures behind_a_break { slot_at 0 (take 4 (of_one broken)) (drop 4 (of_one broken)) ≡ Some Deleted }
    ensures stood { slot_at 0 (take 8 (of_one broken)) (drop 8 (of_one broken)) ≡ Some (Live (codes "B")) }
{}
