//! The laws of a journal that is read entry by entry: contracts of functions that do nothing.
ghost use Rattle.std.specs.Prelude.{ℕ, ◌↔◌, is_none, IsTrue};
ghost use Rattle.entry_codec.specs.declared.entries.Entry.{Entry};
ghost use Rattle.journal_model.specs.Catalogue.{Descriptions};
ghost use Rattle.journal_model.specs.Journal.{Journal, StaysMembers, CanReplayJournal};
ghost use Rattle.journal_replay.specs.SoFar.{CanReplaySoFar, EndsWhole, with_entry, AreWithinLimits, MayComeNext};
ghost use Rattle.journal_replay.specs.Standing.{Standing, standing_after, MayStandNext};
ghost use Rattle.journal_replay.specs.Left.{IsLeft, empty_journal, empty_standing};
ghost use Rattle.journal_replay.specs.Tests.{may_stand_next};

/// A journal with an entry more can be replayed exactly where it can be without it and the entry may come next. The limits
/// of members, and pairs of images that are open at the end, are apart.
pub fn entries_come_one_by_one()
    ensures next { (d : Descriptions) (j : Journal) (e : Entry) → CanReplaySoFar d (with_entry e j) ↔ (CanReplaySoFar d j × MayComeNext d j e) }
    ensures limits { (d : Descriptions) (j : Journal) (e : Entry) → StaysMembers d (with_entry e j) ↔ (StaysMembers d j × AreWithinLimits d (with_entry e j)) }
    ensures whole { (d : Descriptions) (j : Journal) → CanReplayJournal d j ↔ (CanReplaySoFar d j × EndsWhole j × StaysMembers d j) }
{}

/// What a journal leaves tells whether an entry may come next, and what it leaves with the entry.
pub fn what_is_left_tells()
    ensures next { (d : Descriptions) (breaks : ℕ → ℕ) (j : Journal) (s : Standing) → IsLeft d breaks j s → (e : Entry) → CanReplaySoFar d (with_entry e j) ↔ MayStandNext d s e }
    ensures left { (d : Descriptions) (breaks : ℕ → ℕ) (j : Journal) (s : Standing) → IsLeft d breaks j s → (e : Entry) → MayStandNext d s e → IsLeft d breaks (with_entry e j) (standing_after e s) }
{}

/// The test of a standing is passed by exactly the entries that may come next.
pub fn test_tells()
    ensures { (d : Descriptions) (s : Standing) (e : Entry) → IsTrue (may_stand_next d s e) ↔ MayStandNext d s e }
{}

/// No pair of images waits for its second entry at a journal's end exactly where none is left begun.
pub fn pairs_are_whole()
    ensures { (d : Descriptions) (breaks : ℕ → ℕ) (j : Journal) (s : Standing) → IsLeft d breaks j s → EndsWhole j ↔ IsTrue (is_none s.begun) }
{}

/// What the empty journal leaves: it can be replayed, and nothing is there.
pub fn empty_journal_leaves_nothing()
    ensures { (d : Descriptions) → IsLeft d (λ _. 0) empty_journal empty_standing }
{}
