//! The law that joins the test of an entry with the journals that can be replayed: a contract of a function that does nothing.
ghost use Rattle.std.specs.Prelude.{ℕ, ◌↔◌, IsTrue};
ghost use Rattle.entry_codec.specs.declared.entries.Entry.{Entry};
ghost use Rattle.journal_model.specs.Catalogue.{Descriptions};
ghost use Rattle.journal_model.specs.Journal.{Journal};
ghost use Rattle.journal_replay.specs.SoFar.{CanReplaySoFar, with_entry};
ghost use Rattle.journal_replay.specs.Standing.{Standing, standing_after};
ghost use Rattle.journal_replay.specs.Left.{IsLeft};
ghost use Rattle.journal_replay.specs.Tests.{may_stand_next};

/// Where this is what a journal leaves, an entry passes the test exactly where the journal with it can be replayed so far,
/// and what is left then is what the entry makes of it.
pub fn entries_are_read()
    ensures may { (d : Descriptions) (breaks : ℕ → ℕ) (j : Journal) (s : Standing) → IsLeft d breaks j s → (e : Entry) → IsTrue (may_stand_next d s e) ↔ CanReplaySoFar d (with_entry e j) }
    ensures left { (d : Descriptions) (breaks : ℕ → ℕ) (j : Journal) (s : Standing) → IsLeft d breaks j s → (e : Entry) → IsTrue (may_stand_next d s e) → IsLeft d breaks (with_entry e j) (standing_after e s) }
{}
