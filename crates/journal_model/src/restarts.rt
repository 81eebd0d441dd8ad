//! Laws of restart: contracts of functions that do nothing.
ghost use Rattle.std.specs.Prelude.{◌≡◌, ℕ, List, [], ◌++◌, Option, IsTrue};
ghost use Rattle.std.specs.List.{AllByRecursion};
ghost use Rattle.entry_codec.specs.declared.entries.Entry.{Entry};
ghost use Rattle.member_slots.specs.declared.slot.Slot.{Slot};
ghost use Rattle.journal_model.specs.Acts.{Act, acts};
ghost use Rattle.journal_model.specs.Places.{HasSameRecords};
ghost use Rattle.journal_model.specs.Replay.{state_at, replay};
ghost use Rattle.journal_model.specs.Replayable.{CanReplay};
ghost use Rattle.journal_model.specs.Settled.{settled};
ghost use Rattle.journal_model.specs.Restart.{restart_acts, all_undone, somethings, all_rollback_acts};
ghost use Rattle.journal_model.specs.Rollback.{MemberChange, of_member, is_real, restart_drafts, numbered_from};
ghost use Rattle.journal_model.specs.Journal.{Journal, start_of, acts_after, state_of, settled_of, restarted};

/// A journal that ends with open commit cycles, and a block that rolls them back, can be replayed. No commit cycle is
/// open then, the slots are those with every open cycle undone, and the settled records are what they were.
pub fn restart_settles()
    ensures replays { (next : ℕ) (slots : List Slot) (journal block : List Act) → CanReplay (state_at next slots) journal
        → somethings block ≡ restart_acts (replay (state_at next slots) journal) → CanReplay (state_at next slots) (journal ++ block) }
    ensures closed { (next : ℕ) (slots : List Slot) (journal block : List Act) → CanReplay (state_at next slots) journal
        → somethings block ≡ restart_acts (replay (state_at next slots) journal) → (replay (state_at next slots) (journal ++ block)).cycles ≡ [] }
    ensures slots { (next : ℕ) (slots : List Slot) (journal block : List Act) → CanReplay (state_at next slots) journal
        → somethings block ≡ restart_acts (replay (state_at next slots) journal)
        → (replay (state_at next slots) (journal ++ block)).slots ≡ all_undone (replay (state_at next slots) journal) }
    ensures settled { (next : ℕ) (slots : List Slot) (journal block : List Act) → CanReplay (state_at next slots) journal
        → somethings block ≡ restart_acts (replay (state_at next slots) journal) → HasSameRecords (settled slots (journal ++ block)) (settled slots journal) }
{}

/// The entries that restart deposits do to each member what undoing its open changes does, wherever they stand. Of each
/// of these changes a record stood there before it or stands there after it.
pub fn restart_entries_undo()
    ensures { (job : Option (List ℕ)) (moment member : ℕ) (cycles : List ℕ) (undos : List MemberChange) (prior : Option Entry) (sequence : ℕ)
        → AllByRecursion (λ (c : MemberChange). IsTrue (is_real c.change)) undos
        → somethings (acts member prior (numbered_from sequence (restart_drafts job moment cycles undos))) ≡ all_rollback_acts cycles (of_member member undos) }
{}

/// A library's journal with the entries of its restart can be replayed for each member. No commit cycle is open then, each
/// member has its slots with every open cycle undone, and its settled records are what they were.
pub fn restart_settles_the_library()
    ensures replays { (job : Option (List ℕ)) (moment : ℕ) (j : Journal) → ((member : ℕ) → CanReplay (start_of j member) (acts_after j member)) → (member : ℕ)
        → CanReplay (start_of (restarted job moment j) member) (acts_after (restarted job moment j) member) }
    ensures closed { (job : Option (List ℕ)) (moment : ℕ) (j : Journal) → ((member : ℕ) → CanReplay (start_of j member) (acts_after j member)) → (member : ℕ)
        → (state_of (restarted job moment j) member).cycles ≡ [] }
    ensures slots { (job : Option (List ℕ)) (moment : ℕ) (j : Journal) → ((member : ℕ) → CanReplay (start_of j member) (acts_after j member)) → (member : ℕ)
        → (state_of (restarted job moment j) member).slots ≡ all_undone (state_of j member) }
    ensures settled { (job : Option (List ℕ)) (moment : ℕ) (j : Journal) → ((member : ℕ) → CanReplay (start_of j member) (acts_after j member)) → (member : ℕ)
        → HasSameRecords (settled_of (restarted job moment j) member) (settled_of j member) }
{}
