//! A commit cycle of updates, an add and a delete: what it deposits, what a rollback gives back, and what waits for its end.
ghost use Rattle.std.specs.Prelude.{◌≡◌, [], ◌∷◌, ◌++◌, Some, None, true, false, codes};
ghost use Rattle.commit_level.specs.declared.Level.TheVariants.{Chg};
ghost use Rattle.entry_codec.specs.declared.kinds.EntryKind.TheVariants.{CommitmentStarted, CommitCycleStarted, CommitCycleRolledBack, CommitCycleCommitted, RecordAdded, BeforeImage, AfterImage, RecordDeleted, UndoBeforeImage, UndoAfterImage, UndoDelete};
ghost use Rattle.member_slots.specs.declared.slot.Slot.TheVariants.{Deleted};
ghost use Rattle.library_model.specs.declared.requests.Request.TheVariants as request;
ghost use Rattle.library_model.specs.declared.requests.RangeEnd.TheVariants.{Sequence};
ghost use Rattle.library_model.specs.declared.replies.Reply.TheVariants.{Done, Added, PendingChanges, AlreadyStarted, Range, Straddled, DoesNotFit, Gap, NoSuchEntry, NoDefinition};
ghost use Rattle.library_rows.specs.Customers.{cust, no_key, held, customer};
ghost use Rattle.library_rows.specs.Calls.{by, start_commitment, remove, apply};
ghost use Rattle.library_rows.specs.Shown.{slots, locked, lock, entries_behind, told, replies_behind, led_to};
ghost use Rattle.library_rows.specs.Cycles.{pending, rolled_back, interleaved, taken_out};

/// What the changes of the cycle deposit, and what is refused while it is open.
pub fn cycle_is_open()
    ensures entries { entries_behind 5 (led_to no_key pending) ≡
        told None None (CommitmentStarted Chg) ∷ told (Some 7) None CommitCycleStarted
        ∷ told (Some 7) (Some 2) (BeforeImage (held (codes "B"))) ∷ told (Some 7) (Some 2) (AfterImage true (held (codes "B1")))
        ∷ told (Some 7) (Some 2) (BeforeImage (held (codes "B1"))) ∷ told (Some 7) (Some 2) (AfterImage true (held (codes "B2")))
        ∷ told (Some 7) (Some 4) (RecordAdded (held (codes "D"))) ∷ told (Some 7) (Some 1) (RecordDeleted (Some (held (codes "A")))) ∷ [] }
    ensures locks { locked (led_to no_key pending) ≡ lock 1 1 ∷ lock 1 2 ∷ lock 1 4 ∷ [] }
    ensures refused { replies_behind no_key pending (by 1 request.EndCommitment ∷ by 1 (start_commitment Chg) ∷ by 1 request.Checkpoint ∷ by 2 request.Commit ∷ []) ≡
        PendingChanges 7 ∷ AlreadyStarted ∷ PendingChanges 7 ∷ NoDefinition ∷ [] }
{}

/// It is rolled back: the last change first; the place of the added record stays.
pub fn cycle_is_rolled_back()
    ensures entries { entries_behind 13 (led_to no_key rolled_back) ≡
        told (Some 7) (Some 1) (UndoAfterImage false (held (codes "A"))) ∷ told (Some 7) (Some 4) (UndoDelete (held (codes "D")))
        ∷ told (Some 7) (Some 2) (UndoBeforeImage (held (codes "B2"))) ∷ told (Some 7) (Some 2) (UndoAfterImage true (held (codes "B1")))
        ∷ told (Some 7) (Some 2) (UndoBeforeImage (held (codes "B1"))) ∷ told (Some 7) (Some 2) (UndoAfterImage true (held (codes "B")))
        ∷ told (Some 7) None CommitCycleRolledBack ∷ [] }
    ensures slots { slots (led_to no_key rolled_back) ≡ customer (codes "A") ∷ customer (codes "B") ∷ customer (codes "C") ∷ Deleted ∷ [] }
    ensures locks { locked (led_to no_key rolled_back) ≡ [] }
{}

/// Two jobs' cycles run interleaved; a range that cuts an earlier one is removed up to there, and applied again.
pub fn cycles_are_taken_out()
    ensures slots { slots (led_to no_key interleaved) ≡ customer (codes "A2") ∷ customer (codes "B3") ∷ [] }
    ensures removed { replies_behind no_key interleaved (by 1 (remove (Sequence 20) (Sequence 9)) ∷ []) ≡ Range 10 20 3 ∷ [] }
    ensures left { slots (led_to no_key taken_out) ≡ customer (codes "A1") ∷ customer (codes "B") ∷ [] }
    ensures applied { replies_behind no_key taken_out (by 1 (apply (Sequence 10) (Sequence 20)) ∷ []) ≡ Range 10 20 3 ∷ [] }
    ensures refused { replies_behind no_key (taken_out ++ by 1 (apply (Sequence 10) (Sequence 20)) ∷ [])
        (by 1 (remove (Sequence 16) (Sequence 15)) ∷ by 1 (remove (Sequence 10) (Sequence 7)) ∷ by 1 (remove (Sequence 10) (Sequence 2)) ∷ by 1 (remove (Sequence 39) (Sequence 3)) ∷ []) ≡
        Straddled 14 ∷ DoesNotFit 9 1 ∷ Gap 2 ∷ NoSuchEntry ∷ [] }
{}
