//! A range of a member's changes is taken out and put back.
ghost use Rattle.std.specs.Prelude.{◌≡◌, [], ◌∷◌, ◌++◌, Some, None, true, codes};
ghost use Rattle.entry_codec.specs.declared.kinds.EntryKind.TheVariants.{ChangesRemoved, ChangesApplied, CommitCycleStarted, CommitCycleCommitted, RecordAddedAtNumber, BeforeImage, AfterImage, RecordDeleted};
ghost use Rattle.member_slots.specs.declared.slot.Slot.TheVariants.{Deleted};
ghost use Rattle.library_model.specs.declared.requests.RangeEnd.TheVariants.{First, Last, Sequence};
ghost use Rattle.library_model.specs.declared.replies.Reply.TheVariants.{Done, Range, DoesNotFit, Straddled, NoSuchEntry, Gap, InUse};
ghost use Rattle.library_rows.specs.Customers.{cust, no_key, held, customer};
ghost use Rattle.library_rows.specs.Calls.{by, three_customers, opens, close, chain, update, delete, remove, apply};
ghost use Rattle.library_rows.specs.Shown.{slots, entries_behind, told, replies_behind, led_to};
ghost use Rattle.library_rows.specs.Ranges.{spoiled, removed, applied};

/// Three adds, an update and a delete are removed, which deposits its own changes as a commit cycle.
pub fn range_is_removed()
    ensures reply { replies_behind no_key spoiled (by 1 (remove Last First) ∷ []) ≡ Range 3 8 5 ∷ [] }
    ensures slots { slots (led_to no_key removed) ≡ Deleted ∷ Deleted ∷ Deleted ∷ [] }
    ensures entries { entries_behind 8 (led_to no_key removed) ≡
        told None None (ChangesRemoved 3 8 5) ∷ told (Some 10) None CommitCycleStarted ∷ told (Some 10) (Some 2) (RecordAddedAtNumber (held (codes "B")))
        ∷ told (Some 10) (Some 1) (BeforeImage (held (codes "A1"))) ∷ told (Some 10) (Some 1) (AfterImage true (held (codes "A")))
        ∷ told (Some 10) (Some 3) (RecordDeleted (Some (held (codes "C")))) ∷ told (Some 10) (Some 2) (RecordDeleted (Some (held (codes "B"))))
        ∷ told (Some 10) (Some 1) (RecordDeleted (Some (held (codes "A")))) ∷ told (Some 10) None CommitCycleCommitted ∷ [] }
{}

/// It is applied again, which gives the member back.
pub fn range_is_applied()
    ensures reply { replies_behind no_key removed (by 1 (apply (Sequence 3) (Sequence 8)) ∷ []) ≡ Range 3 8 5 ∷ [] }
    ensures slots { slots (led_to no_key applied) ≡ customer (codes "A1") ∷ Deleted ∷ customer (codes "C") ∷ [] }
    ensures entries { entries_behind 17 (led_to no_key applied) ≡
        told None None (ChangesApplied 3 8 5) ∷ told (Some 19) None CommitCycleStarted ∷ told (Some 19) (Some 1) (RecordAddedAtNumber (held (codes "A")))
        ∷ told (Some 19) (Some 2) (RecordAddedAtNumber (held (codes "B"))) ∷ told (Some 19) (Some 3) (RecordAddedAtNumber (held (codes "C")))
        ∷ told (Some 19) (Some 1) (BeforeImage (held (codes "A"))) ∷ told (Some 19) (Some 1) (AfterImage true (held (codes "A1")))
        ∷ told (Some 19) (Some 2) (RecordDeleted (Some (held (codes "B")))) ∷ told (Some 19) None CommitCycleCommitted ∷ [] }
{}

/// What is refused of such ranges.
pub fn ranges_are_refused()
    ensures again { replies_behind no_key applied (by 1 (apply First Last) ∷ []) ≡ DoesNotFit 3 1 ∷ [] }
    ensures straddled { replies_behind no_key applied (by 1 (remove (Sequence 11) (Sequence 11)) ∷ []) ≡ Straddled 10 ∷ [] }
    ensures past_the_last { replies_behind no_key applied (by 1 (remove (Sequence 27) First) ∷ []) ≡ NoSuchEntry ∷ [] }
    ensures gap { replies_behind no_key applied (by 1 (remove (Sequence 8) (Sequence 2)) ∷ []) ≡ Gap 2 ∷ [] }
    ensures in_use { replies_behind no_key applied (by 2 opens ∷ by 1 (remove Last First) ∷ []) ≡ Done ∷ InUse 2 ∷ [] }
{}
