//! Ranges that are removed and applied.
ghost use Rattle.std.specs.Prelude.{◌≡◌, List, [], ◌∷◌, Err, codes};
ghost use Rattle.member_slots.specs.declared.slot.Slot.TheVariants.{Live, Deleted};
ghost use Rattle.journal_model.specs.Walks.{Straddled, Gap, NotRemovable, NeedsBoth, DoesNotFit};
ghost use Rattle.journal_model.specs.Ranges.{first_of, last_of};
ghost use Rattle.journal_rows.specs.Journals.{of_one, plain, removed_plain, interleaved, after_only, half_kept, broken, of_another, misplaced};
ghost use Rattle.journal_rows.specs.Outcomes.{outcome, removed, applied, slots_after};

/// Three adds, an update and a delete are removed, and applied again.
pub fn plain_range()
    ensures slots { slots_after plain ≡ Live (codes "A1") ∷ Deleted ∷ Live (codes "C") ∷ [] }
    ensures first { first_of 1 (of_one plain) ≡ 3 }
    ensures last { last_of 1 (of_one plain) ≡ 8 }
    ensures removed { removed 3 8 plain (slots_after plain) ≡ outcome 3 8 5 (Deleted ∷ Deleted ∷ Deleted ∷ []) }
    ensures applied { applied 3 8 removed_plain (slots_after removed_plain) ≡ outcome 3 8 5 (Live (codes "A1") ∷ Deleted ∷ Live (codes "C") ∷ []) }
    // The range begins between the update and its before image.
    ensures between { removed 7 8 plain (slots_after plain) ≡ outcome 7 8 2 (Live (codes "A") ∷ Live (codes "B") ∷ Live (codes "C") ∷ []) }
{}

/// The removal's own changes are one commit cycle; a range that has a part of it alone is straddled.
pub fn plain_refusals()
    ensures applied_twice { applied 3 8 plain (slots_after plain) ≡ Err (DoesNotFit 3 1) }
    ensures applied_to_the_end { applied 3 17 removed_plain (Live (codes "A1") ∷ Deleted ∷ Live (codes "C") ∷ []) ≡ Err (DoesNotFit 3 1) }
    ensures straddled { removed 11 11 removed_plain (slots_after removed_plain) ≡ Err (Straddled 10) }
    ensures gap { removed 2 8 removed_plain (slots_after removed_plain) ≡ Err (Gap 2) }
    // Only the place one past the end counts as deleted.
    ensures past_end { applied 4 4 plain [] ≡ Err (DoesNotFit 4 2) }
    ensures past_end_removed { removed 5 5 plain (Live (codes "A") ∷ []) ≡ Err (DoesNotFit 5 3) }
{}

/// Two commit cycles run interleaved, one committed before them.
pub fn interleaved_ranges()
    ensures slots { slots_after interleaved ≡ Live (codes "A2") ∷ Live (codes "B3") ∷ [] }
    // The first cycle is cut by the range, so its commit entry is where the closed part begins.
    ensures removed { removed 9 20 interleaved (slots_after interleaved) ≡ outcome 10 20 3 (Live (codes "A1") ∷ Live (codes "B") ∷ []) }
    ensures applied { applied 10 20 interleaved (Live (codes "A1") ∷ Live (codes "B") ∷ []) ≡ outcome 10 20 3 (Live (codes "A2") ∷ Live (codes "B3") ∷ []) }
    ensures one_change { removed 15 16 interleaved (slots_after interleaved) ≡ Err (Straddled 14) }
    // The commit of the second lies outside, so nothing of the range is closed, though the first is whole.
    ensures commit_outside { removed 11 19 interleaved (slots_after interleaved) ≡ Err (Straddled 14) }
    ensures changed_later { removed 7 10 interleaved (slots_after interleaved) ≡ Err (DoesNotFit 9 1) }
    ensures gap { removed 2 10 interleaved (slots_after interleaved) ≡ Err (Gap 2) }
    // Applying stops before the first change of a cycle that doesn't end in the range.
    ensures applied_in_front { applied 3 16 interleaved [] ≡ outcome 3 12 3 (Live (codes "A1") ∷ Live (codes "B") ∷ []) }
    ensures nothing_in_front { applied 12 20 interleaved (slots_after interleaved) ≡ Err (Straddled 11) }
    ensures no_changes { removed 5 6 interleaved (slots_after interleaved) ≡ outcome 5 6 0 (Live (codes "A2") ∷ Live (codes "B3") ∷ []) }
    // A cycle that changed no record of the member isn't asked for.
    ensures of_another { removed 4 5 of_another (Live (codes "A") ∷ []) ≡ outcome 4 5 1 (Deleted ∷ []) }
{}

/// Before images that aren't there, and breaks of the member. Each refusal comes before the next one of its list.
pub fn refusals()
    ensures needs_both { removed 3 4 after_only (Live (codes "B") ∷ []) ≡ Err (NeedsBoth 4) }
    ensures applied_without { applied 3 4 after_only (Deleted ∷ []) ≡ outcome 3 4 2 (Live (codes "B") ∷ []) }
    // Any live slot meets a before side that the journal lacks, and a deleted one doesn't.
    ensures applied_to_live { applied 4 4 after_only (Live (codes "Z") ∷ []) ≡ outcome 4 4 1 (Live (codes "B") ∷ []) }
    ensures applied_to_deleted { applied 4 4 after_only (Deleted ∷ []) ≡ Err (DoesNotFit 4 1) }
    ensures needs_both_first { removed 3 6 half_kept (Live (codes "Z") ∷ []) ≡ Err (NeedsBoth 4) }
    ensures of_another_record { removed 5 5 misplaced (Live (codes "B") ∷ []) ≡ Err (NeedsBoth 5) }
    ensures does_not_fit { removed 5 6 half_kept (Live (codes "Z") ∷ []) ≡ Err (DoesNotFit 6 1) }
    ensures not_removable { removed 3 5 broken (Live (codes "B") ∷ []) ≡ Err (NotRemovable 4) }
    ensures not_applicable { applied 3 5 broken [] ≡ Err (NotRemovable 4) }
    ensures gap_first { applied 3 9 broken [] ≡ Err (Gap 6) }
    ensures gap_first_back { removed 3 9 broken (Live (codes "B") ∷ []) ≡ Err (Gap 8) }
    ensures reorganized { removed 9 10 broken (Live (codes "C") ∷ []) ≡ Err (NotRemovable 10) }
    ensures first { first_of 1 (of_one broken) ≡ 11 }
    ensures kept_later { first_of 3 [] ≡ 3 }
{}
