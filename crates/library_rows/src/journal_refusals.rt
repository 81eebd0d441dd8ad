//! What is refused of the commands on receivers, checkpoints and entries; where two refusals hold, the one that comes first.
ghost use Rattle.std.specs.Prelude.{◌≡◌, [], ◌∷◌, ◌++◌, codes};
ghost use Rattle.library_model.specs.declared.requests.Request.TheVariants as request;
ghost use Rattle.library_model.specs.declared.requests.RangeEnd.TheVariants.{First, Last, Sequence};
ghost use Rattle.library_model.specs.declared.replies.Reply.TheVariants.{NoSuchName, InUse, NotJournaled, NoSuchEntry, StillNeeded, PendingChanges, ReceiverGone, Straddled, Gap, NotRemovable, NeedsBoth, DoesNotFit, DuplicateKey, LimitReached, Receiver};
ghost use Rattle.library_model.specs.declared.replies.Missing.TheVariants as missing;
ghost use Rattle.library_model.specs.declared.replies.LimitKind.TheVariants.{Sequences, Receivers, DisplayEntries, LibraryBytes};
ghost use Rattle.library_rows.specs.Customers.{cust, no_key, by_name, library};
ghost use Rattle.library_rows.specs.Calls.{by, three_customers, opens, close, apply, remove};
ghost use Rattle.library_rows.specs.Shown.{replies_behind, led_to};
ghost use Rattle.library_rows.specs.Cycles.{pending};
ghost use Rattle.library_rows.specs.KeyedCalls.{added_again};
ghost use Rattle.library_rows.specs.MemberCalls.{after_alone};
ghost use Rattle.library_rows.specs.Brimming.{replies_from, gone_by, worn_out, receiver_attached, long_journal, with_another, in_cycle, four_bytes_left};
ghost use Rattle.library_rows.specs.RefusedCalls.{none, give_up, display, apply_in, remove_in, closed_customers, journaled_twice, cleared_at_once, cleared_later, deleted_later};

/// CHGJRN: the last sequence, the last receiver.
pub fn receiver_is_not_attached()
    ensures sequences { replies_from (receiver_attached 100000 (worn_out (library no_key))) (by 1 request.ChangeJournal ∷ []) ≡
        LimitReached Sequences 4611686018427387903 ∷ [] }
    ensures receivers { replies_from (receiver_attached 100000 (library no_key)) (by 1 request.ChangeJournal ∷ []) ≡
        LimitReached Receivers 100000 ∷ [] }
    ensures last_receiver { replies_from (receiver_attached 99999 (library no_key)) (by 1 request.ChangeJournal ∷ []) ≡
        Receiver 100000 ∷ [] }
{}

/// DLTJRNRCV: a receiver that was never made, the one that is attached, one with an entry after the checkpoint.
pub fn receiver_is_not_given_up()
    ensures never_made { replies_from (library no_key) (by 1 (give_up 0) ∷ by 1 (give_up 2) ∷ []) ≡
        NoSuchName (missing.Receiver 0) ∷ NoSuchName (missing.Receiver 2) ∷ [] }
    ensures attached { replies_from (library no_key) (by 1 (give_up 1) ∷ []) ≡ StillNeeded 1 ∷ [] }
    ensures after_the_checkpoint { replies_behind no_key
        (by 1 request.Checkpoint ∷ by 1 request.ChangeJournal ∷ []) (by 1 (give_up 1) ∷ []) ≡
        StillNeeded 2 ∷ [] }
{}

/// CHKPT: the least open commit cycle, the least member whose changes no entry tells.
pub fn checkpoint_is_refused()
    ensures pending { replies_from (with_another [] 2 (led_to no_key pending)) (by 2 request.Checkpoint ∷ []) ≡ PendingChanges 7 ∷ [] }
    ensures least_cycle { replies_from (in_cycle 1 9 [] (in_cycle 2 7 [] (library no_key))) (by 1 request.Checkpoint ∷ []) ≡
        PendingChanges 7 ∷ [] }
    ensures least_member { replies_from (with_another [] 3 (with_another [] 2 (with_another [] 4 (library no_key))))
        (by 1 request.Checkpoint ∷ []) ≡
        NotJournaled 2 ∷ [] }
{}

/// DSPJRN: no such entries, too many of them, a receiver that is gone.
pub fn entries_are_not_shown()
    ensures no_entries { replies_from (library no_key) (by 1 (display 0 1) ∷ by 1 (display 1 2) ∷ by 1 (display 1 0) ∷ []) ≡
        NoSuchEntry ∷ NoSuchEntry ∷ NoSuchEntry ∷ [] }
    ensures past_the_last { replies_from long_journal (by 1 (display 5 161) ∷ []) ≡ NoSuchEntry ∷ [] }
    ensures entries { replies_from long_journal (by 1 (display 5 105) ∷ by 1 (display 11 111) ∷ []) ≡
        LimitReached DisplayEntries 100 ∷ LimitReached DisplayEntries 100 ∷ [] }
    ensures receiver { replies_from long_journal (by 1 (display 5 104) ∷ by 1 (display 10 11) ∷ []) ≡
        ReceiverGone 11 ∷ ReceiverGone 11 ∷ [] }
{}

/// APYJRNCHG and RMVJRNCHG: what is refused before the range is gone through.
pub fn range_is_not_named()
    ensures sequences { replies_from (worn_out (library no_key)) (by 1 (apply_in none none First Last) ∷ by 1 (remove_in none none Last First) ∷ []) ≡
        LimitReached Sequences 4611686018427387903 ∷ LimitReached Sequences 4611686018427387903 ∷ [] }
    ensures no_file { replies_from (library no_key) (by 1 (apply_in none none First Last) ∷ by 1 (remove_in none none Last First) ∷ []) ≡
        NoSuchName (missing.Name none) ∷ NoSuchName (missing.Name none) ∷ [] }
    ensures no_member { replies_behind no_key (by 2 opens ∷ []) (by 1 (apply_in cust none First Last) ∷ by 1 (remove_in cust none Last First) ∷ []) ≡
        NoSuchName (missing.Name none) ∷ NoSuchName (missing.Name none) ∷ [] }
    ensures in_use { replies_behind no_key (by 2 opens ∷ []) (by 1 (apply First Last) ∷ by 1 (remove Last First) ∷ []) ≡
        InUse 2 ∷ InUse 2 ∷ [] }
    ensures not_journaled { replies_from (library no_key)
        (by 1 (apply (Sequence 0) (Sequence 9)) ∷ by 1 (remove (Sequence 9) (Sequence 0)) ∷ []) ≡
        NotJournaled 1 ∷ NotJournaled 1 ∷ [] }
    ensures no_entries { replies_from (gone_by 10 (led_to no_key closed_customers))
        (by 1 (apply (Sequence 5) (Sequence 16)) ∷ by 1 (remove (Sequence 16) (Sequence 5)) ∷ []) ≡
        NoSuchEntry ∷ NoSuchEntry ∷ [] }
    ensures receiver { replies_from (gone_by 10 (led_to no_key journaled_twice))
        (by 1 (apply (Sequence 10) (Sequence 15)) ∷ by 1 (remove (Sequence 15) (Sequence 10)) ∷ []) ≡
        ReceiverGone 11 ∷ ReceiverGone 11 ∷ [] }
    ensures kept { replies_from (gone_by 10 (led_to no_key journaled_twice))
        (by 1 (apply (Sequence 11) (Sequence 15)) ∷ by 1 (remove (Sequence 15) (Sequence 11)) ∷ []) ≡
        Straddled 4 ∷ Straddled 4 ∷ [] }
{}

/// What is refused where it is gone through: a cut commit cycle, the journaling's beginning or end, places that moved, an image that is missing.
pub fn range_is_not_gone_through()
    ensures straddled { replies_behind no_key journaled_twice
        (by 1 (apply (Sequence 2) (Sequence 5)) ∷ by 1 (remove (Sequence 8) (Sequence 5)) ∷ []) ≡
        Straddled 4 ∷ Straddled 4 ∷ [] }
    ensures gap { replies_behind no_key cleared_at_once
        (by 1 (apply (Sequence 2) (Sequence 3)) ∷ by 1 (remove (Sequence 3) (Sequence 2)) ∷ []) ≡
        Gap 2 ∷ Gap 2 ∷ [] }
    ensures ended { replies_behind no_key journaled_twice
        (by 1 (apply (Sequence 6) (Sequence 8)) ∷ by 1 (remove (Sequence 8) (Sequence 6)) ∷ []) ≡
        Gap 7 ∷ Gap 8 ∷ [] }
    ensures moved { replies_behind no_key cleared_later
        (by 1 (apply (Sequence 3) (Sequence 5)) ∷ by 1 (remove (Sequence 5) (Sequence 3)) ∷ []) ≡
        NotRemovable 5 ∷ NotRemovable 5 ∷ [] }
    ensures no_image { replies_behind no_key deleted_later (by 1 (remove (Sequence 4) (Sequence 3)) ∷ []) ≡ NeedsBoth 4 ∷ [] }
    ensures unfit { replies_behind no_key after_alone (by 1 (apply (Sequence 3) (Sequence 4)) ∷ []) ≡ DoesNotFit 3 1 ∷ [] }
{}

/// What is refused of what it leaves: too many bytes, a key twice.
pub fn range_is_not_left()
    ensures bytes { replies_from (four_bytes_left (led_to by_name added_again)) (by 1 (apply (Sequence 3) (Sequence 3))
        ∷ by 1 (remove (Sequence 4) (Sequence 4)) ∷ []) ≡
        LimitReached LibraryBytes 1073741824 ∷ LimitReached LibraryBytes 1073741824 ∷ [] }
    ensures key { replies_behind by_name added_again
        (by 1 (apply (Sequence 3) (Sequence 3)) ∷ by 1 (remove (Sequence 4) (Sequence 4)) ∷ []) ≡
        DuplicateKey cust 1 ∷ DuplicateKey cust 1 ∷ [] }
{}
