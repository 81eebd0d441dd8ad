//! What is refused of WRITE, UPDATE and DELETE; where two refusals hold, the one that comes first.
ghost use Rattle.std.specs.Prelude.{◌≡◌, [], ◌∷◌, ◌++◌, replicate, codes};
ghost use Rattle.field_types.specs.declared.faults.RecordFault.TheVariants.{Count, BadField};
ghost use Rattle.field_types.specs.declared.faults.ValueFault.TheVariants.{TooWide};
ghost use Rattle.library_model.specs.declared.replies.Reply.TheVariants.{Done, NoSuchName, WrongOpen, BadValue, NotFound, PlaceInUse, RecordInUse, HeldByGroup, MemberFull, DuplicateKey, NoCurrentRecord, LimitReached};
ghost use Rattle.library_model.specs.declared.replies.Missing.TheVariants as missing;
ghost use Rattle.library_model.specs.declared.replies.LimitKind.TheVariants.{Sequences, LibraryBytes, GroupChanges};
ghost use Rattle.library_rows.specs.Customers.{cust, no_key, by_name, library};
ghost use Rattle.library_rows.specs.Calls.{by, three_customers, opens, write, write_at, update, delete, chain, chain_key};
ghost use Rattle.library_rows.specs.Shown.{replies_behind, led_to};
ghost use Rattle.library_rows.specs.Locks.{row, two_jobs};
ghost use Rattle.library_rows.specs.KeyedCalls.{by_key};
ghost use Rattle.library_rows.specs.Brimming.{replies_from, worn_out, full_member, four_bytes_left, took, in_cycle, locked_by_job};
ghost use Rattle.library_rows.specs.RefusedCalls.{none, too_long, open_for_input, write_as, write_nothing, update_nothing, first_deleted, first_changed, first_for_update, keyed_for_update};

/// WRITE, UPDATE and DELETE: the last sequence, an open that isn't there, one that reads alone.
pub fn open_does_not_change()
    ensures sequences { replies_from (worn_out (library no_key)) (by 1 (write none (codes "A")) ∷ by 1 (update none (codes "A"))
        ∷ by 1 (delete none) ∷ []) ≡
        LimitReached Sequences 4611686018427387903 ∷ LimitReached Sequences 4611686018427387903 ∷ LimitReached Sequences 4611686018427387903 ∷ [] }
    ensures absent { replies_behind no_key (by 2 opens ∷ []) (by 1 (write_as none cust (codes "A")) ∷ by 1 (update cust (codes "A"))
        ∷ by 1 (delete cust) ∷ []) ≡
        NoSuchName (missing.Name cust) ∷ NoSuchName (missing.Name cust) ∷ NoSuchName (missing.Name cust) ∷ [] }
    ensures no_format { replies_behind no_key (by 1 (open_for_input cust) ∷ []) (by 1 (write_as none cust (codes "A")) ∷ []) ≡
        NoSuchName (missing.Name none) ∷ [] }
    ensures reads_alone { replies_behind no_key
        (by 1 (open_for_input cust) ∷ []) (by 1 (write cust too_long) ∷ by 1 (update cust (codes "A")) ∷ by 1 (delete cust) ∷ []) ≡
        WrongOpen ∷ WrongOpen ∷ WrongOpen ∷ [] }
{}

/// UPDATE and DELETE without a record; a bad value before what holds of the record or its place.
pub fn value_is_bad()
    ensures no_record { replies_behind no_key three_customers (by 1 (update cust too_long) ∷ by 1 (delete cust) ∷ []) ≡
        NoCurrentRecord ∷ NoCurrentRecord ∷ [] }
    ensures place { replies_behind no_key three_customers (by 1 (write_at cust 0 too_long) ∷ by 1 (write_at cust 1 too_long)
        ∷ by 1 (write_nothing cust) ∷ []) ≡
        BadValue (BadField 1 TooWide) ∷ BadValue (BadField 1 TooWide) ∷ BadValue Count ∷ [] }
    ensures record { replies_behind no_key first_changed (by 1 (update cust too_long) ∷ by 1 (update_nothing cust) ∷ []) ≡
        BadValue (BadField 1 TooWide) ∷ BadValue Count ∷ [] }
{}

/// WRITE at a place: there is none, a record is there, another job's lock is on it, the own commit cycle has changed it.
pub fn place_is_not_given()
    ensures no_place { replies_behind no_key three_customers
        (by 1 (write_at cust 0 (codes "D")) ∷ by 1 (write_at cust 5 (codes "D")) ∷ []) ≡
        NotFound ∷ NotFound ∷ [] }
    ensures taken { replies_behind no_key two_jobs (by 2 (write_at cust 3 (codes "D")) ∷ []) ≡ PlaceInUse 3 ∷ [] }
    ensures locked { replies_from (locked_by_job 2 1 (led_to no_key first_deleted)) (by 1 (write_at cust 1 (codes "D")) ∷ []) ≡
        RecordInUse 2 1 1 ∷ [] }
    ensures others { replies_behind no_key first_deleted (by 2 opens ∷ by 2 (write_at cust 1 (codes "D")) ∷ []) ≡
        Done ∷ RecordInUse 1 1 1 ∷ [] }
    ensures held { replies_behind no_key first_deleted (by 1 (write_at cust 1 (codes "D")) ∷ []) ≡ HeldByGroup 1 ∷ [] }
    ensures held_past_the_last { replies_from (in_cycle 1 90 (took 8193 (codes "D") ∷ []) (full_member (led_to no_key
        (by 1 opens ∷ [])))) (by 1 (write_at cust 8193 (codes "D")) ∷ []) ≡
        HeldByGroup 8193 ∷ [] }
{}

/// WRITE without room: of the member, of the library.
pub fn room_is_not_given()
    ensures member { replies_from (four_bytes_left (full_member (led_to no_key
        (by 1 opens ∷ [])))) (by 1 (write cust (codes "D")) ∷ by 1 (write_at cust 8193 (codes "D")) ∷ []) ≡
        MemberFull ∷ MemberFull ∷ [] }
    ensures library { replies_from (in_cycle 2 90 (took 1 (codes "K") ∷ []) (four_bytes_left (led_to by_name
        (by 1 opens ∷ [])))) (by 1 (write cust (codes "K")) ∷ []) ≡
        LimitReached LibraryBytes 1073741824 ∷ [] }
{}

/// WRITE of a key that is not free: another job's commit cycle keeps it, the own does, another record has it.
pub fn key_is_not_free()
    ensures others { replies_from (in_cycle 1 91 (took 7 (codes "A") ∷ []) (in_cycle 2 90 (took 9 (codes "A") ∷ took 8 (codes "A") ∷ [])
        (led_to by_name by_key)))
        (by 1 (write cust (codes "A")) ∷ []) ≡
        RecordInUse 2 1 8 ∷ [] }
    ensures own { replies_from (in_cycle 1 91 (took 9 (codes "A") ∷ took 7 (codes "A") ∷ []) (led_to by_name by_key))
        (by 1 (write cust (codes "A")) ∷ []) ≡
        HeldByGroup 7 ∷ [] }
    ensures repeated { replies_behind by_name by_key (by 1 (write cust (codes "A")) ∷ by 1 (write cust (codes "C")) ∷ []) ≡
        DuplicateKey cust 1 ∷ DuplicateKey cust 3 ∷ [] }
{}

/// UPDATE: the own commit cycle has changed the record; a key that is not free.
pub fn record_is_not_updated()
    ensures held { replies_from (in_cycle 1 91 (took 1 (codes "Z") ∷ []) (in_cycle 2 90 (took 8 (codes "B") ∷ [])
        (led_to by_name (by_key ++ by 1 (chain_key cust (codes "A")) ∷ []))))
        (by 1 (update cust (codes "B")) ∷ []) ≡ HeldByGroup 1 ∷ [] }
    ensures others { replies_from (in_cycle 1 91 (took 7 (codes "B") ∷ []) (in_cycle 2 90 (took 8 (codes "B") ∷ [])
        (led_to by_name (by_key ++ by 1 (chain_key cust (codes "A")) ∷ []))))
        (by 1 (update cust (codes "B")) ∷ []) ≡ RecordInUse 2 1 8 ∷ [] }
    ensures own { replies_from (in_cycle 1 91 (took 7 (codes "B") ∷ []) (led_to by_name (by_key ++ by 1 (chain_key cust (codes "A")) ∷ [])))
        (by 1 (update cust (codes "B")) ∷ []) ≡
        HeldByGroup 7 ∷ [] }
    ensures repeated { replies_behind by_name (by_key ++ by 1 (chain_key cust (codes "A")) ∷ [])
        (by 1 (update cust (codes "B")) ∷ []) ≡
        DuplicateKey cust 2 ∷ [] }
{}

/// DELETE: the own commit cycle has changed the record.
pub fn record_is_not_deleted()
    ensures held { replies_behind no_key first_changed (by 1 (delete cust) ∷ by 1 (update cust (codes "A2")) ∷ []) ≡
        HeldByGroup 1 ∷ HeldByGroup 1 ∷ [] }
{}

/// Under commitment one change too many, in all open commit cycles together.
pub fn cycle_takes_no_more()
    ensures records { replies_from (in_cycle 2 90 (replicate 100000 (took 9 (codes "Z"))) (led_to no_key first_for_update))
        (by 1 (write (codes "U") (codes "D")) ∷ by 1 (update (codes "U") (codes "D")) ∷ by 1 (delete (codes "U")) ∷ []) ≡
        LimitReached GroupChanges 100000 ∷ LimitReached GroupChanges 100000 ∷ LimitReached GroupChanges 100000 ∷ [] }
{}

/// A key that is another record's comes before one change too many.
pub fn key_comes_before_the_cycle()
    ensures { replies_from (in_cycle 2 90 (replicate 100000 (took 9 (codes "Z"))) (led_to by_name keyed_for_update))
        (by 1 (write (codes "U") (codes "B")) ∷ by 1 (update (codes "U") (codes "B")) ∷ []) ≡
        DuplicateKey cust 2 ∷ DuplicateKey cust 2 ∷ [] }
{}
