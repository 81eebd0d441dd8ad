//! What is refused of positions, reads and UNLOCK; where two refusals hold, the one that comes first.
ghost use Rattle.std.specs.Prelude.{◌≡◌, [], ◌∷◌, ◌++◌, codes};
ghost use Rattle.commit_level.specs.declared.Level.TheVariants.{All};
ghost use Rattle.field_types.specs.declared.faults.RecordFault.TheVariants.{Count, BadField};
ghost use Rattle.field_types.specs.declared.faults.ValueFault.TheVariants.{TooWide};
ghost use Rattle.library_model.specs.declared.requests.Request.TheVariants as request;
ghost use Rattle.library_model.specs.declared.requests.LockOption.TheVariants.{Default};
ghost use Rattle.library_model.specs.declared.requests.Limit.TheVariants.{LowValue, HighValue, RecordNumber};
ghost use Rattle.library_model.specs.declared.replies.Reply.TheVariants.{Done, NoSuchName, WrongOpen, BadValue, EndOfFile, BeginOfFile, NotFound, RecordInUse, NoCurrentRecord, HeldToBoundary};
ghost use Rattle.library_model.specs.declared.replies.Missing.TheVariants as missing;
ghost use Rattle.library_rows.specs.Customers.{cust, no_key, by_name, library};
ghost use Rattle.library_rows.specs.Calls.{by, three_customers, opens, read, read_prior, read_equal, chain, chain_key, set_lower, set_greater, unlock};
ghost use Rattle.library_rows.specs.Shown.{replies_behind};
ghost use Rattle.library_rows.specs.Locks.{row, at_level};
ghost use Rattle.library_rows.specs.KeyedCalls.{by_key};
ghost use Rattle.library_rows.specs.Brimming.{replies_from};
ghost use Rattle.library_rows.specs.RefusedCalls.{none, too_long, two_values, set_lower_to, set_greater_to, read_prior_equal, read_equal_to_two, chain_to_two, open_by_arrival, first_for_update};

/// An open that isn't there, in each of these requests; another job's doesn't count.
pub fn open_is_not_there()
    ensures positions { replies_behind no_key
        (by 2 opens ∷ []) (by 1 (set_lower cust too_long) ∷ by 1 (set_greater cust too_long) ∷ []) ≡
        NoSuchName (missing.Name cust) ∷ NoSuchName (missing.Name cust) ∷ [] }
    ensures reads { replies_behind no_key (by 2 opens ∷ []) (by 1 (read Default cust) ∷ by 1 (read_prior cust) ∷ by 1 (chain cust 9) ∷ []) ≡
        NoSuchName (missing.Name cust) ∷ NoSuchName (missing.Name cust) ∷ NoSuchName (missing.Name cust) ∷ [] }
    ensures equal { replies_behind no_key (by 2 opens ∷ []) (by 1 (read_equal cust too_long) ∷ by 1 (read_prior_equal cust too_long)
        ∷ by 1 (chain_key cust too_long) ∷ by 1 (unlock cust) ∷ []) ≡
        NoSuchName (missing.Name cust) ∷ NoSuchName (missing.Name cust) ∷ NoSuchName (missing.Name cust) ∷ NoSuchName (missing.Name cust) ∷ [] }
{}

/// An open that has no key is asked by one, which no field takes besides; one that has a key by a number.
pub fn open_is_of_the_other_kind()
    ensures positions { replies_behind no_key (by 1 opens ∷ []) (by 1 (set_lower cust too_long) ∷ by 1 (set_greater cust too_long)
        ∷ by 1 (set_lower_to LowValue cust) ∷ by 1 (set_greater_to HighValue cust) ∷ []) ≡
        WrongOpen ∷ WrongOpen ∷ WrongOpen ∷ WrongOpen ∷ [] }
    ensures reads { replies_behind no_key
        (by 1 opens ∷ []) (by 1 (read_equal cust too_long) ∷ by 1 (read_prior_equal cust too_long) ∷ by 1 (chain_key cust too_long) ∷ []) ≡
        WrongOpen ∷ WrongOpen ∷ WrongOpen ∷ [] }
    ensures by_arrival { replies_behind by_name
        (by 1 (open_by_arrival cust) ∷ []) (by 1 (set_lower cust too_long) ∷ by 1 (read_equal cust too_long) ∷ by 1 (chain_key cust too_long) ∷ []) ≡
        WrongOpen ∷ WrongOpen ∷ WrongOpen ∷ [] }
    ensures by_number { replies_behind by_name
        (by 1 opens ∷ []) (by 1 (set_lower_to (RecordNumber 1) cust) ∷ by 1 (set_greater_to (RecordNumber 1) cust) ∷ by 1 (chain cust 9) ∷ []) ≡
        WrongOpen ∷ WrongOpen ∷ WrongOpen ∷ [] }
{}

/// A key that is none of the open's, where no record would be found.
pub fn key_is_bad()
    ensures positions { replies_behind by_name
        (by 1 opens ∷ []) (by 1 (set_lower cust too_long) ∷ by 1 (set_greater cust too_long) ∷ []) ≡
        BadValue (BadField 1 TooWide) ∷ BadValue (BadField 1 TooWide) ∷ [] }
    ensures reads { replies_behind by_name (by 1 opens ∷ []) (by 1 (read_equal cust too_long) ∷ by 1 (read_prior_equal cust too_long)
        ∷ by 1 (chain_key cust too_long) ∷ []) ≡
        BadValue (BadField 1 TooWide) ∷ BadValue (BadField 1 TooWide) ∷ BadValue (BadField 1 TooWide) ∷ [] }
    ensures count { replies_behind by_name
        (by 1 opens ∷ []) (by 1 (set_lower_to two_values cust) ∷ by 1 (read_equal_to_two cust) ∷ by 1 (chain_to_two cust) ∷ []) ≡
        BadValue Count ∷ BadValue Count ∷ BadValue Count ∷ [] }
{}

/// Nothing is left to read.
pub fn nothing_is_read()
    ensures arrival { replies_behind no_key
        (by 1 opens ∷ []) (by 1 (read Default cust) ∷ by 1 (read_prior cust) ∷ by 1 (chain cust 0) ∷ by 1 (chain cust 1) ∷ []) ≡
        EndOfFile ∷ BeginOfFile ∷ NotFound ∷ NotFound ∷ [] }
    ensures key { replies_behind by_name by_key
        (by 1 (read_equal cust (codes "X")) ∷ by 1 (read_prior_equal cust (codes "X")) ∷ by 1 (chain_key cust (codes "X")) ∷ []) ≡
        EndOfFile ∷ BeginOfFile ∷ NotFound ∷ [] }
{}

/// A record that another job has for update, through each way of reading it.
pub fn record_is_in_use()
    ensures arrival { replies_behind no_key (three_customers ++ by 1 (chain cust 1) ∷ by 2 opens ∷ []) (by 2 (read Default cust)
        ∷ by 2 (chain cust 2) ∷ by 2 (read_prior cust) ∷ by 2 (chain cust 1) ∷ []) ≡
        RecordInUse 1 1 1 ∷ row 2 (codes "B") ∷ RecordInUse 1 1 1 ∷ RecordInUse 1 1 1 ∷ [] }
    ensures key { replies_behind by_name (by_key ++ by 1 (chain_key cust (codes "B")) ∷ by 2 opens ∷ [])
        (by 2 (set_lower cust (codes "B")) ∷ by 2 (read_equal cust (codes "B")) ∷ by 2 (chain_key cust (codes "B"))
        ∷ by 2 (chain_key cust (codes "C")) ∷ by 2 (read_prior_equal cust (codes "B")) ∷ []) ≡
        Done ∷ RecordInUse 1 1 2 ∷ RecordInUse 1 1 2 ∷ row 3 (codes "C") ∷ RecordInUse 1 1 2 ∷ [] }
{}

/// UNLOCK: nothing was read, it was given up, a position was set, or it is kept to the boundary.
pub fn record_is_not_unlocked()
    ensures not_read { replies_behind no_key three_customers (by 1 (unlock cust) ∷ []) ≡ NoCurrentRecord ∷ [] }
    ensures given_up { replies_behind no_key three_customers (by 1 (chain cust 1) ∷ by 1 (unlock cust) ∷ by 1 (unlock cust) ∷ []) ≡
        row 1 (codes "A") ∷ Done ∷ NoCurrentRecord ∷ [] }
    ensures positioned { replies_behind no_key three_customers
        (by 1 (chain cust 1) ∷ by 1 (set_lower_to (RecordNumber 1) cust) ∷ by 1 (unlock cust) ∷ []) ≡
        row 1 (codes "A") ∷ Done ∷ NoCurrentRecord ∷ [] }
    ensures committed { replies_behind no_key first_for_update
        (by 1 (chain cust 2) ∷ by 1 request.Commit ∷ by 1 (unlock (codes "U")) ∷ by 1 (unlock cust) ∷ []) ≡
        row 2 (codes "B") ∷ Done ∷ NoCurrentRecord ∷ Done ∷ [] }
    ensures rolled_back { replies_behind no_key first_for_update
        (by 1 (chain cust 2) ∷ by 1 request.Rollback ∷ by 1 (unlock (codes "U")) ∷ by 1 (unlock cust) ∷ []) ≡
        row 2 (codes "B") ∷ Done ∷ NoCurrentRecord ∷ NoCurrentRecord ∷ [] }
    ensures read_before { replies_behind no_key (at_level All)
        (by 1 (chain cust 1) ∷ by 1 request.Rollback ∷ by 1 (chain (codes "U") 1) ∷ by 1 (unlock cust) ∷ []) ≡
        row 1 (codes "A") ∷ Done ∷ row 1 (codes "A") ∷ NoCurrentRecord ∷ [] }
    ensures read_still { replies_behind no_key (at_level All)
        (by 1 (chain cust 1) ∷ by 1 request.Commit ∷ by 1 (chain (codes "U") 1) ∷ by 1 (unlock cust) ∷ []) ≡
        row 1 (codes "A") ∷ Done ∷ row 1 (codes "A") ∷ HeldToBoundary ∷ [] }
    ensures held { replies_behind no_key (at_level All) (by 1 (chain (codes "U") 1) ∷ by 1 (unlock (codes "U")) ∷ []) ≡
        row 1 (codes "A") ∷ HeldToBoundary ∷ [] }
{}
