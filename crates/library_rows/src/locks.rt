//! Record locks of two jobs, and of one job at each level of commitment control.
ghost use Rattle.std.specs.Prelude.{◌≡◌, [], ◌∷◌, ◌++◌, true, codes};
ghost use Rattle.commit_level.specs.declared.Level.TheVariants.{Chg, Cs, All};
ghost use Rattle.field_types.specs.declared.values.Value.TheVariants.{Chars};
ghost use Rattle.library_model.specs.declared.requests.LockOption.TheVariants.{Default, No};
ghost use Rattle.library_model.specs.declared.replies.Reply.TheVariants.{Done, Record, RecordInUse, NoCurrentRecord, HeldToBoundary};
ghost use Rattle.library_rows.specs.Customers.{cust, no_key};
ghost use Rattle.library_rows.specs.Calls.{by, three_customers, opens, read, chain, chain_with, unlock};
ghost use Rattle.library_rows.specs.Shown.{locked, lock, replies_behind, led_to};
ghost use Rattle.library_rows.specs.Locks.{row, two_jobs, at_level, levels};

/// One job holds record 3; another reads up to it, passes it without a lock, and gets it when it is given up.
pub fn record_of_another_job()
    ensures replies { replies_behind no_key two_jobs (by 2 (read Default cust) ∷ by 2 (read Default cust) ∷ by 2 (read Default cust) ∷ []) ≡
        row 1 (codes "A") ∷ row 2 (codes "B") ∷ RecordInUse 1 1 3 ∷ [] }
    ensures kept { locked (led_to no_key (two_jobs ++ by 2 (read Default cust) ∷ by 2 (read Default cust) ∷ by 2 (read Default cust) ∷ [])) ≡ lock 1 3 ∷ lock 2 2 ∷ [] }
    ensures passed { replies_behind no_key two_jobs (by 2 (read Default cust) ∷ by 2 (read Default cust) ∷ by 2 (read No cust) ∷ by 1 (unlock cust) ∷ by 2 (chain cust 3) ∷ by 1 (unlock cust) ∷ []) ≡
        row 1 (codes "A") ∷ row 2 (codes "B") ∷ row 3 (codes "C") ∷ Done ∷ row 3 (codes "C") ∷ NoCurrentRecord ∷ [] }
{}

/// What an open under commitment holds after four reads, two without update.
pub fn locks_by_level()
    ensures chg { levels Chg ≡ [] ∷ [] ∷ (lock 1 3 ∷ []) ∷ (lock 1 4 ∷ []) ∷ [] }
    ensures cs { levels Cs ≡ (lock 1 1 ∷ []) ∷ (lock 1 2 ∷ []) ∷ (lock 1 3 ∷ []) ∷ (lock 1 4 ∷ []) ∷ [] }
    ensures all { levels All ≡ (lock 1 1 ∷ []) ∷ (lock 1 1 ∷ lock 1 2 ∷ []) ∷ (lock 1 1 ∷ lock 1 2 ∷ lock 1 3 ∷ []) ∷ (lock 1 1 ∷ lock 1 2 ∷ lock 1 3 ∷ lock 1 4 ∷ []) ∷ [] }
    ensures unlocked { replies_behind no_key (at_level Cs ++ by 1 (chain (codes "U") 4) ∷ []) (by 1 (unlock (codes "U")) ∷ []) ≡ Done ∷ [] }
    ensures held { replies_behind no_key (at_level All ++ by 1 (chain (codes "U") 4) ∷ []) (by 1 (unlock (codes "U")) ∷ []) ≡ HeldToBoundary ∷ [] }
{}
