//! Unique keys, positions by key, and keys that an open commit cycle keeps to itself.
ghost use Rattle.std.specs.Prelude.{◌≡◌, [], ◌∷◌, ◌++◌, codes};
ghost use Rattle.library_model.specs.declared.requests.Request.TheVariants as request;
ghost use Rattle.library_model.specs.declared.requests.LockOption.TheVariants.{Default};
ghost use Rattle.library_model.specs.declared.requests.RangeEnd.TheVariants.{Sequence};
ghost use Rattle.library_model.specs.declared.replies.Reply.TheVariants.{Done, Added, RecordInUse, HeldByGroup, DuplicateKey, EndOfFile, WrongOpen, NotFound};
ghost use Rattle.library_rows.specs.Customers.{cust, by_name};
ghost use Rattle.library_rows.specs.Calls.{by, opens, close, write, chain, chain_key, read, read_prior, read_equal, set_lower, set_greater, set_end, remove};
ghost use Rattle.library_rows.specs.Shown.{replies_behind};
ghost use Rattle.library_rows.specs.Locks.{row};
ghost use Rattle.library_rows.specs.KeyedCalls.{deleted_in_cycle, added_again, by_key};

/// A record is deleted in a commit cycle: nobody else may take its key, nor the job itself outside the cycle.
pub fn key_is_reserved()
    ensures others { replies_behind by_name deleted_in_cycle (by 2 opens ∷ by 2 (write cust (codes "K")) ∷ []) ≡ Done ∷ RecordInUse 1 1 1 ∷ [] }
    ensures own { replies_behind by_name deleted_in_cycle (by 1 (write cust (codes "K")) ∷ []) ≡ HeldByGroup 1 ∷ [] }
    ensures committed { replies_behind by_name deleted_in_cycle (by 1 request.Commit ∷ by 2 opens ∷ by 2 (write cust (codes "K")) ∷ by 2 (write cust (codes "K")) ∷ []) ≡
        Done ∷ Done ∷ Added 2 ∷ DuplicateKey cust 2 ∷ [] }
{}

/// A removal that would give two records one key is refused, and so is a relative record number in a file with a key.
pub fn removal_meets_a_key()
    ensures duplicate { replies_behind by_name added_again (by 1 (remove (Sequence 4) (Sequence 4)) ∷ []) ≡ DuplicateKey cust 1 ∷ [] }
    ensures by_number { replies_behind by_name [] (by 1 opens ∷ by 1 (chain cust 1) ∷ []) ≡ Done ∷ WrongOpen ∷ [] }
    ensures not_found { replies_behind by_name [] (by 1 opens ∷ by 1 (chain_key cust (codes "K")) ∷ []) ≡ Done ∷ NotFound ∷ [] }
{}

/// Where SETLL and SETGT put the position, and what the reads find from there.
pub fn positions_by_key()
    ensures lower { replies_behind by_name by_key (by 1 (set_lower cust (codes "B")) ∷ by 1 (read Default cust) ∷ []) ≡ Done ∷ row 2 (codes "B") ∷ [] }
    ensures greater { replies_behind by_name by_key (by 1 (set_greater cust (codes "B")) ∷ by 1 (read Default cust) ∷ []) ≡ Done ∷ row 3 (codes "C") ∷ [] }
    ensures prior { replies_behind by_name by_key (by 1 (set_lower cust (codes "B")) ∷ by 1 (read_prior cust) ∷ []) ≡ Done ∷ row 1 (codes "A") ∷ [] }
    ensures end { replies_behind by_name by_key (by 1 (set_end cust) ∷ by 1 (read Default cust) ∷ by 1 (read_prior cust) ∷ by 1 (read_equal cust (codes "B")) ∷ by 1 (read_prior cust) ∷ []) ≡
        Done ∷ EndOfFile ∷ row 3 (codes "C") ∷ EndOfFile ∷ row 2 (codes "B") ∷ [] }
{}
