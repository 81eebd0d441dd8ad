//! Limits of bytes and locks, and which refusal comes first there.
ghost use Rattle.std.specs.Prelude.{◌≡◌, ℕ, ◌+◌, nat_lt, true, Some, None, List, [], ◌∷◌, ◌++◌, length, replicate, codes};
ghost use Rattle.file_model.specs.Positions.Position.{Start, End};
ghost use Rattle.lock_table.specs.declared.lock.Lock.{Lock};
ghost use Rattle.lock_table.specs.declared.levels.Call.TheVariants.{UpdateRead, Write, WriteAt};
ghost use Rattle.library_model.specs.declared.requests.Request.TheVariants as request;
ghost use Rattle.library_model.specs.declared.requests.RangeEnd.TheVariants.{Sequence};
ghost use Rattle.library_model.specs.declared.requests.LockOption.TheVariants.{Default};
ghost use Rattle.library_model.specs.declared.replies.Reply.TheVariants.{NotJournaled, RecordInUse, DuplicateKey, LimitReached};
ghost use Rattle.library_model.specs.declared.replies.LimitKind.TheVariants.{Locks, GroupChanges, GroupBytes, BlockBytes, LibraryBytes};
ghost use Rattle.library_steps.specs.State.{memory_of};
ghost use Rattle.library_steps.specs.SlotChange.{open_bytes};
ghost use Rattle.library_rows.specs.Customers.{cust, no_key, by_name, held};
ghost use Rattle.library_rows.specs.Calls.{by, read, read_prior, read_equal, chain, chain_key, write, write_at, update, delete, apply, remove};
ghost use Rattle.library_rows.specs.Shown.{led_to};
ghost use Rattle.library_rows.specs.Brimming.{IsMetBy, LeavesTooMany, replies_from, took, took_image, in_cycle, with_these_locks, image_kept, with_another, made_from, record_added, record_deleted, four_bytes_left};
ghost use Rattle.library_rows.specs.RefusedCalls.{first_for_update, read_prior_equal};

/// A lock too many, by each way of reading a record for update; another job's lock on it comes first.
pub fn reads_lock_too_much()
    ensures in_use { (locks : List Lock) → IsMetBy UpdateRead 1 no_key Start locks (Some 2) →
        replies_from (with_these_locks no_key Start locks) (by 1 (read Default (codes "U")) ∷ by 1 (chain (codes "U") 1) ∷ []) ≡
        RecordInUse 2 1 1 ∷ RecordInUse 2 1 1 ∷ [] }
    ensures in_use_prior { (locks : List Lock) → IsMetBy UpdateRead 1 no_key End locks (Some 2) →
        replies_from (with_these_locks no_key End locks) (by 1 (read_prior (codes "U")) ∷ []) ≡ RecordInUse 2 1 1 ∷ [] }
    ensures in_use_equal { (locks : List Lock) → IsMetBy UpdateRead 1 by_name Start locks (Some 2) →
        replies_from (with_these_locks by_name Start locks) (by 1 (read_equal (codes "U") (codes "A"))
        ∷ by 1 (chain_key (codes "U") (codes "A")) ∷ []) ≡
        RecordInUse 2 1 1 ∷ RecordInUse 2 1 1 ∷ [] }
    ensures in_use_prior_equal { (locks : List Lock) → IsMetBy UpdateRead 1 by_name End locks (Some 2) →
        replies_from (with_these_locks by_name End locks) (by 1 (read_prior_equal (codes "U") (codes "A")) ∷ []) ≡
        RecordInUse 2 1 1 ∷ [] }
    ensures next { (locks : List Lock) → IsMetBy UpdateRead 1 no_key Start locks None → LeavesTooMany UpdateRead 1 no_key Start locks →
        replies_from (with_these_locks no_key Start locks) (by 1 (read Default (codes "U")) ∷ by 1 (chain (codes "U") 1) ∷ []) ≡
        LimitReached Locks 500000 ∷ LimitReached Locks 500000 ∷ [] }
    ensures prior { (locks : List Lock) → IsMetBy UpdateRead 1 no_key End locks None → LeavesTooMany UpdateRead 1 no_key End locks →
        replies_from (with_these_locks no_key End locks) (by 1 (read_prior (codes "U")) ∷ []) ≡ LimitReached Locks 500000 ∷ [] }
    ensures next_equal { (locks : List Lock) → IsMetBy UpdateRead 1 by_name Start locks None → LeavesTooMany UpdateRead 1 by_name Start locks →
        replies_from (with_these_locks by_name Start locks) (by 1 (read_equal (codes "U") (codes "A"))
        ∷ by 1 (chain_key (codes "U") (codes "A")) ∷ []) ≡
        LimitReached Locks 500000 ∷ LimitReached Locks 500000 ∷ [] }
    ensures prior_equal { (locks : List Lock) → IsMetBy UpdateRead 1 by_name End locks None → LeavesTooMany UpdateRead 1 by_name End locks →
        replies_from (with_these_locks by_name End locks) (by 1 (read_prior_equal (codes "U") (codes "A")) ∷ []) ≡
        LimitReached Locks 500000 ∷ [] }
{}

/// WRITE: a key that is another record's comes before a lock too many, and that before a change too many.
pub fn write_locks_too_much()
    ensures key { (locks : List Lock) → replies_from (with_these_locks by_name Start locks)
        (by 1 (write (codes "U") (codes "A")) ∷ []) ≡
        DuplicateKey cust 1 ∷ [] }
    ensures locks { (locks : List Lock) → LeavesTooMany Write 2 no_key Start locks →
        replies_from (in_cycle 2 90 (replicate 100000 (took 9 (codes "Z"))) (with_these_locks no_key Start locks)) (by 1 (write (codes "U") (codes "D")) ∷ []) ≡
        LimitReached Locks 500000 ∷ [] }
    ensures place { (locks : List Lock) → IsMetBy WriteAt 2 no_key Start locks None → LeavesTooMany WriteAt 2 no_key Start locks →
        replies_from (with_these_locks no_key Start locks) (by 1 (write_at (codes "U") 2 (codes "D")) ∷ []) ≡
        LimitReached Locks 500000 ∷ [] }
{}

/// A change with whose image the open commit cycles would keep a byte too many; one change too many comes first.
pub fn images_are_too_long()
    ensures write { (image : List ℕ) → nat_lt 268435456 (open_bytes (memory_of (image_kept image)) + 5) ≡ true →
        replies_from (image_kept image) (by 1 (write (codes "U") (codes "D")) ∷ []) ≡ LimitReached GroupBytes 268435456 ∷ [] }
    ensures delete { (image : List ℕ) → nat_lt 268435456 (open_bytes (memory_of (image_kept image)) + 5) ≡ true →
        replies_from (image_kept image) (by 1 (delete (codes "U")) ∷ []) ≡ LimitReached GroupBytes 268435456 ∷ [] }
    ensures update { (image : List ℕ) → nat_lt 268435456 (open_bytes (memory_of (image_kept image)) + 10) ≡ true →
        replies_from (image_kept image) (by 1 (update (codes "U") (codes "D")) ∷ []) ≡ LimitReached GroupBytes 268435456 ∷ [] }
    ensures changes { (image : List ℕ) → length image ≡ 268435456 →
        replies_from (in_cycle 2 90 (took_image image ∷ replicate 99999 (took 9 (codes "Z"))) (led_to no_key first_for_update))
        (by 1 (write (codes "U") (codes "D")) ∷ by 1 (update (codes "U") (codes "D")) ∷ by 1 (delete (codes "U")) ∷ []) ≡
        LimitReached GroupChanges 100000 ∷ LimitReached GroupChanges 100000 ∷ LimitReached GroupChanges 100000 ∷ [] }
{}

/// CHKPT: a member whose changes no entry tells, and then entries that are too long.
pub fn checkpoint_is_too_long()
    ensures untold { (source : List ℕ) → length source ≡ 534773760 →
        replies_from (with_another [] 2 (made_from source)) (by 1 request.Checkpoint ∷ []) ≡ NotJournaled 2 ∷ [] }
    ensures bytes { (source : List ℕ) → length source ≡ 534773760 →
        replies_from (made_from source) (by 1 request.Checkpoint ∷ []) ≡ LimitReached BlockBytes 534773760 ∷ [] }
{}

/// APYJRNCHG and RMVJRNCHG: the bytes of the library, then those of the entries, then a key that two records have.
pub fn range_is_too_long()
    ensures library { (image : List ℕ) → length image ≡ 534773760 →
        replies_from (four_bytes_left (record_added no_key image)) (by 1 (apply (Sequence 3) (Sequence 3)) ∷ []) ≡
        LimitReached LibraryBytes 1073741824 ∷ [] }
    ensures removed { (image : List ℕ) → length image ≡ 534773760 →
        replies_from (four_bytes_left (record_deleted no_key image)) (by 1 (remove (Sequence 3) (Sequence 3)) ∷ []) ≡
        LimitReached LibraryBytes 1073741824 ∷ [] }
    ensures entries { (image : List ℕ) → length image ≡ 534773760 →
        replies_from (record_added by_name image) (by 1 (apply (Sequence 3) (Sequence 3)) ∷ []) ≡
        LimitReached BlockBytes 534773760 ∷ [] }
    ensures entries_removed { (image : List ℕ) → length image ≡ 534773760 →
        replies_from (record_deleted by_name image) (by 1 (remove (Sequence 3) (Sequence 3)) ∷ []) ≡
        LimitReached BlockBytes 534773760 ∷ [] }
    ensures keys { replies_from (record_added by_name (held (codes "A"))) (by 1 (apply (Sequence 3) (Sequence 3)) ∷ []) ≡
        DuplicateKey cust 1 ∷ [] }
    ensures keys_removed { replies_from (record_deleted by_name (held (codes "A")))
        (by 1 (remove (Sequence 3) (Sequence 3)) ∷ []) ≡
        DuplicateKey cust 1 ∷ [] }
{}
