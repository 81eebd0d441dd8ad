//! Laws of locks, as contracts of functions that do nothing: callers name them and learn them. A change lock is the
//! UPDATE lock that a job keeps to its boundary on a record that it changed.
ghost use Rattle.std.specs.List.{Contains};
ghost use Rattle.std.specs.List.Sorted.{IsStrictlySortedBy};
ghost use Rattle.std.specs.Prelude.{◌≡◌, ◌≢◌, ◌≤◌, ℕ, Bool, Option, Some, None, List, IfSome, false};
ghost use Rattle.commit_level.specs.declared.Level.{Level};
ghost use Rattle.lock_table.specs.declared.levels.Call.{Call};
ghost use Rattle.lock_table.specs.declared.lock.LockKind.{LockKind};
ghost use Rattle.lock_table.specs.declared.lock.Reach.{Reach};
ghost use Rattle.lock_table.specs.declared.lock.Reach.TheVariants.{Open, Boundary};
ghost use Rattle.lock_table.specs.declared.lock.RecordId.{RecordId};
ghost use Rattle.lock_table.specs.declared.lock.Holder.{Holder};
ghost use Rattle.lock_table.specs.declared.lock.Lock.{Lock};
ghost use Rattle.lock_table.specs.Lock.{is_open, is_of_record, lock_by, lock_cmp, update_kind};
ghost use Rattle.lock_table.specs.Table.{Locks, spare, AreCompatible, HoldsChange, HasRoom, IsTable, blocker, freed, kept_to_boundary, with_lock_by};
ghost use Rattle.lock_table.specs.Levels.{asked, gained, locks_after, released};

/// A lock has room where one lock more has, and where it is held; one to the boundary also where the same lock to the
/// next read is held.
pub fn room()
    ensures spare { (holder : Holder) (at : RecordId) (kind : LockKind) (reach : Reach) (t : Locks) → 1 ≤ spare t → HasRoom holder at kind reach t }
    ensures held { (holder : Holder) (at : RecordId) (kind : LockKind) (reach : Reach) (t : Locks) → IsTable t → Contains t.held (lock_by holder at kind reach) → HasRoom holder at kind reach t }
    ensures turned { (holder : Holder) (at : RecordId) (kind : LockKind) (t : Locks) → IsTable t → Contains t.held (lock_by holder at kind Open) → HasRoom holder at kind Boundary t }
{}

/// Locks that are kept to the boundary clash no more than before, and change locks stay.
pub fn keeping()
    ensures compatible { (holder : Holder) (at : RecordId) (held : List Lock) → AreCompatible held → AreCompatible (kept_to_boundary holder at held) }
    ensures changes { (holder : Holder) (at : RecordId) (job : ℕ) (changed : RecordId) (held : List Lock) → HoldsChange job changed held → HoldsChange job changed (kept_to_boundary holder at held) }
{}

/// Freed locks leave the others compatible, and change locks where boundary locks are spared.
pub fn freeing()
    ensures compatible { (gone : Lock → Bool) (held : List Lock) → AreCompatible held → AreCompatible (freed gone held) }
    ensures changes { (gone : Lock → Bool) (job : ℕ) (changed : RecordId) (held : List Lock) → ((lock : Lock) → is_open lock.reach ≡ false → gone lock ≡ false) → HoldsChange job changed held → HoldsChange job changed (freed gone held) }
{}

/// What a call leaves is compatible where no other job's lock clashes with the one that it asks for. It takes no change
/// lock of another job, and none at all where it isn't a boundary. A change under commitment has its change lock.
pub fn calls()
    ensures compatible { (call : Call) (level : Option Level) (holder : Holder) (at : RecordId) (is_committed : ℕ → Bool) (held : List Lock) → IfSome (asked call level) (λ wanted. blocker holder.job at wanted.kind held ≡ None) → AreCompatible held → AreCompatible (locks_after call level holder at is_committed held) }
    ensures others { (call : Call) (level : Option Level) (holder : Holder) (at : RecordId) (is_committed : ℕ → Bool) (job : ℕ) (changed : RecordId) (held : List Lock) → job ≢ holder.job → HoldsChange job changed held → HoldsChange job changed (locks_after call level holder at is_committed held) }
    ensures own { (call : Call) (level : Option Level) (holder : Holder) (at : RecordId) (is_committed : ℕ → Bool) (job : ℕ) (changed : RecordId) (held : List Lock) → (released call level).boundary_locks ≡ false → HoldsChange job changed held → HoldsChange job changed (locks_after call level holder at is_committed held) }
    ensures changed { (call : Call) (level : Option Level) (holder : Holder) (at : RecordId) (is_committed : ℕ → Bool) (held : List Lock) → gained call level ≡ Some (record { kind = update_kind; reach = Boundary }) → HoldsChange holder.job at (locks_after call level holder at is_committed held) }
{}

/// A DELETE under commitment may ask first and release the record's open locks then: it leaves the same.
pub fn deletion()
    ensures { (holder : Holder) (at : RecordId) (kind : LockKind) (held : List Lock) → IsStrictlySortedBy lock_cmp held → freed (is_of_record holder.job at) (with_lock_by holder at kind Boundary held) ≡ with_lock_by holder at kind Boundary (freed (is_of_record holder.job at) held) }
{}
