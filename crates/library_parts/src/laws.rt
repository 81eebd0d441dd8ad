//! How effects that were done one by one answer a request: contracts of functions that do nothing.
ghost use Rattle.std.specs.Prelude.{◌≡◌, ℕ, ◌+◌, ◌≤◌, ◌++◌, Bool, List, Option, Result, Ok, length};
ghost use Rattle.commit_level.specs.declared.Level.{Level};
ghost use Rattle.entry_codec.specs.declared.entries.Draft.{Draft};
ghost use Rattle.lock_table.specs.declared.lock.Holder.{Holder};
ghost use Rattle.lock_table.specs.declared.lock.RecordId.{RecordId};
ghost use Rattle.lock_table.specs.declared.levels.Call.{Call};
ghost use Rattle.lock_table.specs.declared.table.TheConstants.{MOST_LOCKS};
ghost use Rattle.lock_table.specs.Levels.{locks_after};
ghost use Rattle.library_model.specs.declared.replies.Reply.{Reply};
ghost use Rattle.library_steps.specs.State.{State, Memory, memory_of};
ghost use Rattle.library_steps.specs.Change.{Change, deposited, journaled, unjournaled};
ghost use Rattle.parts_model.specs.Answers.{Answers};
ghost use Rattle.lawful_states.specs.Calls.{IsOfOpen};
ghost use Rattle.parts_model.specs.Locks.{HasLockRoom};
ghost use Rattle.parts_model.specs.Parts.{Room};

/// A state answers a request with a change where it has the memory of the change, and its entries behind those of before.
pub fn effects_answer()
    ensures unjournaled { (old new : State) (reply : Reply) (m : Memory) (wanted : Result Change Reply) → wanted ≡ Ok (unjournaled reply m) → memory_of new ≡ m → m.gone ≡ old.gone → new.entries ≡ old.entries → Answers old new (Ok reply) wanted }
    ensures journaled { (old new : State) (drafts : List Draft) (forced : Bool) (reply : Reply) (m : Memory) (wanted : Result Change Reply) → wanted ≡ Ok (journaled drafts forced reply m) → memory_of new ≡ record m { last_entry = m.last_entry + length drafts } → m.gone ≡ old.gone → new.entries ≡ old.entries ++ deposited m drafts → Answers old new (Ok reply) wanted }
{}

/// The locks that a call leaves have room where one more has, and where they are not too many.
pub fn locks_fit()
    ensures { (call : Call) (level : Option Level) (holder : Holder) (at : RecordId) (is_committed : ℕ → Bool) (s : State) (room : Room) → IsOfOpen call → HasLockRoom s room → length (locks_after call level holder at is_committed s.locks) ≤ MOST_LOCKS → length (locks_after call level holder at is_committed s.locks) ≤ room.locks }
{}
