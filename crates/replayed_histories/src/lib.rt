//! The journal of a library can be replayed, and what it leaves is the library as it stands. Laws alone: the functions do nothing.
//! Begin with `specs/Replayed.antt`.
#![tactic(auto)]

pub mod laws_back;
pub mod laws_histories;
pub mod laws_joined;
pub mod laws_journaling;
pub mod member_laws;

ghost use Rattle.std.specs.Prelude.{◌≡◌, ℕ, true, None, Some, List, []};
ghost use Rattle.std.specs.Option.{is_some};
ghost use Rattle.joint_state.specs.Sound.{after};
ghost use Rattle.member_slots.specs.Members.{member_at};
ghost use Rattle.journal_model.specs.Journal.{CanReplayJournal};
ghost use Rattle.journal_model.specs.Rollback.{of_member};
ghost use Rattle.library_steps.specs.State.{MemberStatus, State, begun, empty_library, memory_of};
ghost use Rattle.library_steps.specs.Journaling.{end_change};
ghost use Rattle.library_steps.specs.SlotChange.{status_among};
ghost use Rattle.library_steps.specs.Uses.{user_of};
ghost use Rattle.journaled_entries.specs.Deposited.{AreDeposited};
ghost use Rattle.named_bases.specs.Libraries.{journal_with};
ghost use Rattle.named_bases.specs.Sources.{descriptions};
ghost use Rattle.replayed_histories.specs.Replayed.{AreReplaysKeptByThese, IsReplayed};

/// A journal that leaves its library can be replayed, and holds only what libraries deposit.
pub fn replayed_journals_can_be_replayed()
    ensures replays { (s : State) → IsReplayed s → CanReplayJournal descriptions (journal_with s.entries) }
    ensures deposited { (s : State) → IsReplayed s → AreDeposited s.entries }
{}

/// So it is of a library with nothing in it, whichever jobs begin in it.
pub fn an_empty_library_is_replayed()
    ensures { (names : List (List ℕ)) → IsReplayed (begun empty_library names) }
{}

/// It stays so after each request that leaves files, members and records alone.
pub fn quiet_requests_keep_replays()
    ensures { AreReplaysKeptByThese }
{}

/// No commit cycle that the journal leaves open has changed a member that no job uses.
pub fn unused_members_are_free()
    ensures { (s : State) (r : IsReplayed s) (member : ℕ) → user_of member (memory_of s) ≡ None → of_member member r.left.undos ≡ [] }
{}

/// It stays so after ENDJRNPF of a journaled member that no job uses.
pub fn ended_journaling_keeps_replays()
    ensures { (s : State) (r : IsReplayed s) (job timestamp : ℕ) (status : MemberStatus) → status_among status.number s.files ≡ Some status
        → is_some status.images ≡ true → is_some (member_at status.number s.members) ≡ true → user_of status.number (memory_of s) ≡ None
        → IsReplayed (after s (end_change (memory_of s) job timestamp status)) }
{}

pub use sound_histories;
