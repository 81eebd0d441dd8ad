//! The journal of a library that was restarted leaves that library, so that its journal can be replayed after whatever calls it makes. Laws alone: the
//! functions do nothing.
#![tactic(auto)]

ghost use Rattle.std.specs.Prelude.{ℕ, List};
ghost use Rattle.entry_codec.specs.declared.entries.Entry.{Entry};
ghost use Rattle.journal_model.specs.Journal.{CanReplayJournal};
ghost use Rattle.journaled_entries.specs.Deposited.{AreDeposited};
ghost use Rattle.library_steps.specs.State.{begun};
ghost use Rattle.restart_model.specs.Libraries.{journal_with, library_restarted};
ghost use Rattle.restart_model.specs.Sources.{descriptions};
ghost use Rattle.replayed_histories.specs.Replayed.{IsReplayed};

/// What the journal of a restarted library leaves is the library, whichever jobs begin in it, where the journal before the restart can be replayed and holds
/// only what libraries deposit.
pub fn restarted_libraries_are_replayed()
    ensures { (entries : List Entry) (attached moment : ℕ) (names : List (List ℕ)) → CanReplayJournal descriptions (journal_with entries) → AreDeposited entries
        → IsReplayed (begun (library_restarted (λ _. 0) attached moment (journal_with entries)) names) }
{}
