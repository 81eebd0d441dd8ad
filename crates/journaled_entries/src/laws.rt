//! Contracts of a function that does nothing.
ghost use Rattle.std.specs.Prelude.{◌≡◌, ◌++◌, ◌∷◌, [], true, List};
ghost use Rattle.entry_codec.specs.declared.entries.Entry.{Entry};
ghost use Rattle.journal_model.specs.Catalogue.{catalogue_after, empty_catalogue};
ghost use Rattle.journaled_entries.specs.Deposited.{AreDeposited, may_be_deposited};

/// Entries with one more are a library's exactly where those before it are and the test passes it.
pub fn entries_come_one_by_one()
    ensures next { (entries : List Entry) (e : Entry) → AreDeposited entries → may_be_deposited (catalogue_after empty_catalogue entries) e ≡ true → AreDeposited (entries ++ e ∷ []) }
    ensures front { (entries : List Entry) (e : Entry) → AreDeposited (entries ++ e ∷ []) → AreDeposited entries }
    ensures last { (entries : List Entry) (e : Entry) → AreDeposited (entries ++ e ∷ []) → may_be_deposited (catalogue_after empty_catalogue entries) e ≡ true }
{}
