//! The law of members' limits: the contract of a function that does nothing.
ghost use Rattle.std.specs.Prelude.{ℕ, ◌↔◌, List, IsTrue};
ghost use Rattle.entry_codec.specs.declared.entries.Entry.{Entry};
ghost use Rattle.journal_model.specs.Catalogue.{Descriptions};
ghost use Rattle.journal_model.specs.Journal.{StaysMembers};
ghost use Rattle.journal_replay.specs.Left.{IsLeft};
ghost use Rattle.journal_replay.specs.SoFar.{with_entry};
ghost use Rattle.journal_replay.specs.Standing.{Standing};
ghost use Rattle.journal_limits.specs.Lengths.{KeepsLengths, journal_of};
ghost use Rattle.journal_limits.specs.Fits.{fits_named};

/// Where the rules keep record lengths, the members of a journal from the beginning stay within their limits with an entry more exactly where the member that
/// the entry names has no more slots and bytes than it may, behind the entry.
pub fn entries_keep_limits()
    ensures { (d : Descriptions) → KeepsLengths d → (entries : List Entry) (e : Entry) (s next : Standing) → IsLeft d (λ _. 0) (journal_of entries) s
        → IsLeft d (λ _. 0) (with_entry e (journal_of entries)) next → StaysMembers d (journal_of entries)
        → (StaysMembers d (with_entry e (journal_of entries)) ↔ IsTrue (fits_named d next e.member)) }
{}
