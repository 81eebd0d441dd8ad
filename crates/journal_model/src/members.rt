//! Laws of entries and members: contracts of functions that do nothing.
ghost use Rattle.std.specs.Prelude.{◌≡◌, ℕ, List, ◌++◌, Option};
ghost use Rattle.entry_codec.specs.declared.entries.Entry.{Entry};
ghost use Rattle.journal_model.specs.Acts.{acts, entry_before};
ghost use Rattle.journal_model.specs.Replay.{all_moved};
ghost use Rattle.journal_model.specs.ManyMembers.{NumberedSlots, slots_in, members_after};

/// Entries are read alike in whole and in parts, where a part knows the entry before it.
pub fn entries_are_read_alike()
    ensures { (member : ℕ) (prior : Option Entry) (front rest : List Entry) → acts member prior (front ++ rest) ≡ acts member prior front ++ acts member (entry_before prior front) rest }
{}

/// The entries of a library's journal do to each member what they do to it alone.
pub fn members_are_apart()
    ensures { (number : ℕ) (members : List NumberedSlots) (prior : Option Entry) (entries : List Entry)
        → slots_in number (members_after members prior entries) ≡ all_moved (slots_in number members) (acts number prior entries) }
{}
