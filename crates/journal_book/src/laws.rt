//! What the definitions say of every store, as a law. The words are in specs/Entries.antt and specs/Kept.antt.
ghost use Rattle.std.specs.Prelude.{◌≡◌, List, ℕ};
ghost use Rattle.store_model.specs.Disk.{Areas};
ghost use Rattle.entry_codec.specs.declared.entries.Entry.{Entry};
ghost use Rattle.journal_book.specs.Kept.{SpellEntries};

/// The areas spell one list of entries.
pub fn one_reading()
    ensures { (receiver : ℕ) (entries other : List Entry) (areas : Areas) → SpellEntries receiver entries areas → SpellEntries receiver other areas → entries ≡ other }
{}
