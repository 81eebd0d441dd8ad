//! What the definitions say of every journal, as laws. The words are in specs/Cached.antt and specs/Sizes.antt.
ghost use Rattle.std.specs.Prelude.{◌≡◌, List, ◌++◌, ℕ, length};
ghost use Rattle.entry_codec.specs.declared.entries.Entry.{Entry};
ghost use Rattle.journal_book.specs.Entries.{spelled};
ghost use Rattle.block_cache.specs.Cached.{AreStretches};
ghost use Rattle.block_cache.specs.Sizes.{block_bytes};

/// Blocks of the journal stay such where entries come behind the others.
pub fn stretches_stay()
    ensures { (first : ℕ) (entries more : List Entry) (blocks : List (List Entry)) → AreStretches first entries blocks → AreStretches first (entries ++ more) blocks }
{}

/// The bytes that are counted for a block's entries are those of their spellings.
pub fn sizes_are_lengths()
    ensures { (entries : List Entry) → block_bytes entries ≡ length (spelled entries) }
{}
