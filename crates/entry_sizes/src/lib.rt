//! Laws of the bytes of journal entries: what the library's definitions count is what stands in a receiver.
#![tactic(auto)]

ghost use Rattle.std.specs.Prelude.{◌≡◌, List, length};
ghost use Rattle.std.specs.List.{flat_map};
ghost use Rattle.entry_codec.specs.declared.entries.Entry.{Entry};
ghost use Rattle.entry_codec.specs.declared.kinds.EntryKind.{EntryKind};
ghost use Rattle.entry_codec.specs.Spelling.{body, spelling};
ghost use Rattle.library_steps.specs.EntrySizes.{body_size, entry_size, entry_bytes};

/// A body, an entry, and entries one behind the other have as many bytes as is counted for them.
pub fn sizes_are_lengths()
    ensures bodies { (kind : EntryKind) → body_size kind ≡ length (body kind) }
    ensures entries { (e : Entry) → entry_size e ≡ length (spelling e) }
    ensures blocks { (entries : List Entry) → entry_bytes entries ≡ length (flat_map spelling entries) }
{}
