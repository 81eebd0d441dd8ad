//! What the two calls of this crate have to do with the two commands: contracts of a function that does nothing.
ghost use Rattle.std.specs.Prelude.{◌≡◌, ℕ, ◌-◌, List, [], ◌∷◌, length, take, drop, reverse, Option};
ghost use Rattle.entry_codec.specs.declared.entries.Entry.{Entry};
ghost use Rattle.member_slots.specs.declared.slot.Slot.{Slot};
ghost use Rattle.journal_model.specs.Acts.{acts, entry_before};
ghost use Rattle.journal_model.specs.Closed.{closed_prefix, closed_suffix};
ghost use Rattle.journal_model.specs.Parts.{applied_part, removed_part, removed_from};
ghost use Rattle.journal_model.specs.Walks.{numbered};
ghost use Rattle.journal_model.specs.Ranges.{straddled, first_fault, apply_range, remove_range};
ghost use Rattle.range_images.specs.Images.{applied_answer, removed_answer};

/// Each command answers that a commit cycle cuts its range, where one does, and else what is answered here of the entries
/// of the closed part, behind the entry before them.
pub fn commands_answer_by_parts()
    ensures applied { (member first : ℕ) (prior : Option Entry) (entries : List Entry) (slots : List Slot) → let range = acts member prior entries in
        apply_range first range slots ≡ first_fault
        (straddled (numbered first range) (numbered first (applied_part range)) ∷ [])
        (applied_answer first (acts member prior (take (closed_prefix range) entries)) slots) }
    ensures removed { (member first : ℕ) (prior : Option Entry) (entries : List Entry) (slots : List Slot) → let range = acts member prior entries in
        let kept = length entries - closed_suffix range in
        remove_range first range slots ≡ first_fault
        (straddled (reverse (numbered first range)) (numbered (removed_from first range) (removed_part range)) ∷ [])
        (removed_answer (removed_from first range) (acts member (entry_before prior (take kept entries)) (drop kept entries)) slots) }
{}
