//! Members, journaling, and places that a request names.
ghost use Rattle.std.specs.Prelude.{◌≡◌, [], ◌∷◌, ◌++◌, codes};
ghost use Rattle.entry_codec.specs.declared.kinds.Images.TheVariants.{After, Both};
ghost use Rattle.member_slots.specs.declared.slot.Slot.TheVariants.{Deleted};
ghost use Rattle.library_model.specs.declared.requests.Request.TheVariants as request;
ghost use Rattle.library_model.specs.declared.requests.RangeEnd.TheVariants.{First, Last};
ghost use Rattle.library_model.specs.declared.replies.Reply.TheVariants.{Done, Added, NameExists, InUse, AlreadyStarted, NotJournaled, NotFound, PlaceInUse, NeedsBoth, NoCurrentRecord, Sequence, NoSuchEntry, NoSuchName};
ghost use Rattle.library_model.specs.declared.replies.Missing.TheVariants as missing;
ghost use Rattle.library_rows.specs.Customers.{cust, no_key, customer};
ghost use Rattle.library_rows.specs.Calls.{by, three_customers, opens, close, write, write_at, chain, update, delete, journal, remove, end_job};
ghost use Rattle.library_rows.specs.Shown.{slots, locked, replies_behind, led_to};
ghost use Rattle.library_rows.specs.Cycles.{pending};
ghost use Rattle.library_rows.specs.Locks.{row};
ghost use Rattle.library_rows.specs.MemberCalls.{its_member, another, after_alone};

/// Members are added, and one that a job has open is left alone.
pub fn members_are_added()
    ensures added { replies_behind no_key [] (by 1 (request.AddMember another) ∷ by 1 (request.AddMember another) ∷ []) ≡ Done ∷ NameExists (codes "OLD") ∷ [] }
    ensures in_use { replies_behind no_key [] (by 2 opens ∷ by 1 (request.ClearMember its_member) ∷ by 1 (request.ReorganizeMember another) ∷ []) ≡
        Done ∷ InUse 2 ∷ NoSuchName (missing.Name (codes "OLD")) ∷ [] }
    ensures cleared { slots (led_to no_key (three_customers ++ by 1 (close cust) ∷ by 1 (request.ClearMember its_member) ∷ [])) ≡ [] }
    ensures broken { replies_behind no_key (three_customers ++ by 1 (close cust) ∷ by 1 (request.ClearMember its_member) ∷ []) (by 1 (remove Last First) ∷ []) ≡ NoSuchEntry ∷ [] }
{}

/// Journaling begins once and ends once; what a checkpoint can't tell refuses it.
pub fn journaling_begins_and_ends()
    ensures twice { replies_behind no_key [] (by 1 (journal Both) ∷ by 1 (journal After) ∷ []) ≡ Done ∷ AlreadyStarted ∷ [] }
    ensures ended { replies_behind no_key [] (by 1 (request.EndJournaling its_member) ∷ by 1 (journal Both) ∷ by 1 (request.EndJournaling its_member) ∷ by 1 request.Checkpoint ∷ []) ≡
        NotJournaled 1 ∷ Done ∷ Done ∷ Sequence 3 ∷ [] }
    ensures untold { replies_behind no_key [] (by 1 opens ∷ by 1 (write cust (codes "A")) ∷ by 1 request.Checkpoint ∷ []) ≡ Done ∷ Added 1 ∷ NotJournaled 1 ∷ [] }
    ensures needs_both { replies_behind no_key after_alone (by 1 (remove Last First) ∷ []) ≡ NeedsBoth 4 ∷ [] }
{}

/// A place that WRITE names: there, or one past the last, and deleted.
pub fn places_are_named()
    ensures refused { replies_behind no_key three_customers (by 1 (write_at cust 0 (codes "D")) ∷ by 1 (write_at cust 5 (codes "D")) ∷ by 1 (write_at cust 2 (codes "D")) ∷ []) ≡
        NotFound ∷ NotFound ∷ PlaceInUse 2 ∷ [] }
    ensures past_the_last { replies_behind no_key three_customers (by 1 (write_at cust 4 (codes "D")) ∷ []) ≡ Added 4 ∷ [] }
    ensures deleted { slots (led_to no_key (three_customers ++ by 1 (chain cust 2) ∷ by 1 (delete cust) ∷ by 1 (write_at cust 2 (codes "D")) ∷ [])) ≡
        customer (codes "A") ∷ customer (codes "D") ∷ customer (codes "C") ∷ [] }
    ensures no_longer_current { replies_behind no_key three_customers (by 1 (chain cust 2) ∷ by 1 (update cust (codes "B1")) ∷ by 1 (update cust (codes "B2")) ∷ []) ≡
        row 2 (codes "B") ∷ Done ∷ NoCurrentRecord ∷ [] }
{}

/// The end of a job takes an open commit cycle back, and frees what the job held.
pub fn job_ends_with_an_open_cycle()
    ensures slots { slots (led_to no_key (pending ++ by 1 end_job ∷ [])) ≡ customer (codes "A") ∷ customer (codes "B") ∷ customer (codes "C") ∷ Deleted ∷ [] }
    ensures locks { locked (led_to no_key (pending ++ by 1 end_job ∷ [])) ≡ [] }
{}
