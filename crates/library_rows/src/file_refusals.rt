//! What is refused of the commands on files and members; where two refusals hold, the one that comes first.
ghost use Rattle.std.specs.Prelude.{◌≡◌, [], ◌∷◌, ◌++◌, codes};
ghost use Rattle.entry_codec.specs.declared.kinds.Images.TheVariants.{After, Both};
ghost use Rattle.dds_source.specs.declared.faults.DdsCause.TheVariants.{BadColumn};
ghost use Rattle.library_model.specs.declared.requests.Request.TheVariants as request;
ghost use Rattle.library_model.specs.declared.replies.Reply.TheVariants.{Done, NameExists, NoSuchName, Dependents, InUse, AlreadyStarted, NotJournaled, LimitReached};
ghost use Rattle.library_model.specs.declared.replies.Reply.TheVariants as replies;
ghost use Rattle.library_model.specs.declared.replies.Missing.TheVariants as missing;
ghost use Rattle.library_model.specs.declared.replies.LimitKind.TheVariants.{Sequences, Files, Members, MemberNumbers};
ghost use Rattle.library_rows.specs.Customers.{cust, no_key, library};
ghost use Rattle.library_rows.specs.Calls.{by, three_customers, opens, journal};
ghost use Rattle.library_rows.specs.Shown.{replies_behind, led_to};
ghost use Rattle.library_rows.specs.MemberCalls.{its_member, another};
ghost use Rattle.library_rows.specs.Brimming.{replies_from, reply_with, gone_by, worn_out, next_member_is, more_files, more_members, with_another, keyword_line, unlocked};
ghost use Rattle.library_rows.specs.RefusedCalls.{none, new, nowhere, create, drop_file, journal_of, left_pending, left_locked, closed_customers};

/// CRTPF: the last sequence, a name that is taken, too many files, the last member's number, a source that isn't there.
pub fn file_is_not_created()
    ensures sequences { replies_from (worn_out (library no_key)) (by 1 (create cust none) ∷ []) ≡
        LimitReached Sequences 4611686018427387903 ∷ [] }
    ensures last_sequence { replies_from (gone_by 4611686018427387902 (library no_key)) (by 1 (create new none) ∷ []) ≡
        NoSuchName (missing.Name none) ∷ [] }
    ensures files { replies_from (next_member_is 4000000001 (more_files 499 (library no_key))) (by 1 (create cust none)
        ∷ by 1 (create new none) ∷ []) ≡
        NameExists cust ∷ LimitReached Files 500 ∷ [] }
    ensures last_file { replies_from (more_files 498 (library no_key)) (by 1 (create new none) ∷ []) ≡ NoSuchName (missing.Name none) ∷ [] }
    ensures numbers { replies_from (next_member_is 4000000001 (library no_key)) (by 1 (create new none) ∷ []) ≡
        LimitReached MemberNumbers 4000000000 ∷ [] }
    ensures last_number { replies_from (next_member_is 4000000000 (library no_key)) (by 1 (create new none) ∷ []) ≡
        NoSuchName (missing.Name none) ∷ [] }
{}

/// ADDPFM: the last sequence, a file that isn't there, a name that is taken, too many members, the last member's number.
pub fn member_is_not_added()
    ensures sequences { replies_from (worn_out (library no_key)) (by 1 (request.AddMember nowhere) ∷ []) ≡
        LimitReached Sequences 4611686018427387903 ∷ [] }
    ensures absent { replies_from (library no_key) (by 1 (request.AddMember nowhere) ∷ []) ≡ NoSuchName (missing.Name none) ∷ [] }
    ensures members { replies_from (next_member_is 4000000001 (more_members 31)) (by 1 (request.AddMember its_member)
        ∷ by 1 (request.AddMember another) ∷ []) ≡
        NameExists cust ∷ LimitReached Members 32 ∷ [] }
    ensures last_member { replies_from (next_member_is 4000000001 (more_members 30)) (by 1 (request.AddMember another) ∷ []) ≡
        LimitReached MemberNumbers 4000000000 ∷ [] }
    ensures last_number { replies_from (next_member_is 4000000000 (more_members 30)) (by 1 (request.AddMember another) ∷ []) ≡ Done ∷ [] }
{}

/// CLRPFM and RGZPFM: the last sequence, a name that isn't there, and a member that is used: the least job by an open, a change or a lock.
pub fn member_is_not_emptied()
    ensures sequences { replies_from (worn_out (library no_key)) (by 1 (request.ClearMember nowhere) ∷ by 1 (request.ReorganizeMember nowhere) ∷ []) ≡
        LimitReached Sequences 4611686018427387903 ∷ LimitReached Sequences 4611686018427387903 ∷ [] }
    ensures no_file { replies_from (library no_key) (by 1 (request.ClearMember nowhere) ∷ by 1 (request.ReorganizeMember nowhere) ∷ []) ≡
        NoSuchName (missing.Name none) ∷ NoSuchName (missing.Name none) ∷ [] }
    ensures no_member { replies_behind no_key (by 2 opens ∷ []) (by 1 (request.ClearMember another) ∷ by 1 (request.ReorganizeMember another) ∷ []) ≡
        NoSuchName (missing.Name (codes "OLD")) ∷ NoSuchName (missing.Name (codes "OLD")) ∷ [] }
    ensures opened { replies_behind no_key
        (by 2 opens ∷ []) (by 1 (request.ClearMember its_member) ∷ by 1 (request.ReorganizeMember its_member) ∷ []) ≡
        InUse 2 ∷ InUse 2 ∷ [] }
    ensures least { replies_behind no_key
        (by 2 opens ∷ by 1 opens ∷ []) (by 2 (request.ClearMember its_member) ∷ by 2 (request.ReorganizeMember its_member) ∷ []) ≡
        InUse 1 ∷ InUse 1 ∷ [] }
    ensures changed { replies_from (unlocked (led_to no_key left_pending))
        (by 2 (request.ClearMember its_member) ∷ by 2 (request.ReorganizeMember its_member) ∷ []) ≡
        InUse 1 ∷ InUse 1 ∷ [] }
    ensures locked { replies_behind no_key left_locked
        (by 2 (request.ClearMember its_member) ∷ by 2 (request.ReorganizeMember its_member) ∷ []) ≡
        InUse 1 ∷ InUse 1 ∷ [] }
{}

/// STRJRNPF: the last sequence, a name that isn't there, a member that is used, one that is journaled.
pub fn journaling_is_not_started()
    ensures sequences { replies_from (worn_out (library no_key)) (by 1 (journal_of none none) ∷ []) ≡
        LimitReached Sequences 4611686018427387903 ∷ [] }
    ensures absent { replies_behind no_key (by 2 opens ∷ []) (by 1 (journal_of none none) ∷ by 1 (journal_of cust none) ∷ []) ≡
        NoSuchName (missing.Name none) ∷ NoSuchName (missing.Name none) ∷ [] }
    ensures in_use { replies_behind no_key three_customers (by 2 (journal After) ∷ []) ≡ InUse 1 ∷ [] }
    ensures started { replies_behind no_key closed_customers (by 2 (journal Both) ∷ []) ≡ AlreadyStarted ∷ [] }
{}

/// ENDJRNPF: the last sequence, a name that isn't there, a member that is used, one that isn't journaled.
pub fn journaling_is_not_ended()
    ensures sequences { replies_from (worn_out (library no_key)) (by 1 (request.EndJournaling nowhere) ∷ []) ≡
        LimitReached Sequences 4611686018427387903 ∷ [] }
    ensures absent { replies_behind no_key (by 2 opens ∷ []) (by 1 (request.EndJournaling nowhere) ∷ by 1 (request.EndJournaling another) ∷ []) ≡
        NoSuchName (missing.Name none) ∷ NoSuchName (missing.Name (codes "OLD")) ∷ [] }
    ensures in_use { replies_behind no_key (by 2 opens ∷ []) (by 1 (request.EndJournaling its_member) ∷ []) ≡ InUse 2 ∷ [] }
    ensures not_started { replies_from (library no_key) (by 1 (request.EndJournaling its_member) ∷ []) ≡ NotJournaled 1 ∷ [] }
{}

/// DLTF: the last sequence, a name that isn't there, a file that another one refers to, a member that is used.
pub fn file_is_not_deleted()
    ensures sequences { replies_from (worn_out (library no_key)) (by 1 (drop_file none) ∷ []) ≡
        LimitReached Sequences 4611686018427387903 ∷ [] }
    ensures absent { replies_from (with_another (keyword_line (codes "REF(NONE)")) 2 (library no_key))
        (by 1 (drop_file none) ∷ []) ≡
        NoSuchName (missing.Name none) ∷ [] }
    ensures referred_to { replies_from (with_another (keyword_line (codes "REF(CUST)")) 2 (led_to no_key
        (by 2 opens ∷ []))) (by 1 (drop_file cust) ∷ []) ≡
        Dependents (codes "OTHER") ∷ [] }
    ensures in_use { replies_behind no_key (by 2 opens ∷ []) (by 1 (drop_file cust) ∷ []) ≡ InUse 2 ∷ [] }
{}

/// CRTPF: a source with a fault, whose position 6 holds another letter than A.
pub fn source_is_refused()
    ensures { reply_with (record { name = codes "BAD"; text = codes "     X          R CUSTR" ++ 10 ∷ [] } ∷ [])
        (library no_key) (create new (codes "BAD")) ≡
        replies.DdsFault (record { line = 1; column = 6; cause = BadColumn }) }
{}
