//! What is refused of commitment control and of opens; where two refusals hold, the one that comes first.
ghost use Rattle.std.specs.Prelude.{◌≡◌, [], ◌∷◌, ◌++◌, true, false, codes};
ghost use Rattle.commit_level.specs.declared.Level.TheVariants.{Chg};
ghost use Rattle.entry_codec.specs.declared.kinds.Images.TheVariants.{Both};
ghost use Rattle.library_model.specs.declared.requests.Request.TheVariants as request;
ghost use Rattle.library_model.specs.declared.replies.Reply.TheVariants.{NoSuchName, NameExists, InUse, NotJournaled, PendingChanges, NoDefinition, AlreadyStarted, LimitReached};
ghost use Rattle.library_model.specs.declared.replies.Missing.TheVariants as missing;
ghost use Rattle.library_model.specs.declared.replies.LimitKind.TheVariants.{Sequences, Opens};
ghost use Rattle.library_rows.specs.Customers.{cust, no_key, library};
ghost use Rattle.library_rows.specs.Calls.{by, journal, opens, open_as, close, start_commitment};
ghost use Rattle.library_rows.specs.Shown.{replies_behind, led_to};
ghost use Rattle.library_rows.specs.Cycles.{pending};
ghost use Rattle.library_rows.specs.Brimming.{replies_from, worn_out, more_opens};
ghost use Rattle.library_rows.specs.RefusedCalls.{none, new, open_of};

/// STRCMTCTL: the last sequence, a definition that is there.
pub fn commitment_is_not_started()
    ensures sequences { replies_from (worn_out (led_to no_key
        (by 1 (start_commitment Chg) ∷ []))) (by 1 (start_commitment Chg) ∷ []) ≡
        LimitReached Sequences 4611686018427387903 ∷ [] }
    ensures started { replies_behind no_key (by 1 (start_commitment Chg) ∷ []) (by 1 (start_commitment Chg) ∷ []) ≡ AlreadyStarted ∷ [] }
{}

/// ENDCMTCTL, COMMIT and ROLLBACK: no definition; the first also open changes, and an open under commitment.
pub fn commitment_is_not_ended()
    ensures no_definition { replies_behind no_key (by 2 (start_commitment Chg) ∷ []) (by 1 request.EndCommitment ∷ by 1 request.Commit
        ∷ by 1 request.Rollback ∷ []) ≡
        NoDefinition ∷ NoDefinition ∷ NoDefinition ∷ [] }
    ensures pending { replies_behind no_key pending (by 1 request.EndCommitment ∷ []) ≡ PendingChanges 7 ∷ [] }
    ensures in_use { replies_behind no_key
        (by 1 (journal Both) ∷ by 1 (start_commitment Chg) ∷ by 1 opens ∷ by 1 (open_as (codes "U") true) ∷ []) (by 1 request.EndCommitment ∷ []) ≡
        InUse 1 ∷ [] }
{}

/// OPNDBF and CLOF: a name that is taken, too many opens, a name that isn't there; under commitment no definition, a member that isn't journaled.
pub fn open_is_refused()
    ensures opens { replies_from (more_opens 31) (by 1 (open_of none none cust true) ∷ by 1 (open_of none none new true) ∷ []) ≡
        NameExists cust ∷ LimitReached Opens 32 ∷ [] }
    ensures last_open { replies_from (more_opens 30) (by 1 (open_of none none new true) ∷ []) ≡ NoSuchName (missing.Name none) ∷ [] }
    ensures absent { replies_from (library no_key) (by 1 (open_of none none new true) ∷ by 1 (open_of cust none new true) ∷ []) ≡
        NoSuchName (missing.Name none) ∷ NoSuchName (missing.Name none) ∷ [] }
    ensures no_definition { replies_from (library no_key) (by 1 (open_of cust cust new true) ∷ []) ≡ NoDefinition ∷ [] }
    ensures not_journaled { replies_behind no_key (by 1 (start_commitment Chg) ∷ []) (by 1 (open_of cust cust new true) ∷ []) ≡
        NotJournaled 1 ∷ [] }
    ensures not_open { replies_behind no_key (by 2 opens ∷ []) (by 1 (close cust) ∷ []) ≡ NoSuchName (missing.Name cust) ∷ [] }
{}
