//! Receivers that are attached and given up, and a checkpoint.
ghost use Rattle.std.specs.Prelude.{◌≡◌, [], ◌∷◌, ◌++◌, codes};
ghost use Rattle.library_model.specs.declared.requests.Request.TheVariants as request;
ghost use Rattle.library_model.specs.declared.requests.RangeEnd.TheVariants.{Sequence};
ghost use Rattle.library_model.specs.declared.replies.Reply.TheVariants.{Done, Receiver, StillNeeded, Sequence as SequenceReply, ReceiverGone, NoSuchName};
ghost use Rattle.library_model.specs.declared.replies.Missing.TheVariants as missing;
ghost use Rattle.library_rows.specs.Customers.{cust, no_key};
ghost use Rattle.library_rows.specs.Calls.{by, three_customers, close, remove};
ghost use Rattle.library_rows.specs.Shown.{replies_behind};

/// The first receiver is given up once a checkpoint has its entries.
pub fn receiver_is_given_up()
    ensures { replies_behind no_key three_customers
        (by 1 request.ChangeJournal ∷ by 1 (request.DeleteReceiver (record { number = 1 })) ∷ by 1 request.Checkpoint ∷ by 1 (request.DeleteReceiver (record { number = 1 }))
        ∷ by 1 (request.DeleteReceiver (record { number = 2 })) ∷ by 1 (request.DeleteReceiver (record { number = 1 })) ∷ by 1 (close cust) ∷ by 1 (remove (Sequence 5) (Sequence 3)) ∷ []) ≡
        Receiver 2 ∷ StillNeeded 1 ∷ SequenceReply 7 ∷ Done ∷ StillNeeded 8 ∷ NoSuchName (missing.Receiver 1) ∷ Done ∷ ReceiverGone 7 ∷ [] }
{}
