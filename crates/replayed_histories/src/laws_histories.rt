//! Whole histories, from what each request keeps. The functions do nothing.

ghost use Rattle.replayed_histories.specs.Unsaved.{AreHistoriesReplayed, StaysCheckpoint};

/// No request but CHKPT moves the checkpoint.
pub fn other_requests_make_no_checkpoint()
    ensures { StaysCheckpoint }
{}

/// What each request keeps, each legal history keeps in which no call asks for a checkpoint.
pub fn histories_keep_what_requests_keep()
    ensures { AreHistoriesReplayed }
{}
