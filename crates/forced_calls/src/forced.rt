//! Whether a call is forced.
ghost use Rattle.std.specs.Prelude.{◌≡◌, not};
ghost use Rattle.forced_calls.specs.Forced.{are_free, has_cycle, is_forced, is_nil};

use entry_codec::Entry;
use library_model::requests::Request;

/// Whether a call that deposited these entries is on the disk before it is answered.
pub fn is_forced(request: &Request, entries: &[Entry]) -> bool
    ensures { result ≡ is_forced request.now entries.now }
{
    match request {
        Request::CreatePhysicalFile(_)
        | Request::CreateLogicalFile(_)
        | Request::DeleteFile(_)
        | Request::AddMember(_)
        | Request::ClearMember(_)
        | Request::ReorganizeMember(_)
        | Request::StartJournaling(_)
        | Request::EndJournaling(_)
        | Request::ChangeJournal
        | Request::Checkpoint
        | Request::ApplyChanges(_)
        | Request::RemoveChanges(_)
        | Request::EndJob(_) => true,
        Request::Commit => has_some(entries),
        Request::Write(_) | Request::Update(_) | Request::Delete(_) => are_free(entries),
        Request::DeleteReceiver(_)
        | Request::DisplayJournal(_)
        | Request::StartCommitment(_)
        | Request::EndCommitment
        | Request::Rollback
        | Request::OpenFile(_)
        | Request::CloseFile(_)
        | Request::SetLowerLimit(_)
        | Request::SetGreaterThan(_)
        | Request::Read(_)
        | Request::ReadPrior(_)
        | Request::ReadEqual(_)
        | Request::ReadPriorEqual(_)
        | Request::Chain(_)
        | Request::Unlock(_) => false,
    }
}

fn has_some(entries: &[Entry]) -> bool
    ensures { result ≡ not (is_nil entries.now) }
{
    match entries {
        [] => false,
        [_, ..] => true,
    }
}

/// Whether none belongs to a commit cycle.
fn are_free(entries: &[Entry]) -> bool
    ensures { result ≡ are_free entries.now }
{
    !has_cycle(entries)
}

/// Whether one belongs to a commit cycle.
fn has_cycle(entries: &[Entry]) -> bool
    ensures { result ≡ has_cycle entries.now }
{
    entries.iter().any(|entry| entry.group.is_some())
}
