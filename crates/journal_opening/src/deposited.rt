//! Whether an entry is one that libraries deposit. What that is, is in specs/Deposited.antt of journaled_entries.
ghost use Rattle.std.specs.Prelude.{◌≡◌, Some};
ghost use Rattle.journal_model.specs.Catalogue.{member_numbered};
ghost use Rattle.journal_replay.specs.Standing.{catalogue_in};
ghost use Rattle.journaled_entries.specs.Deposited.{is_journaled, may_be_deposited};

use entry_codec::Entry;
use journaled_entries::{is_of_record, is_placed};
use replay_step::Replay;

/// Whether it names what its kind wants, and is of a journaled member where it is of a record.
pub(crate) fn may_be_deposited(replay: &Replay, entry: &Entry) -> bool
    ensures { result ≡ may_be_deposited (catalogue_in replay.now) entry.now }
{
    is_placed(entry) && (!is_of_record(&entry.kind) || is_journaled(replay, entry.member))
}

/// Whether the member of that number, where there is one, is journaled.
fn is_journaled(replay: &Replay, number: Option<u32>) -> bool
    ensures { result ≡ is_journaled (member_numbered number (catalogue_in replay.now)) }
{
    match number {
        None => true,
        Some(number) => is_numbered_journaled(replay, number),
    }
}

fn is_numbered_journaled(replay: &Replay, number: u32) -> bool
    ensures { result ≡ is_journaled (member_numbered (Some number) (catalogue_in replay.now)) }
{
    let members = replay.members();
    match members.numbered(number) {
        None => true,
        Some(member) => member.images().is_some(),
    }
}
