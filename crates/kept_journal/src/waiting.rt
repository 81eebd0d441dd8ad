//! Whether entries may wait. `journal.rt` takes those that may.
ghost use Rattle.std.specs.Prelude.{◌≡◌, ◌+◌, ◌≤◌, ◌<◌, ◌^◌, true, length, IfSome};
ghost use Rattle.entry_codec.specs.Spelling.{HasSpelling, spelling};
ghost use Rattle.journal_book.specs.Entries.{IsInside};
ghost use Rattle.kept_journal.specs.Journals.{MayFollow, MayWait};

use crate::journal::KeptJournal;
use crate::spelled::{has_spelling, is_inside};
use entry_codec::{Entry, entry_length};
use gated_log::MAX_BLOCK;

/// The greatest last sequence behind which an entry may come.
const LAST_BEFORE: u64 = 1 << 63;

impl KeptJournal {
    /// Whether these entries may wait. It looks at each of them.
    pub fn may_take(&self, entries: &[Entry]) -> bool
        ensures { result ≡ true → MayWait self.now entries.now }
    {
        let (_, last) = self.bounds();
        may_follow(last, self.waiting_bytes(), entries)
    }
}

/// Whether these entries may come behind this sequence and so many bytes.
fn may_follow(last: u64, waiting: usize, entries: &[Entry]) -> bool
    ensures { result ≡ true → MayFollow last waiting entries.now }
{
    if last > LAST_BEFORE || waiting > MAX_BLOCK {
        return false;
    }
    let mut reached = last;
    let mut bytes = waiting;
    for entry in entries {
        if !is_next(entry, reached) {
            return false;
        }
        let Some(more) = bytes_with(entry, bytes) else {
            return false;
        };
        bytes = more;
        reached += 1;
    }
    true
}

/// Whether the entry may come behind this sequence.
fn is_next(entry: &Entry, last: u64) -> bool
    ensures before { result ≡ true → last < 2 ^ 63 }
    ensures numbered { result ≡ true → entry.now.sequence ≡ last + 1 }
    ensures inside { result ≡ true → IsInside entry.now }
{
    last < LAST_BEFORE && entry.sequence == last + 1 && is_inside(entry)
}

/// So many bytes and those of the entry, if it has a spelling and they are no more than a block has.
fn bytes_with(entry: &Entry, bytes: usize) -> Option<usize>
    requires { bytes ≤ MAX_BLOCK }
    ensures { IfSome result (λ more. HasSpelling entry.now × (more ≡ bytes + length (spelling entry.now)) × (more ≤ MAX_BLOCK)) }
{
    if !has_spelling(entry) {
        return None;
    }
    let more = bytes + entry_length(entry);
    if more > MAX_BLOCK {
        return None;
    }
    Some(more)
}
