//! The sequences that the ends of a range name.
ghost use Rattle.std.specs.Prelude.{◌≡◌, ℕ, ◌+◌, ◌<◌, ◌^◌, List, None, IfSome, length, unwrap_or};
ghost use Rattle.entry_codec.specs.declared.entries.Entry.{Entry};
ghost use Rattle.journal_model.specs.Acts.{act, acts, is_number};
ghost use Rattle.journal_model.specs.Ranges.{first_of, is_break};
ghost use Rattle.library_steps.specs.JournalReads.{first_kept};
ghost use Rattle.library_steps.specs.Ranges.{end_named};
ghost use Rattle.library_steps.specs.State.{memory_of};
ghost use Rattle.range_requests.specs.Ends.{behind_break};
ghost use Rattle.range_requests.specs.Plans.{IsRead};

use entry_codec::{Entry, EntryKind};
use journal_reads::Stretch;
use library_model::requests::RangeEnd;
use library_parts::Contents;

/// The sequence of an end of a range, where the stretch tells it.
pub(crate) fn end_named(
    contents: &Contents,
    stretch: &Stretch,
    end: RangeEnd,
    member: u32,
) -> Option<u64>
    ensures { (read : List Entry) → IsRead contents.now.state stretch.now read → IfSome result (λ named. named ≡ end_named end member read (memory_of contents.now.state)) }
{
    match end {
        RangeEnd::First => first_named(contents, stretch, member),
        RangeEnd::Last => Some(contents.bounds().1),
        RangeEnd::Sequence(sequence) => Some(sequence),
    }
}

/// One past the last break of the member; where it has none, the first sequence that is kept. None where the stretch ends before the journal does, or has no
/// break and begins later.
fn first_named(contents: &Contents, stretch: &Stretch, member: u32) -> Option<u64>
    ensures { (read : List Entry) → IsRead contents.now.state stretch.now read → IfSome result (λ first. first ≡ first_of (first_kept (memory_of contents.now.state)) (acts member None read)) }
{
    let (kept, last) = contents.bounds();
    if !stretch.reaches(last) {
        return None;
    }
    let begin = stretch.first();
    if let Some(behind) = behind_break(stretch.entries(), begin, member) {
        return Some(behind);
    }
    if begin == kept {
        return Some(kept);
    }
    None
}

/// One past the last break of the member among entries of which the first has this sequence.
fn behind_break(entries: &[Entry], first: u64, member: u32) -> Option<u64>
    requires { first + length entries.now < 2 ^ 64 }
    ensures { (now : ℕ) → behind_break member now first entries.now ≡ unwrap_or result now }
{
    let mut left = entries.len();
    while left > 0 {
        left -= 1;
        if breaks(&entries[left], member) {
            return Some(first + left as u64 + 1);
        }
    }
    None
}

/// Whether the entry breaks the member off.
pub fn breaks(entry: &Entry, member: u32) -> bool
    ensures { result ≡ is_break (act member None entry.now) }
{
    if !is_of(entry, member) {
        return false;
    }
    match &entry.kind {
        EntryKind::JournalingStarted { .. }
        | EntryKind::InitialSlot { .. }
        | EntryKind::JournalingEnded
        | EntryKind::MemberCleared
        | EntryKind::MemberReorganized => true,
        EntryKind::FileCreated { .. }
        | EntryKind::FileDeleted { .. }
        | EntryKind::MemberAdded { .. }
        | EntryKind::ChangesApplied { .. }
        | EntryKind::ChangesRemoved { .. }
        | EntryKind::RecordAdded { .. }
        | EntryKind::RecordAddedAtNumber { .. }
        | EntryKind::BeforeImage { .. }
        | EntryKind::AfterImage { .. }
        | EntryKind::RecordDeleted { .. }
        | EntryKind::UndoBeforeImage { .. }
        | EntryKind::UndoAfterImage { .. }
        | EntryKind::UndoDelete { .. }
        | EntryKind::CommitmentStarted { .. }
        | EntryKind::CommitCycleStarted
        | EntryKind::CommitCycleCommitted
        | EntryKind::CommitCycleRolledBack
        | EntryKind::CommitmentEnded
        | EntryKind::AbnormalEnd
        | EntryKind::NextReceiver { .. }
        | EntryKind::PreviousReceiver { .. } => false,
    }
}

fn is_of(entry: &Entry, number: u32) -> bool
    ensures { result ≡ is_number entry.now.member number }
{
    match entry.member {
        Some(member) => member == number,
        None => false,
    }
}
