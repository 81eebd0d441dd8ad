//! DSPJRN. Which entries may be shown is in `spelled.rt`.
ghost use Rattle.std.specs.Prelude.{◌≡◌, ◌+◌, ◌≤◌, List, length, IfOk, IfSome, IsTrue};
ghost use Rattle.std.specs.List.{All};
ghost use Rattle.entry_codec.specs.declared.entries.Entry.{Entry};
ghost use Rattle.entry_codec.specs.Spelling.{HasSpelling};
ghost use Rattle.journal_model.specs.Journal.{AreNumbered};
ghost use Rattle.journal_reads.specs.Stretches.{IsStretchOf};
ghost use Rattle.library_steps.specs.History.{is_running};
ghost use Rattle.library_steps.specs.JournalReads.{display_journal, display_plan};
ghost use Rattle.library_steps.specs.State.{job_at, memory_of};
ghost use Rattle.library_parts.specs.Answers.{Answers};
ghost use Rattle.journal_requests.specs.Shown.{MayShow};

use crate::spelled::has_spelling;
use entry_codec::Entry;
use journal_reads::Stretch;
use library_model::replies::{Entries, LimitKind, Reply};
use library_model::requests::DisplayJournal;
use library_parts::{Contents, Stop};
use library_steps::limits::MOST_DISPLAYED;
use std::alloc::{AllocError, Global};

/// The sequences of the first and the last entry that have to be read for it; none where it is refused without them.
pub fn display_wanted(contents: &Contents, args: &DisplayJournal) -> Option<(u64, u64)>
    ensures kept { IfSome result (λ wanted. contents.now.state.gone + 1 ≤ wanted.0) }
    ensures order { IfSome result (λ wanted. wanted.0 ≤ wanted.1) }
    ensures there { IfSome result (λ wanted. wanted.1 ≤ (memory_of contents.now.state).last_entry) }
{
    let (kept, last) = contents.bounds();
    if args.from < kept || args.to < args.from || last < args.to {
        return None;
    }
    if args.to - args.from >= MOST_DISPLAYED as u64 {
        return None;
    }
    Some((args.from, args.to))
}

/// Shows the entries from a sequence up to another, where the stretch of the journal has them.
pub fn display_journal(
    contents: &Contents,
    _job: u32,
    args: &DisplayJournal,
    stretch: &Stretch,
) -> Result<Reply, Stop>
    requires running { IsTrue (is_running (job_at _job contents.now.state.jobs)) }
    ensures answers { (read : List Entry) → length read ≡ length contents.now.state.entries → AreNumbered (contents.now.state.gone + 1) read → IsStretchOf (contents.now.state.gone + 1) read stretch.now → Answers contents.now.state contents.now.state result (display_journal read (memory_of contents.now.state) args.now) }
{
    let shown = plan_display(contents, args, stretch)?;
    let entries = copied(contents.alloc(), shown)?;
    Ok(Reply::Entries(Entries::from_vec(entries)))
}

#[tactic(auto, unfolding(library_steps::specs::JournalReads::display_plan))]
fn plan_display<'a>(
    contents: &Contents,
    args: &DisplayJournal,
    stretch: &'a Stretch,
) -> Result<&'a [Entry], Stop>
    ensures { (read : List Entry) → IsStretchOf (contents.now.state.gone + 1) read stretch.now → MayShow result (display_plan read (memory_of contents.now.state) args.now) }
{
    let (kept, last) = contents.bounds();
    if args.to < args.from || args.from == 0 || last < args.to {
        return Err(Stop::Refused(Reply::NoSuchEntry));
    }
    if args.to - args.from + 1 > MOST_DISPLAYED as u64 {
        return Err(Stop::Refused(Reply::LimitReached {
            which: LimitKind::DisplayEntries,
            number: MOST_DISPLAYED as u64,
        }));
    }
    if args.from < kept {
        return Err(Stop::Refused(Reply::ReceiverGone { sequence: kept }));
    }
    match stretch.between(args.from, args.to) {
        Some(shown) => Ok(shown),
        None => Err(Stop::NoMemory),
    }
}

/// Copies of the entries, each of which can be written.
fn copied(alloc: Global, shown: &[Entry]) -> Result<Vec<Entry>, AllocError>
    ensures entries { IfOk result (λ entries. entries.items ≡ shown.now) }
    ensures spelled { IfOk result (λ entries. All HasSpelling entries.items) }
{
    let mut entries = Vec::new(alloc);
    for entry in shown {
        // That the journal holds only entries that can be written isn't known here.
        if !has_spelling(entry) {
            return Err(AllocError);
        }
        entries.push(entry.copied(alloc)?)?;
    }
    Ok(entries)
}
