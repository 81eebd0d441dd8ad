//! Where a member breaks off within a range, so that its changes can't be gone through.
ghost use Rattle.std.specs.Prelude.{◌≡◌, None, Option, reverse};
ghost use Rattle.entry_codec.specs.declared.entries.Entry.{Entry};
ghost use Rattle.journal_model.specs.Acts.{acts, act_there};
ghost use Rattle.journal_model.specs.Ranges.{placed};
ghost use Rattle.journal_model.specs.Journal.{AreNumbered};
ghost use Rattle.range_images.specs.Sides.{first_sequence};
ghost use Rattle.range_images.specs.Images.{IsFirstBreak};
ghost use Rattle.range_images.specs.Breaks.{break_in, is_break_of, first_break_in};

use crate::fault::RangeFault;
use crate::reading::is_of;
use entry_codec::{Entry, EntryKind};

/// What breaks a member off.
#[derive(Clone, Copy)]
pub(crate) enum Break {
    /// Journaling of it begins or ends.
    Gap,
    /// Its records lose their numbers.
    Renumbering,
}

fn break_there(entry: &Entry) -> Option<Break>
    ensures { result ≡ break_in (act_there entry.now.kind None entry.now) }
{
    match &entry.kind {
        EntryKind::JournalingStarted { .. }
        | EntryKind::InitialSlot { .. }
        | EntryKind::JournalingEnded => Some(Break::Gap),
        EntryKind::MemberCleared | EntryKind::MemberReorganized => Some(Break::Renumbering),
        EntryKind::FileCreated { .. }
        | EntryKind::FileDeleted { .. }
        | EntryKind::MemberAdded { .. }
        | EntryKind::ChangesApplied { .. }
        | EntryKind::ChangesRemoved { .. }
        | EntryKind::RecordAdded { .. }
        | EntryKind::RecordAddedAtNumber { .. }
        | EntryKind::BeforeImage { .. }
        | EntryKind::AfterImage { .. }
        | EntryKind::RecordDeleted { .. }
        | EntryKind::UndoBeforeImage { .. }
        | EntryKind::UndoAfterImage { .. }
        | EntryKind::UndoDelete { .. }
        | EntryKind::CommitmentStarted { .. }
        | EntryKind::CommitCycleStarted
        | EntryKind::CommitCycleCommitted
        | EntryKind::CommitCycleRolledBack
        | EntryKind::CommitmentEnded
        | EntryKind::AbnormalEnd
        | EntryKind::NextReceiver { .. }
        | EntryKind::PreviousReceiver { .. } => None,
    }
}

fn is_break(entry: &Entry, number: u32, kind: Break) -> bool
    ensures { result ≡ is_break_of kind number entry.now }
{
    if !is_of(entry, number) {
        return false;
    }
    match (break_there(entry), kind) {
        (Some(Break::Gap), Break::Gap) | (Some(Break::Renumbering), Break::Renumbering) => true,
        (Some(Break::Gap), Break::Renumbering)
        | (Some(Break::Renumbering), Break::Gap)
        | (None, _) => false,
    }
}

/// The sequence of the first entry that breaks the member off in that way.
pub(crate) fn first_break(entries: &[Entry], number: u32, kind: Break) -> Option<u64>
    ensures { result ≡ first_break_in kind number entries.now }
{
    for entry in entries {
        if is_break(entry, number, kind) {
            return Some(entry.sequence);
        }
    }
    None
}

/// The sequence of the last entry that does.
pub(crate) fn last_break(entries: &[Entry], number: u32, kind: Break) -> Option<u64>
    ensures { result ≡ first_break_in kind number (reverse entries.now) }
{
    let mut left = entries.len();
    while left > 0 {
        left -= 1;
        let entry = &entries[left];
        if is_break(entry, number, kind) {
            return Some(entry.sequence);
        }
    }
    None
}

/// The first break on the way from the first entry to the last: a gap before all others.
pub(crate) fn break_forward(entries: &[Entry], number: u32) -> Option<RangeFault>
    requires { AreNumbered (first_sequence entries.now) entries.now }
    ensures { (prior : Option Entry) → IsFirstBreak result (placed (first_sequence entries.now) (acts number prior entries.now)) }
{
    if let Some(sequence) = first_break(entries, number, Break::Gap) {
        return Some(RangeFault::Gap { sequence });
    }
    match first_break(entries, number, Break::Renumbering) {
        Some(sequence) => Some(RangeFault::NotRemovable { sequence }),
        None => None,
    }
}

/// The same on the way from the last entry back.
pub(crate) fn break_back(entries: &[Entry], number: u32) -> Option<RangeFault>
    requires { AreNumbered (first_sequence entries.now) entries.now }
    ensures { (prior : Option Entry) → IsFirstBreak result (reverse (placed (first_sequence entries.now) (acts number prior entries.now))) }
{
    if let Some(sequence) = last_break(entries, number, Break::Gap) {
        return Some(RangeFault::Gap { sequence });
    }
    match last_break(entries, number, Break::Renumbering) {
        Some(sequence) => Some(RangeFault::NotRemovable { sequence }),
        None => None,
    }
}
