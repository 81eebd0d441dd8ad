//! Pairs of images: an entry that shows a record before a change, and the one behind it that takes it.
ghost use Rattle.std.specs.Prelude.{◌≡◌, if◌then◌else◌, None, Some};
ghost use Rattle.std.specs.Option.{option_map};
ghost use Rattle.journal_model.specs.Pairs.{pair_begun, pair_ended};
ghost use Rattle.journal_replay.specs.PairsRead.{pair_of};
ghost use Rattle.journal_replay.specs.Tests.{is_pair, is_same_job, is_one_change, ends_pair};

use crate::slots::{is_same_cycle, is_same_number};
use entry_codec::{Entry, EntryKind};
use field_types::names::Name;

/// What a pair of images is of.
#[derive(Clone, Copy)]
pub enum Pair {
    /// An update.
    Update,
    /// The undo of a change.
    Undo,
}

impl Pair {
    /// The pair, where the entry says that it has a before image.
    fn where_told(self, has_before: bool) -> Option<Pair>
        ensures { result ≡ (if has_before then Some self else None) }
    {
        if has_before { Some(self) } else { None }
    }
}

/// The pair that an entry of this kind begins.
pub fn pair_begun(kind: &EntryKind) -> Option<Pair>
    ensures { option_map pair_of result ≡ pair_begun kind.now }
{
    match kind {
        EntryKind::FileCreated { .. } => None,
        EntryKind::FileDeleted { .. } => None,
        EntryKind::MemberAdded { .. } => None,
        EntryKind::JournalingStarted { .. } => None,
        EntryKind::InitialSlot { .. } => None,
        EntryKind::JournalingEnded => None,
        EntryKind::MemberCleared => None,
        EntryKind::MemberReorganized => None,
        EntryKind::ChangesApplied { .. } => None,
        EntryKind::ChangesRemoved { .. } => None,
        EntryKind::RecordAdded { .. } => None,
        EntryKind::RecordAddedAtNumber { .. } => None,
        EntryKind::BeforeImage { .. } => Some(Pair::Update),
        EntryKind::AfterImage { .. } => None,
        EntryKind::RecordDeleted { .. } => None,
        EntryKind::UndoBeforeImage { .. } => Some(Pair::Undo),
        EntryKind::UndoAfterImage { .. } => None,
        EntryKind::UndoDelete { .. } => None,
        EntryKind::CommitmentStarted { .. } => None,
        EntryKind::CommitCycleStarted => None,
        EntryKind::CommitCycleCommitted => None,
        EntryKind::CommitCycleRolledBack => None,
        EntryKind::CommitmentEnded => None,
        EntryKind::AbnormalEnd => None,
        EntryKind::NextReceiver { .. } => None,
        EntryKind::PreviousReceiver { .. } => None,
    }
}

/// The pair that an entry of this kind ends.
pub fn pair_ended(kind: &EntryKind) -> Option<Pair>
    ensures { option_map pair_of result ≡ pair_ended kind.now }
{
    match kind {
        EntryKind::FileCreated { .. } => None,
        EntryKind::FileDeleted { .. } => None,
        EntryKind::MemberAdded { .. } => None,
        EntryKind::JournalingStarted { .. } => None,
        EntryKind::InitialSlot { .. } => None,
        EntryKind::JournalingEnded => None,
        EntryKind::MemberCleared => None,
        EntryKind::MemberReorganized => None,
        EntryKind::ChangesApplied { .. } => None,
        EntryKind::ChangesRemoved { .. } => None,
        EntryKind::RecordAdded { .. } => None,
        EntryKind::RecordAddedAtNumber { .. } => None,
        EntryKind::BeforeImage { .. } => None,
        EntryKind::AfterImage { has_before, .. } => Pair::Update.where_told(*has_before),
        EntryKind::RecordDeleted { .. } => None,
        EntryKind::UndoBeforeImage { .. } => None,
        EntryKind::UndoAfterImage { has_before, .. } => Pair::Undo.where_told(*has_before),
        EntryKind::UndoDelete { .. } => None,
        EntryKind::CommitmentStarted { .. } => None,
        EntryKind::CommitCycleStarted => None,
        EntryKind::CommitCycleCommitted => None,
        EntryKind::CommitCycleRolledBack => None,
        EntryKind::CommitmentEnded => None,
        EntryKind::AbnormalEnd => None,
        EntryKind::NextReceiver { .. } => None,
        EntryKind::PreviousReceiver { .. } => None,
    }
}

/// Whether the entry ends the pair that the one before it began, and no other.
pub fn ends_pair(begun: &Option<Entry>, entry: &Entry) -> bool
    ensures { result ≡ ends_pair begun.now entry.now }
{
    match begun {
        None => pair_ended(&entry.kind).is_none(),
        Some(prior) => {
            let pair = pair_begun(&prior.kind);
            if !is_pair(pair_ended(&entry.kind), pair) {
                return false;
            }
            match pair {
                None => true,
                Some(_) => is_one_change(prior, entry),
            }
        }
    }
}

fn is_pair(a: Option<Pair>, b: Option<Pair>) -> bool
    ensures { result ≡ is_pair (option_map pair_of a) (option_map pair_of b) }
{
    match a {
        None => match b {
            None => true,
            Some(_) => false,
        },
        Some(Pair::Update) => match b {
            None => false,
            Some(Pair::Update) => true,
            Some(Pair::Undo) => false,
        },
        Some(Pair::Undo) => match b {
            None => false,
            Some(Pair::Update) => false,
            Some(Pair::Undo) => true,
        },
    }
}

/// Whether two entries are of one change: of one job, commit cycle, member and record.
fn is_one_change(a: &Entry, b: &Entry) -> bool
    ensures { result ≡ is_one_change a.now b.now }
{
    is_same_job(&a.job, &b.job)
        && is_same_cycle(a.group, b.group)
        && is_same_number(a.member, b.member)
        && is_same_number(a.rrn, b.rrn)
}

fn is_same_job(a: &Option<Name>, b: &Option<Name>) -> bool
    ensures { result ≡ is_same_job a.now b.now }
{
    match a {
        None => b.is_none(),
        Some(a) => match b {
            None => false,
            Some(b) => *a == *b,
        },
    }
}
