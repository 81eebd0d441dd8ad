//! Where a receiver ends.
ghost use Rattle.std.specs.Prelude.{◌≡◌};
ghost use Rattle.lawful_states.specs.Receivers.{next_receiver};

use entry_codec::EntryKind;

/// The receiver that an entry ends its own for.
pub(crate) fn next_receiver(kind: &EntryKind) -> Option<u32>
    ensures { result ≡ next_receiver kind.now }
{
    match kind {
        EntryKind::NextReceiver { number } => Some(*number),
        EntryKind::FileCreated { .. }
        | EntryKind::FileDeleted { .. }
        | EntryKind::MemberAdded { .. }
        | EntryKind::JournalingStarted { .. }
        | EntryKind::InitialSlot { .. }
        | EntryKind::JournalingEnded
        | EntryKind::MemberCleared
        | EntryKind::MemberReorganized
        | EntryKind::ChangesApplied { .. }
        | EntryKind::ChangesRemoved { .. }
        | EntryKind::RecordAdded { .. }
        | EntryKind::RecordAddedAtNumber { .. }
        | EntryKind::BeforeImage { .. }
        | EntryKind::AfterImage { .. }
        | EntryKind::RecordDeleted { .. }
        | EntryKind::UndoBeforeImage { .. }
        | EntryKind::UndoAfterImage { .. }
        | EntryKind::UndoDelete { .. }
        | EntryKind::CommitmentStarted { .. }
        | EntryKind::CommitCycleStarted
        | EntryKind::CommitCycleCommitted
        | EntryKind::CommitCycleRolledBack
        | EntryKind::CommitmentEnded
        | EntryKind::AbnormalEnd
        | EntryKind::PreviousReceiver { .. } => None,
    }
}
