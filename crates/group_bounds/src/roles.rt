//! What an entry is to commit cycles, as far as one member is concerned.
ghost use Rattle.std.specs.Prelude.{◌≡◌, None};
ghost use Rattle.entry_codec.specs.declared.entries.Entry.{Entry};
ghost use Rattle.journal_model.specs.Acts.{act_there, act_elsewhere, cycle_of, is_number};
ghost use Rattle.group_bounds.specs.Walk.{role_of, entry_role};

use entry_codec::{Entry, EntryKind};

/// What an entry is to commit cycles.
#[derive(Clone, Copy)]
pub(crate) enum Role {
    /// It changes a slot of the member, for this commit cycle or for none.
    Changes(Option<u64>),
    Begins(u64),
    /// A commit or a rollback.
    Ends(u64),
    Other,
}

/// What the entry is to commit cycles.
pub(crate) fn entry_role(entry: &Entry, member: u32) -> Role
    ensures { result ≡ entry_role member entry.now }
{
    if is_of(entry, member) {
        role_there(entry)
    } else {
        role_elsewhere(entry)
    }
}

fn is_of(entry: &Entry, member: u32) -> bool
    ensures { result ≡ is_number entry.now.member member }
{
    match entry.member {
        Some(number) => number == member,
        None => false,
    }
}

fn cycle(entry: &Entry) -> u64
    ensures { result ≡ cycle_of entry.now.group }
{
    entry.group.unwrap_or(0)
}

// Of an entry that names the member.
fn role_there(entry: &Entry) -> Role
    ensures { result ≡ role_of (act_there entry.now.kind None entry.now) }
{
    match &entry.kind {
        EntryKind::RecordAdded { .. }
        | EntryKind::RecordAddedAtNumber { .. }
        | EntryKind::AfterImage { .. }
        | EntryKind::RecordDeleted { .. }
        | EntryKind::UndoAfterImage { .. }
        | EntryKind::UndoDelete { .. } => Role::Changes(entry.group),
        EntryKind::CommitCycleStarted => Role::Begins(cycle(entry)),
        EntryKind::CommitCycleCommitted | EntryKind::CommitCycleRolledBack => {
            Role::Ends(cycle(entry))
        }
        EntryKind::FileCreated { .. }
        | EntryKind::FileDeleted { .. }
        | EntryKind::MemberAdded { .. }
        | EntryKind::JournalingStarted { .. }
        | EntryKind::InitialSlot { .. }
        | EntryKind::JournalingEnded
        | EntryKind::MemberCleared
        | EntryKind::MemberReorganized
        | EntryKind::ChangesApplied { .. }
        | EntryKind::ChangesRemoved { .. }
        | EntryKind::BeforeImage { .. }
        | EntryKind::UndoBeforeImage { .. }
        | EntryKind::CommitmentStarted { .. }
        | EntryKind::CommitmentEnded
        | EntryKind::AbnormalEnd
        | EntryKind::NextReceiver { .. }
        | EntryKind::PreviousReceiver { .. } => Role::Other,
    }
}

// Of an entry that doesn't: commit cycles are of no member.
fn role_elsewhere(entry: &Entry) -> Role
    ensures { result ≡ role_of (act_elsewhere entry.now.kind entry.now) }
{
    match &entry.kind {
        EntryKind::CommitCycleStarted => Role::Begins(cycle(entry)),
        EntryKind::CommitCycleCommitted | EntryKind::CommitCycleRolledBack => {
            Role::Ends(cycle(entry))
        }
        EntryKind::FileCreated { .. }
        | EntryKind::FileDeleted { .. }
        | EntryKind::MemberAdded { .. }
        | EntryKind::JournalingStarted { .. }
        | EntryKind::InitialSlot { .. }
        | EntryKind::JournalingEnded
        | EntryKind::MemberCleared
        | EntryKind::MemberReorganized
        | EntryKind::ChangesApplied { .. }
        | EntryKind::ChangesRemoved { .. }
        | EntryKind::RecordAdded { .. }
        | EntryKind::RecordAddedAtNumber { .. }
        | EntryKind::BeforeImage { .. }
        | EntryKind::AfterImage { .. }
        | EntryKind::RecordDeleted { .. }
        | EntryKind::UndoBeforeImage { .. }
        | EntryKind::UndoAfterImage { .. }
        | EntryKind::UndoDelete { .. }
        | EntryKind::CommitmentStarted { .. }
        | EntryKind::CommitmentEnded
        | EntryKind::AbnormalEnd
        | EntryKind::NextReceiver { .. }
        | EntryKind::PreviousReceiver { .. } => Role::Other,
    }
}
