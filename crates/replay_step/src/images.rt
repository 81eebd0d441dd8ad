//! The images of entries, and whether they are records.
ghost use Rattle.std.specs.Prelude.{◌≡◌, ◌∷◌, [], option_to_list, IfOk};
ghost use Rattle.std.specs.Option.{option_copied};
ghost use Rattle.journal_model.specs.Catalogue.{member_numbered};
ghost use Rattle.journal_model.specs.Images.{images_of};
ghost use Rattle.journal_replay.specs.Standing.{catalogue_in};
ghost use Rattle.journal_replay.specs.Tests.{are_records_of};

use crate::replay::Replay;
use entry_codec::{Entry, EntryKind};
use field_types::texts::Image;
use replay_files::Describe;
use std::alloc::AllocError;

impl Replay {
    /// Whether the entry's image is a record of the file of its member.
    pub(crate) fn has_records<D: Describe>(&self, by: &D, entry: &Entry) -> Result<bool, AllocError>
        ensures { IfOk result (λ b. b ≡ are_records_of (D.rules by.now) (catalogue_in self.now) (member_numbered entry.now.member (catalogue_in self.now)) (images_of entry.now.kind)) }
    {
        match image_of(&entry.kind) {
            None => Ok(true),
            Some(image) => self.is_record(by, entry.member, image),
        }
    }

    fn is_record<D: Describe>(
        &self,
        by: &D,
        number: Option<u32>,
        image: &Image,
    ) -> Result<bool, AllocError>
        ensures { IfOk result (λ b. b ≡ are_records_of (D.rules by.now) (catalogue_in self.now) (member_numbered number (catalogue_in self.now)) (image.now ∷ [])) }
    {
        let Some(number) = number else {
            return Ok(true);
        };
        let Some(member) = self.members.numbered(number) else {
            return Ok(true);
        };
        let Some(file) = self.files.named(&member.file()) else {
            return Ok(true);
        };
        by.is_record(&self.files, &file.source, image)
    }
}

/// The image that an entry of this kind holds.
fn image_of(kind: &EntryKind) -> Option<&Image>
    ensures { images_of kind.now ≡ option_to_list (option_copied result) }
{
    match kind {
        EntryKind::FileCreated { .. } => None,
        EntryKind::FileDeleted { .. } => None,
        EntryKind::MemberAdded { .. } => None,
        EntryKind::JournalingStarted { .. } => None,
        EntryKind::InitialSlot { image } => Some(image),
        EntryKind::JournalingEnded => None,
        EntryKind::MemberCleared => None,
        EntryKind::MemberReorganized => None,
        EntryKind::ChangesApplied { .. } => None,
        EntryKind::ChangesRemoved { .. } => None,
        EntryKind::RecordAdded { image } => Some(image),
        EntryKind::RecordAddedAtNumber { image } => Some(image),
        EntryKind::BeforeImage { image } => Some(image),
        EntryKind::AfterImage { image, .. } => Some(image),
        EntryKind::RecordDeleted { before } => before.as_ref(),
        EntryKind::UndoBeforeImage { image } => Some(image),
        EntryKind::UndoAfterImage { image, .. } => Some(image),
        EntryKind::UndoDelete { image } => Some(image),
        EntryKind::CommitmentStarted { .. } => None,
        EntryKind::CommitCycleStarted => None,
        EntryKind::CommitCycleCommitted => None,
        EntryKind::CommitCycleRolledBack => None,
        EntryKind::CommitmentEnded => None,
        EntryKind::AbnormalEnd => None,
        EntryKind::NextReceiver { .. } => None,
        EntryKind::PreviousReceiver { .. } => None,
    }
}
