//! Whether what was read of the journal tells of records as the library has them.
ghost use Rattle.std.specs.Prelude.{◌≡◌, ℕ, true, false, Some, List, IfSome};
ghost use Rattle.std.specs.List.{AllByRecursion};
ghost use Rattle.std.specs.Option.{option_and_then, option_copied, option_map};
ghost use Rattle.entry_codec.specs.Placing.{place};
ghost use Rattle.journal_model.specs.Images.{images_of};
ghost use Rattle.journaled_entries.specs.Deposited.{is_of_record};
ghost use Rattle.lawful_states.specs.Owners.{Owns};
ghost use Rattle.library_model.specs.Named.{named};
ghost use Rattle.library_steps.specs.State.{FileState, format_in, physical_in};
ghost use Rattle.record_changes.specs.Told.{IsRecordOf, IsTold, MayHavePlace, NamesPlace, TellsRecord};

use commitment_requests::library_parts::Contents;
use entry_codec::{Entry, EntryKind};
use field_types::names::Name;
use file_catalogue::Catalogue;
use member_slots::member::{MOST_BYTES, MOST_SLOTS};
use record_fmt::formats::Format;

/// Whether the entry, where it names a member that a file has, tells of records of that file, at places that they may have.
pub(crate) fn is_told(contents: &Contents, entry: &Entry) -> bool
    ensures told { result ≡ true → IsTold contents.now.state.files entry.now }
    ensures other { result ≡ false → IsTold contents.now.state.files entry.now → ⊥ }
{
    let Some(number) = entry.member else {
        return true;
    };
    match format_of(contents, number) {
        Some(format) => tells_record(format, entry),
        None => true,
    }
}

/// The format of the records of the member with this number, where a file has it.
fn format_of(contents: &Contents, number: u32) -> Option<&Format>
    ensures has { (name : List ℕ) → (file : FileState) → Owns contents.now.state.files name file number → option_copied result ≡ Some (format_in file.spec) }
    ensures owned { IfSome result (λ format. (name : List ℕ) × (file : FileState) × Owns contents.now.state.files name file number × (format.now ≡ format_in file.spec)) }
{
    // Only physical files have members, no two files have one name, and no two members one number.
    let _jobs = contents.jobs_begun();
    let catalogue = contents.catalogue();
    let _files = catalogue.len();
    match catalogue.owner(number) {
        Some(name) => format_named(catalogue, &name),
        None => None,
    }
}

/// The format of the records of the physical file of that name.
fn format_named<'a>(catalogue: &'a Catalogue, name: &Name) -> Option<&'a Format>
    ensures { option_copied result ≡ option_and_then (λ file. option_map (λ spec. spec.format) (physical_in file.spec)) (named name.now catalogue.now.files) }
{
    match catalogue.named(name) {
        Some(file) => file.format(),
        None => None,
    }
}

/// Whether each image of the entry is a record of the format, and the record that it names is at a place for one.
fn tells_record(format: &Format, entry: &Entry) -> bool
    ensures told { result ≡ true → TellsRecord format.now.fields entry.now }
    ensures other { result ≡ false → TellsRecord format.now.fields entry.now → ⊥ }
{
    has_records(format, &entry.kind) && has_place(format, entry)
}

/// Whether each image is a record of the format.
fn has_records(format: &Format, kind: &EntryKind) -> bool
    ensures told { result ≡ true → AllByRecursion (IsRecordOf format.now.fields) (images_of kind.now) }
    ensures other { result ≡ false → AllByRecursion (IsRecordOf format.now.fields) (images_of kind.now) → ⊥ }
{
    match kind {
        EntryKind::InitialSlot { image }
        | EntryKind::RecordAdded { image }
        | EntryKind::RecordAddedAtNumber { image }
        | EntryKind::BeforeImage { image }
        | EntryKind::AfterImage { image, .. }
        | EntryKind::UndoBeforeImage { image }
        | EntryKind::UndoAfterImage { image, .. }
        | EntryKind::UndoDelete { image } => is_record(format, image.as_bytes()),
        EntryKind::RecordDeleted { before } => match before {
            Some(image) => is_record(format, image.as_bytes()),
            None => true,
        },
        EntryKind::FileCreated { .. }
        | EntryKind::FileDeleted { .. }
        | EntryKind::MemberAdded { .. }
        | EntryKind::JournalingStarted { .. }
        | EntryKind::JournalingEnded
        | EntryKind::MemberCleared
        | EntryKind::MemberReorganized
        | EntryKind::ChangesApplied { .. }
        | EntryKind::ChangesRemoved { .. }
        | EntryKind::CommitmentStarted { .. }
        | EntryKind::CommitCycleStarted
        | EntryKind::CommitCycleCommitted
        | EntryKind::CommitCycleRolledBack
        | EntryKind::CommitmentEnded
        | EntryKind::AbnormalEnd
        | EntryKind::NextReceiver { .. }
        | EntryKind::PreviousReceiver { .. } => true,
    }
}

fn is_record(format: &Format, image: &[u8]) -> bool
    ensures told { result ≡ true → IsRecordOf format.now.fields image.now }
    ensures other { result ≡ false → IsRecordOf format.now.fields image.now → ⊥ }
{
    image.len() == format.length() as usize && format.first_bad(image).is_none()
}

/// Whether the record that the entry names, where it is of one, is at a place for a record of the format.
fn has_place(format: &Format, entry: &Entry) -> bool
    ensures told { result ≡ true → is_of_record (place entry.now.kind) ≡ true → NamesPlace format.now.fields entry.now.rrn }
    ensures other { result ≡ false → (is_of_record (place entry.now.kind) ≡ true → NamesPlace format.now.fields entry.now.rrn) → ⊥ }
{
    if !is_of_record(&entry.kind) {
        return true;
    }
    match entry.rrn {
        Some(rrn) => may_have_place(format, rrn),
        None => false,
    }
}

/// Whether a member with records of the format may have a record at that number.
fn may_have_place(format: &Format, rrn: u32) -> bool
    ensures told { result ≡ true → MayHavePlace format.now.fields rrn }
    ensures other { result ≡ false → MayHavePlace format.now.fields rrn → ⊥ }
{
    let number = u64::from(rrn);
    0 < number && number <= MOST_SLOTS && number * u64::from(format.length()) <= MOST_BYTES
}

/// Whether it is an entry of a record.
fn is_of_record(kind: &EntryKind) -> bool
    ensures { result ≡ is_of_record (place kind.now) }
{
    match kind {
        EntryKind::InitialSlot { .. }
        | EntryKind::RecordAdded { .. }
        | EntryKind::RecordAddedAtNumber { .. }
        | EntryKind::BeforeImage { .. }
        | EntryKind::AfterImage { .. }
        | EntryKind::RecordDeleted { .. }
        | EntryKind::UndoBeforeImage { .. }
        | EntryKind::UndoAfterImage { .. }
        | EntryKind::UndoDelete { .. } => true,
        EntryKind::FileCreated { .. }
        | EntryKind::FileDeleted { .. }
        | EntryKind::MemberAdded { .. }
        | EntryKind::JournalingStarted { .. }
        | EntryKind::JournalingEnded
        | EntryKind::MemberCleared
        | EntryKind::MemberReorganized
        | EntryKind::ChangesApplied { .. }
        | EntryKind::ChangesRemoved { .. }
        | EntryKind::CommitmentStarted { .. }
        | EntryKind::CommitCycleStarted
        | EntryKind::CommitCycleCommitted
        | EntryKind::CommitCycleRolledBack
        | EntryKind::CommitmentEnded
        | EntryKind::AbnormalEnd
        | EntryKind::NextReceiver { .. }
        | EntryKind::PreviousReceiver { .. } => false,
    }
}
