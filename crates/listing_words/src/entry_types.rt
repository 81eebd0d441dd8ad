//! What an entry of the journal says, by its type. `specs/EntryTypes.antt` has the types.
ghost use Rattle.std.specs.Prelude.{◌≡◌};
ghost use Rattle.listing_words.specs.EntryTypes.{file_type, record_type, cycle_type, journal_type, entry_named};

/// What happened, without the fields of the entry.
#[derive(Clone, Copy)]
pub enum EntryType {
    /// CT
    FileCreated,
    /// DT
    FileDeleted,
    /// AM
    MemberAdded,
    /// JM
    JournalingStarted,
    /// IS
    InitialSlot,
    /// EJ
    JournalingEnded,
    /// CR
    MemberCleared,
    /// RG
    MemberReorganized,
    /// PT
    RecordAdded,
    /// PX
    RecordAddedAtNumber,
    /// UB
    BeforeImage,
    /// UP
    AfterImage,
    /// DL
    RecordDeleted,
    /// BR
    UndoBeforeImage,
    /// UR
    UndoAfterImage,
    /// DR
    UndoDelete,
    /// BC
    CommitmentStarted,
    /// SC
    CommitCycleStarted,
    /// CM
    CommitCycleCommitted,
    /// RB
    CommitCycleRolledBack,
    /// EC
    CommitmentEnded,
    /// AY
    ChangesApplied,
    /// RC
    ChangesRemoved,
    /// IA
    AbnormalEnd,
    /// NR
    NextReceiver,
    /// PR
    PreviousReceiver,
}

/// What an entry of this type says.
#[tactic(auto, unfolding(crate::specs::EntryTypes::entry_named))]
pub fn entry_named(word: &[u8]) -> Option<EntryType>
    ensures { result ≡ entry_named word.now }
{
    file_type(word)
        .or(record_type(word))
        .or(cycle_type(word))
        .or(journal_type(word))
}

#[tactic(auto, unfolding(crate::specs::EntryTypes::file_type))]
fn file_type(word: &[u8]) -> Option<EntryType>
    ensures { result ≡ file_type word.now }
{
    if word == b"CT".as_slice() {
        Some(EntryType::FileCreated)
    } else if word == b"DT".as_slice() {
        Some(EntryType::FileDeleted)
    } else if word == b"AM".as_slice() {
        Some(EntryType::MemberAdded)
    } else if word == b"JM".as_slice() {
        Some(EntryType::JournalingStarted)
    } else if word == b"IS".as_slice() {
        Some(EntryType::InitialSlot)
    } else if word == b"EJ".as_slice() {
        Some(EntryType::JournalingEnded)
    } else if word == b"CR".as_slice() {
        Some(EntryType::MemberCleared)
    } else if word == b"RG".as_slice() {
        Some(EntryType::MemberReorganized)
    } else {
        None
    }
}

#[tactic(auto, unfolding(crate::specs::EntryTypes::record_type))]
fn record_type(word: &[u8]) -> Option<EntryType>
    ensures { result ≡ record_type word.now }
{
    if word == b"PT".as_slice() {
        Some(EntryType::RecordAdded)
    } else if word == b"PX".as_slice() {
        Some(EntryType::RecordAddedAtNumber)
    } else if word == b"UB".as_slice() {
        Some(EntryType::BeforeImage)
    } else if word == b"UP".as_slice() {
        Some(EntryType::AfterImage)
    } else if word == b"DL".as_slice() {
        Some(EntryType::RecordDeleted)
    } else if word == b"BR".as_slice() {
        Some(EntryType::UndoBeforeImage)
    } else if word == b"UR".as_slice() {
        Some(EntryType::UndoAfterImage)
    } else if word == b"DR".as_slice() {
        Some(EntryType::UndoDelete)
    } else {
        None
    }
}

#[tactic(auto, unfolding(crate::specs::EntryTypes::cycle_type))]
fn cycle_type(word: &[u8]) -> Option<EntryType>
    ensures { result ≡ cycle_type word.now }
{
    if word == b"BC".as_slice() {
        Some(EntryType::CommitmentStarted)
    } else if word == b"SC".as_slice() {
        Some(EntryType::CommitCycleStarted)
    } else if word == b"CM".as_slice() {
        Some(EntryType::CommitCycleCommitted)
    } else if word == b"RB".as_slice() {
        Some(EntryType::CommitCycleRolledBack)
    } else if word == b"EC".as_slice() {
        Some(EntryType::CommitmentEnded)
    } else {
        None
    }
}

#[tactic(auto, unfolding(crate::specs::EntryTypes::journal_type))]
fn journal_type(word: &[u8]) -> Option<EntryType>
    ensures { result ≡ journal_type word.now }
{
    if word == b"AY".as_slice() {
        Some(EntryType::ChangesApplied)
    } else if word == b"RC".as_slice() {
        Some(EntryType::ChangesRemoved)
    } else if word == b"IA".as_slice() {
        Some(EntryType::AbnormalEnd)
    } else if word == b"NR".as_slice() {
        Some(EntryType::NextReceiver)
    } else if word == b"PR".as_slice() {
        Some(EntryType::PreviousReceiver)
    } else {
        None
    }
}
