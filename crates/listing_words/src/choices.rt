//! Words that stand for one of a few things, by `specs/Choices.antt`.
ghost use Rattle.std.specs.Prelude.{◌≡◌};
ghost use Rattle.listing_words.specs.Choices.{level_of, images_of, file_kind_of, option_of, yes_of, path_of, lock_of, reason_of, value_fault_of, store_limit_of, journal_limit_of, spelling_cause_of, keyword_cause_of, base_cause_of, limit_of, cause_of};

use commit_level::Level;
use dds_source::DdsCause;
use entry_codec::{FileKind, Images};
use field_types::faults::ValueFault;
use library_model::replies::LimitKind;
use library_model::requests::{AccessPath, EndReason, LockOption, OpenOption};

/// The limit of this name.
#[tactic(auto, unfolding(crate::specs::Choices::limit_of))]
pub fn limit_of(word: &[u8]) -> Option<LimitKind>
    ensures { result ≡ limit_of word.now }
{
    store_limit_of(word).or(journal_limit_of(word))
}

/// The cause of this name.
#[tactic(auto, unfolding(crate::specs::Choices::cause_of))]
pub fn cause_of(word: &[u8]) -> Option<DdsCause>
    ensures { result ≡ cause_of word.now }
{
    spelling_cause_of(word)
        .or(keyword_cause_of(word))
        .or(base_cause_of(word))
}

/// A lock level.
#[tactic(auto, unfolding(crate::specs::Choices::level_of))]
pub fn level_of(word: &[u8]) -> Option<Level>
    ensures { result ≡ level_of word.now }
{
    if word == b"*CHG".as_slice() {
        Some(Level::Chg)
    } else if word == b"*CS".as_slice() {
        Some(Level::Cs)
    } else if word == b"*ALL".as_slice() {
        Some(Level::All)
    } else {
        None
    }
}

/// Which images are kept.
#[tactic(auto, unfolding(crate::specs::Choices::images_of))]
pub fn images_of(word: &[u8]) -> Option<Images>
    ensures { result ≡ images_of word.now }
{
    if word == b"*AFTER".as_slice() {
        Some(Images::After)
    } else if word == b"*BOTH".as_slice() {
        Some(Images::Both)
    } else {
        None
    }
}

/// The kind of a file.
#[tactic(auto, unfolding(crate::specs::Choices::file_kind_of))]
pub fn file_kind_of(word: &[u8]) -> Option<FileKind>
    ensures { result ≡ file_kind_of word.now }
{
    if word == b"*PHY".as_slice() {
        Some(FileKind::Physical)
    } else if word == b"*LGL".as_slice() {
        Some(FileKind::Logical)
    } else {
        None
    }
}

/// OPTION of an open.
#[tactic(auto, unfolding(crate::specs::Choices::option_of))]
pub fn option_of(word: &[u8]) -> Option<OpenOption>
    ensures { result ≡ option_of word.now }
{
    if word == b"*INP".as_slice() {
        Some(OpenOption::Input)
    } else if word == b"*ALL".as_slice() {
        Some(OpenOption::All)
    } else {
        None
    }
}

/// *YES or *NO.
#[tactic(auto, unfolding(crate::specs::Choices::yes_of))]
pub fn yes_of(word: &[u8]) -> Option<bool>
    ensures { result ≡ yes_of word.now }
{
    if word == b"*YES".as_slice() {
        Some(true)
    } else if word == b"*NO".as_slice() {
        Some(false)
    } else {
        None
    }
}

/// ACCPTH of an open.
#[tactic(auto, unfolding(crate::specs::Choices::path_of))]
pub fn path_of(word: &[u8]) -> Option<AccessPath>
    ensures { result ≡ path_of word.now }
{
    if word == b"*FILE".as_slice() {
        Some(AccessPath::File)
    } else if word == b"*ARRIVAL".as_slice() {
        Some(AccessPath::Arrival)
    } else {
        None
    }
}

/// LCK of a read.
#[tactic(auto, unfolding(crate::specs::Choices::lock_of))]
pub fn lock_of(word: &[u8]) -> Option<LockOption>
    ensures { result ≡ lock_of word.now }
{
    if word == b"*DFT".as_slice() {
        Some(LockOption::Default)
    } else if word == b"*NO".as_slice() {
        Some(LockOption::No)
    } else {
        None
    }
}

/// Why a job ends.
#[tactic(auto, unfolding(crate::specs::Choices::reason_of))]
pub fn reason_of(word: &[u8]) -> Option<EndReason>
    ensures { result ≡ reason_of word.now }
{
    if word == b"*NORMAL".as_slice() {
        Some(EndReason::Normal)
    } else if word == b"*ESCAPE".as_slice() {
        Some(EndReason::Escape)
    } else if word == b"*EXPR".as_slice() {
        Some(EndReason::Expression)
    } else if word == b"*STMT".as_slice() {
        Some(EndReason::Statements)
    } else if word == b"*HISTORY".as_slice() {
        Some(EndReason::History)
    } else {
        None
    }
}

/// Why a value does not fit.
#[tactic(auto, unfolding(crate::specs::Choices::value_fault_of))]
pub fn value_fault_of(word: &[u8]) -> Option<ValueFault>
    ensures { result ≡ value_fault_of word.now }
{
    if word == b"WrongKind".as_slice() {
        Some(ValueFault::WrongKind)
    } else if word == b"TooManyDecimals".as_slice() {
        Some(ValueFault::TooManyDecimals)
    } else if word == b"TooWide".as_slice() {
        Some(ValueFault::TooWide)
    } else if word == b"BadDate".as_slice() {
        Some(ValueFault::BadDate)
    } else if word == b"ReadOnlyField".as_slice() {
        Some(ValueFault::ReadOnlyField)
    } else {
        None
    }
}

#[tactic(auto, unfolding(crate::specs::Choices::store_limit_of))]
fn store_limit_of(word: &[u8]) -> Option<LimitKind>
    ensures { result ≡ store_limit_of word.now }
{
    if word == b"Files".as_slice() {
        Some(LimitKind::Files)
    } else if word == b"Members".as_slice() {
        Some(LimitKind::Members)
    } else if word == b"MemberNumbers".as_slice() {
        Some(LimitKind::MemberNumbers)
    } else if word == b"Paths".as_slice() {
        Some(LimitKind::Paths)
    } else if word == b"Opens".as_slice() {
        Some(LimitKind::Opens)
    } else if word == b"Locks".as_slice() {
        Some(LimitKind::Locks)
    } else if word == b"LibraryBytes".as_slice() {
        Some(LimitKind::LibraryBytes)
    } else {
        None
    }
}

#[tactic(auto, unfolding(crate::specs::Choices::journal_limit_of))]
fn journal_limit_of(word: &[u8]) -> Option<LimitKind>
    ensures { result ≡ journal_limit_of word.now }
{
    if word == b"GroupChanges".as_slice() {
        Some(LimitKind::GroupChanges)
    } else if word == b"GroupBytes".as_slice() {
        Some(LimitKind::GroupBytes)
    } else if word == b"BlockBytes".as_slice() {
        Some(LimitKind::BlockBytes)
    } else if word == b"DisplayEntries".as_slice() {
        Some(LimitKind::DisplayEntries)
    } else if word == b"Receivers".as_slice() {
        Some(LimitKind::Receivers)
    } else if word == b"Sequences".as_slice() {
        Some(LimitKind::Sequences)
    } else {
        None
    }
}

#[tactic(auto, unfolding(crate::specs::Choices::spelling_cause_of))]
fn spelling_cause_of(word: &[u8]) -> Option<DdsCause>
    ensures { result ≡ spelling_cause_of word.now }
{
    if word == b"BadColumn".as_slice() {
        Some(DdsCause::BadColumn)
    } else if word == b"BadName".as_slice() {
        Some(DdsCause::BadName)
    } else if word == b"BadNumber".as_slice() {
        Some(DdsCause::BadNumber)
    } else if word == b"UnfinishedText".as_slice() {
        Some(DdsCause::UnfinishedText)
    } else if word == b"OutOfOrder".as_slice() {
        Some(DdsCause::OutOfOrder)
    } else if word == b"DuplicateName".as_slice() {
        Some(DdsCause::DuplicateName)
    } else if word == b"BadLength".as_slice() {
        Some(DdsCause::BadLength)
    } else if word == b"BadDecimals".as_slice() {
        Some(DdsCause::BadDecimals)
    } else {
        None
    }
}

#[tactic(auto, unfolding(crate::specs::Choices::keyword_cause_of))]
fn keyword_cause_of(word: &[u8]) -> Option<DdsCause>
    ensures { result ≡ keyword_cause_of word.now }
{
    if word == b"BadType".as_slice() {
        Some(DdsCause::BadType)
    } else if word == b"UnknownKeyword".as_slice() {
        Some(DdsCause::UnknownKeyword)
    } else if word == b"BadArguments".as_slice() {
        Some(DdsCause::BadArguments)
    } else if word == b"Conflict".as_slice() {
        Some(DdsCause::Conflict)
    } else if word == b"NoFormat".as_slice() {
        Some(DdsCause::NoFormat)
    } else if word == b"NoSuchField".as_slice() {
        Some(DdsCause::NoSuchField)
    } else if word == b"UnknownReference".as_slice() {
        Some(DdsCause::UnknownReference)
    } else {
        None
    }
}

#[tactic(auto, unfolding(crate::specs::Choices::base_cause_of))]
fn base_cause_of(word: &[u8]) -> Option<DdsCause>
    ensures { result ≡ base_cause_of word.now }
{
    if word == b"TooLarge".as_slice() {
        Some(DdsCause::TooLarge)
    } else if word == b"NoBase".as_slice() {
        Some(DdsCause::NoBase)
    } else if word == b"NoBaseField".as_slice() {
        Some(DdsCause::NoBaseField)
    } else if word == b"KeyMismatch".as_slice() {
        Some(DdsCause::KeyMismatch)
    } else if word == b"JoinKeyNotPrimary".as_slice() {
        Some(DdsCause::JoinKeyNotPrimary)
    } else if word == b"ReadOnlyMapping".as_slice() {
        Some(DdsCause::ReadOnlyMapping)
    } else if word == b"Narrowing".as_slice() {
        Some(DdsCause::Narrowing)
    } else {
        None
    }
}
