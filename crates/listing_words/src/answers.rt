//! What the first word of a reply says. `specs/Answers.antt` has the words.
ghost use Rattle.std.specs.Prelude.{◌≡◌};
ghost use Rattle.listing_words.specs.Answers.{record_answer, state_answer, name_answer, journal_answer, limit_answer, reply_named};

use call_tables::reply_table;

/// What a reply says, without what it carries.
#[derive(Clone, Copy)]
pub enum ReplyKind {
    RecordInUse,
    HeldByGroup,
    PlaceInUse,
    HeldToBoundary,
    NotFound,
    EndOfFile,
    BeginOfFile,
    NoCurrentRecord,
    /// OK
    Done,
    WrongOpen,
    NoDefinition,
    AlreadyStarted,
    NoSuchEntry,
    MemberFull,
    StoreFault,
    NoMemory,
    DuplicateKey,
    NoSuchName,
    NameExists,
    Dependents,
    BadValue,
    DdsFault,
    InUse,
    NotJournaled,
    PendingChanges,
    Straddled,
    DoesNotFit,
    NeedsBoth,
    Gap,
    NotRemovable,
    ReceiverGone,
    BlockChanged,
    StillNeeded,
    LimitReached,
}

// The rows of some groups, in the order of the definitions.
macro_rules! record_rows {
    (($word:expr) done $d:tt results $r:tt records { $($records:tt)* } $($others:tt)*) => { named!(($word) $($records)*) };
}

macro_rules! state_rows {
    (($word:expr) done { $($done:tt)* } results $r:tt records $c:tt states { $($states:tt)* } $($others:tt)*) => {
        named!(($word) $($done)* $($states)*)
    };
}

macro_rules! name_rows {
    (($word:expr) done $d:tt results $r:tt records $c:tt states $s:tt names { $($names:tt)* } $($others:tt)*) => {
        named!(($word) $($names)*)
    };
}

macro_rules! journal_rows {
    (($word:expr) done $d:tt results $r:tt records $c:tt states $s:tt names $n:tt ranges { $($ranges:tt)* } $($others:tt)*) => {
        named!(($word) $($ranges)*)
    };
}

macro_rules! limit_rows {
    (($word:expr) done $d:tt results $r:tt records $c:tt states $s:tt names $n:tt ranges $a:tt receivers { $($receivers:tt)* } limits { $($limits:tt)* }) => {
        named!(($word) $($receivers)* $($limits)*)
    };
}

macro_rules! named {
    (($word:expr)) => { None };
    (($word:expr) $name:ident $answer:literal $fields:tt $parts:tt $($others:tt)*) => {
        if $word == $answer.as_slice() { Some(ReplyKind::$name) } else { named!(($word) $($others)*) }
    };
}

/// What an answer says.
#[tactic(auto, unfolding(crate::specs::Answers::reply_named))]
pub fn reply_named(word: &[u8]) -> Option<ReplyKind>
    ensures { result ≡ reply_named word.now }
{
    record_answer(word)
        .or(state_answer(word))
        .or(name_answer(word))
        .or(journal_answer(word))
        .or(limit_answer(word))
}

#[tactic(auto, unfolding(crate::specs::Answers::record_answer))]
fn record_answer(word: &[u8]) -> Option<ReplyKind>
    ensures { result ≡ record_answer word.now }
{
    reply_table!(record_rows!(word))
}

#[tactic(auto, unfolding(crate::specs::Answers::state_answer))]
fn state_answer(word: &[u8]) -> Option<ReplyKind>
    ensures { result ≡ state_answer word.now }
{
    reply_table!(state_rows!(word))
}

#[tactic(auto, unfolding(crate::specs::Answers::name_answer))]
fn name_answer(word: &[u8]) -> Option<ReplyKind>
    ensures { result ≡ name_answer word.now }
{
    reply_table!(name_rows!(word))
}

#[tactic(auto, unfolding(crate::specs::Answers::journal_answer))]
fn journal_answer(word: &[u8]) -> Option<ReplyKind>
    ensures { result ≡ journal_answer word.now }
{
    reply_table!(journal_rows!(word))
}

#[tactic(auto, unfolding(crate::specs::Answers::limit_answer))]
fn limit_answer(word: &[u8]) -> Option<ReplyKind>
    ensures { result ≡ limit_answer word.now }
{
    reply_table!(limit_rows!(word))
}
