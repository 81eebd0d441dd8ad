//! The names of refusals, as MSGID has them.
ghost use Rattle.std.specs.Prelude.{◌≡◌};
ghost use Rattle.statement_reader.specs.RefusalNames.{record_refusal, state_refusal, file_refusal, journal_refusal, refusal_named};

use call_tables::reply_table;
use job_language::refusals::Refusal;

// The rows of some groups, in the order of the definitions.
macro_rules! record_rows {
    (($word:expr) done $d:tt results $r:tt records { $($records:tt)* } $($others:tt)*) => { named!(($word) $($records)*) };
}

macro_rules! state_rows {
    (($word:expr) done $d:tt results $r:tt records $c:tt states { $($states:tt)* } names $n:tt ranges $a:tt receivers $v:tt limits { $($limits:tt)* }) => {
        named!(($word) $($states)* $($limits)*)
    };
}

macro_rules! file_rows {
    (($word:expr) done $d:tt results $r:tt records $c:tt states $s:tt names { $($names:tt)* } $($others:tt)*) => {
        named!(($word) $($names)*)
    };
}

macro_rules! journal_rows {
    (($word:expr) done $d:tt results $r:tt records $c:tt states $s:tt names $n:tt ranges { $($ranges:tt)* } receivers { $($receivers:tt)* } $($others:tt)*) => {
        named!(($word) $($ranges)* $($receivers)*)
    };
}

macro_rules! named {
    (($word:expr)) => { None };
    (($word:expr) $name:ident $answer:literal $fields:tt $parts:tt $($others:tt)*) => {
        if $word == $answer.as_slice() { Some(Refusal::$name) } else { named!(($word) $($others)*) }
    };
}

/// The refusal of this name.
#[tactic(auto, unfolding(crate::specs::RefusalNames::refusal_named))]
pub fn refusal_named(word: &[u8]) -> Option<Refusal>
    ensures { result ≡ refusal_named word.now }
{
    record_refusal(word)
        .or(state_refusal(word))
        .or(file_refusal(word))
        .or(journal_refusal(word))
}

#[tactic(auto, unfolding(crate::specs::RefusalNames::record_refusal))]
fn record_refusal(word: &[u8]) -> Option<Refusal>
    ensures { result ≡ record_refusal word.now }
{
    reply_table!(record_rows!(word))
}

#[tactic(auto, unfolding(crate::specs::RefusalNames::state_refusal))]
fn state_refusal(word: &[u8]) -> Option<Refusal>
    ensures { result ≡ state_refusal word.now }
{
    reply_table!(state_rows!(word))
}

#[tactic(auto, unfolding(crate::specs::RefusalNames::file_refusal))]
fn file_refusal(word: &[u8]) -> Option<Refusal>
    ensures { result ≡ file_refusal word.now }
{
    reply_table!(file_rows!(word))
}

#[tactic(auto, unfolding(crate::specs::RefusalNames::journal_refusal))]
fn journal_refusal(word: &[u8]) -> Option<Refusal>
    ensures { result ≡ journal_refusal word.now }
{
    reply_table!(journal_rows!(word))
}
