//! A reply, by its first word and what it carries. By `specs/Replies.antt`.
ghost use Rattle.std.specs.Prelude.{◌≡◌, ◌<◌, ◌^◌, length, IfOk};
ghost use Rattle.statement_reader.specs.Words.{words};
ghost use Rattle.listing_reader.specs.Replies.{stands, begins_with_stroke, record_read, numbered_answer, done_answer, ok_reply, reply_of, read_reply};

use crate::entries::entries_in;
use crate::entry_fields::changes_in;
use crate::refusals::{dds_fault_in, missing_in, record_fault_in};
use call_tables::{keyword, reply_table};
use field_types::names::Name;
use library_model::replies::{RecordRead, Reply};
use listing_words::answers::{ReplyKind, reply_named};
use listing_words::choices::limit_of;
use listing_words::numbers::{long_in, number_in};
use listing_words::parameters::values_in;
use listing_words::words::{given, job_in, name_in};
use statement_reader::words::next_word;
use std::alloc::{AllocError, Global};

/// Whether the keyword stands among the words.
fn stands(text: &[u8], keyword: &[u8]) -> bool
    ensures { result ≡ stands keyword.now (words text.now) }
{
    given(text, keyword).is_some()
}

/// Whether the first word is the stroke before an entry.
fn begins_with_stroke(text: &[u8]) -> bool
    ensures { result ≡ begins_with_stroke (words text.now) }
{
    match next_word(text) {
        Some((word, _)) => word == b"/".as_slice(),
        None => false,
    }
}

#[tactic(auto, unfolding(crate::specs::Replies::record_read))]
fn record_read(alloc: Global, text: &[u8]) -> Result<Option<RecordRead>, AllocError>
    ensures { IfOk result (λ read. read ≡ record_read (words text.now)) }
{
    let Some(format) = name_in(text, b"FMT") else {
        return Ok(None);
    };
    let Some(rrn) = number_in(text, b"RRN") else {
        return Ok(None);
    };
    let Some(values) = values_in(alloc, text, b"VAL")? else {
        return Ok(None);
    };
    Ok(Some(RecordRead {
        format,
        rrn,
        values,
    }))
}

// A part of what a reply carries.
macro_rules! read {
    (name ($keyword:ident), $names:expr, $text:expr) => { name_in($text, keyword!($keyword)) };
    (number ($keyword:ident), $names:expr, $text:expr) => { number_in($text, keyword!($keyword)) };
    (sequence ($keyword:ident), $names:expr, $text:expr) => { long_in($text, keyword!($keyword)) };
    (long ($keyword:ident), $names:expr, $text:expr) => { long_in($text, keyword!($keyword)) };
    (job ($keyword:ident), $names:expr, $text:expr) => { job_in($names, $text, keyword!($keyword)) };
    (limit_kind ($keyword:ident), $names:expr, $text:expr) => {
        ({
            let Some(word) = given($text, keyword!($keyword)) else {
                return Ok(None);
            };
            limit_of(word)
        })
    };
    (missing (Name), $names:expr, $text:expr) => { missing_in($text) };
    (record_fault (), $names:expr, $text:expr) => { record_fault_in($text) };
    (dds_fault (), $names:expr, $text:expr) => { dds_fault_in($text) };
}

// The rows of results, and behind them that of what was done.
macro_rules! result_rows {
    (($arms:ident $with:tt) done { $($done:tt)* } results { $($results:tt)* } $($others:tt)*) => {
        $arms!($with $($results)* $($done)*)
    };
}

// The first row with one number whose keyword stands, else what was done.
macro_rules! numbered {
    (($text:expr) $name:ident $answer:literal ({ $field:ident }) [$codec:ident ($keyword:ident; $part:ident)] $($others:tt)*) => {
        if stands($text, keyword!($keyword)) {
            read!($codec ($keyword), &[], $text).map(|$part| Reply::$name { $field })
        } else {
            numbered!(($text) $($others)*)
        }
    };
    (($text:expr) $name:ident $answer:literal () []) => { Some(Reply::$name) };
    (($text:expr) $name:ident $answer:literal $fields:tt $parts:tt $($others:tt)*) => { numbered!(($text) $($others)*) };
}

// The row of a record or of a range, where its first keyword stands, else one with a number or with nothing.
macro_rules! carried {
    (($alloc:expr, $text:expr)) => { Ok(numbered_answer($text)) };
    (($alloc:expr, $text:expr) $name:ident $answer:literal $fields:tt [record (; $read:ident)] $($others:tt)*) => {
        if stands($text, keyword!(Format)) {
            Ok(record_read($alloc, $text)?.map(Reply::$name))
        } else {
            carried!(($alloc, $text) $($others)*)
        }
    };
    (($alloc:expr, $text:expr) $name:ident $answer:literal $fields:tt [range (; $($part:ident),*)] $($others:tt)*) => {
        if stands($text, b"ENT") {
            Ok(changes_in($text).map(|range| Reply::$name { $($part: range.$part),* }))
        } else {
            carried!(($alloc, $text) $($others)*)
        }
    };
    (($alloc:expr, $text:expr) $name:ident $answer:literal $fields:tt $parts:tt $($others:tt)*) => { carried!(($alloc, $text) $($others)*) };
}

// The row of entries, where a stroke stands, else another.
macro_rules! entered {
    (($alloc:expr, $text:expr) $name:ident $answer:literal $fields:tt [entries (; $entries:ident)] $($others:tt)*) => {
        if begins_with_stroke($text) {
            Ok(entries_in($alloc, $text)?.map(Reply::$name))
        } else {
            done_answer($alloc, $text)
        }
    };
    (($alloc:expr, $text:expr) $name:ident $answer:literal $fields:tt $parts:tt $($others:tt)*) => { entered!(($alloc, $text) $($others)*) };
}

#[tactic(auto, unfolding(crate::specs::Replies::numbered_answer))]
fn numbered_answer(text: &[u8]) -> Option<Reply>
    ensures { result ≡ numbered_answer (words text.now) }
{
    reply_table!(result_rows!(numbered(text)))
}

/// What was done, by what is carried.
#[tactic(auto, unfolding(crate::specs::Replies::done_answer))]
fn done_answer(alloc: Global, text: &[u8]) -> Result<Option<Reply>, AllocError>
    ensures { IfOk result (λ reply. reply ≡ done_answer (words text.now)) }
{
    reply_table!(result_rows!(carried(alloc, text)))
}

/// The entries of the journal, or what was done.
#[tactic(auto, unfolding(crate::specs::Replies::ok_reply))]
fn ok_reply(alloc: Global, text: &[u8]) -> Result<Option<Reply>, AllocError>
    ensures { IfOk result (λ reply. reply ≡ ok_reply (words text.now)) }
{
    reply_table!(result_rows!(entered(alloc, text)))
}

// The row of what was done, and those of refusals.
macro_rules! refusal_groups {
    ($with:tt done { $($done:tt)* } results $results:tt records { $($records:tt)* } states { $($states:tt)* } names { $($names:tt)* }
        ranges { $($ranges:tt)* } receivers { $($receivers:tt)* } limits { $($limits:tt)* }) => {
        refusal_arms!($with $($done)* : $($records)* $($states)* $($names)* $($ranges)* $($receivers)* $($limits)*)
    };
}

macro_rules! refusal_arms {
    (($alloc:expr, $names:expr, $kind:expr, $text:expr) $done:ident $ok:literal $nothing:tt $none:tt : $($name:ident $answer:literal ($({ $($field:ident),* })? $(($held:ident))?) [$($codec:ident ($($keyword:ident)?; $part:ident))*])*) => {
        match $kind {
            ReplyKind::$done => ok_reply($alloc, $text),
            $(ReplyKind::$name => {
                $(let Some($part) = read!($codec ($($keyword)?), $names, $text) else {
                    return Ok(None);
                };)*
                Ok(Some(Reply::$name $({ $($field),* })? $(($held))?))
            })*
        }
    };
}

/// What is answered, with what is carried.
#[tactic(auto, unfolding(crate::specs::Replies::reply_of, crate::specs::Replies::record_in_use, crate::specs::Replies::duplicate_key, crate::specs::Replies::does_not_fit, crate::specs::Replies::limit_reached))]
fn reply_of(
    alloc: Global,
    names: &[Name],
    kind: ReplyKind,
    text: &[u8],
) -> Result<Option<Reply>, AllocError>
    requires { length names.now < 2 ^ 32 }
    ensures { IfOk result (λ reply. reply ≡ reply_of names.now kind (words text.now)) }
{
    reply_table!(refusal_groups!(alloc, names, kind, text))
}

/// The reply of its first word and of the text behind it.
#[tactic(auto, unfolding(crate::specs::Replies::read_reply))]
pub fn read_reply(
    alloc: Global,
    names: &[Name],
    answer: &[u8],
    text: &[u8],
) -> Result<Option<Reply>, AllocError>
    requires { length names.now < 2 ^ 32 }
    ensures { IfOk result (λ reply. reply ≡ read_reply names.now answer.now (words text.now)) }
{
    let Some(kind) = reply_named(answer) else {
        return Ok(None);
    };
    reply_of(alloc, names, kind, text)
}
