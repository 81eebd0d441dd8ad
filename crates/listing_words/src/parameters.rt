//! The parameters of requests, by `specs/Parameters.antt`.
ghost use Rattle.std.specs.Prelude.{◌≡◌, IfOk};
ghost use Rattle.statement_reader.specs.Words.{words};
ghost use Rattle.listing_words.specs.Parameters.{level_in, images_in, option_in, yes_in, path_in, lock_in, reason_in, end_of, end_in, format_of, format_in, place_of, place_in, values_in, given_values_in, limit_word, key_limit, limit_in, chain_key, chain_to_in};

use crate::choices::{images_of, level_of, lock_of, option_of, path_of, reason_of, yes_of};
use crate::numbers::{long, number, number_in};
use crate::values::{given_values_of, values_of};
use crate::words::{given, name_of};
use commit_level::Level;
use entry_codec::Images;
use field_types::names::Name;
use library_model::requests::{
    AccessPath, ChainTo, EndReason, Limit, LockOption, OpenOption, RangeEnd,
};
use library_model::value_lists::{GivenValues, Values};
use std::alloc::{AllocError, Global};

/// A lock level.
#[tactic(auto, unfolding(crate::specs::Parameters::level_in))]
pub fn level_in(text: &[u8], keyword: &[u8]) -> Option<Level>
    ensures { result ≡ level_in keyword.now (words text.now) }
{
    let Some(word) = given(text, keyword) else {
        return None;
    };
    level_of(word)
}

/// Which images are kept.
#[tactic(auto, unfolding(crate::specs::Parameters::images_in))]
pub fn images_in(text: &[u8], keyword: &[u8]) -> Option<Images>
    ensures { result ≡ images_in keyword.now (words text.now) }
{
    let Some(word) = given(text, keyword) else {
        return None;
    };
    images_of(word)
}

/// OPTION of an open.
#[tactic(auto, unfolding(crate::specs::Parameters::option_in))]
pub fn option_in(text: &[u8], keyword: &[u8]) -> Option<OpenOption>
    ensures { result ≡ option_in keyword.now (words text.now) }
{
    let Some(word) = given(text, keyword) else {
        return None;
    };
    option_of(word)
}

/// *YES or *NO.
#[tactic(auto, unfolding(crate::specs::Parameters::yes_in))]
pub fn yes_in(text: &[u8], keyword: &[u8]) -> Option<bool>
    ensures { result ≡ yes_in keyword.now (words text.now) }
{
    let Some(word) = given(text, keyword) else {
        return None;
    };
    yes_of(word)
}

/// ACCPTH of an open.
#[tactic(auto, unfolding(crate::specs::Parameters::path_in))]
pub fn path_in(text: &[u8], keyword: &[u8]) -> Option<AccessPath>
    ensures { result ≡ path_in keyword.now (words text.now) }
{
    let Some(word) = given(text, keyword) else {
        return None;
    };
    path_of(word)
}

/// LCK of a read.
#[tactic(auto, unfolding(crate::specs::Parameters::lock_in))]
pub fn lock_in(text: &[u8], keyword: &[u8]) -> Option<LockOption>
    ensures { result ≡ lock_in keyword.now (words text.now) }
{
    let Some(word) = given(text, keyword) else {
        return None;
    };
    lock_of(word)
}

/// Why a job ends.
#[tactic(auto, unfolding(crate::specs::Parameters::reason_in))]
pub fn reason_in(text: &[u8], keyword: &[u8]) -> Option<EndReason>
    ensures { result ≡ reason_in keyword.now (words text.now) }
{
    let Some(word) = given(text, keyword) else {
        return None;
    };
    reason_of(word)
}

#[tactic(auto, unfolding(crate::specs::Parameters::end_of))]
fn end_of(word: &[u8]) -> Option<RangeEnd>
    ensures { result ≡ end_of word.now }
{
    if let Some(sequence) = long(word) {
        Some(RangeEnd::Sequence(sequence))
    } else if word == b"*FIRST".as_slice() {
        Some(RangeEnd::First)
    } else if word == b"*LAST".as_slice() {
        Some(RangeEnd::Last)
    } else {
        None
    }
}

/// An end of a range: a sequence, *FIRST or *LAST.
#[tactic(auto, unfolding(crate::specs::Parameters::end_in))]
pub fn end_in(text: &[u8], keyword: &[u8]) -> Option<RangeEnd>
    ensures { result ≡ end_in keyword.now (words text.now) }
{
    let Some(word) = given(text, keyword) else {
        return None;
    };
    end_of(word)
}

#[tactic(auto, unfolding(crate::specs::Parameters::format_of))]
fn format_of(word: &[u8]) -> Option<Option<Name>>
    ensures { result ≡ format_of word.now }
{
    if let Some(name) = name_of(word) {
        Some(Some(name))
    } else if word == b"*FILE".as_slice() {
        Some(None)
    } else {
        None
    }
}

/// FMT: a name, or *FILE.
#[tactic(auto, unfolding(crate::specs::Parameters::format_in))]
pub fn format_in(text: &[u8], keyword: &[u8]) -> Option<Option<Name>>
    ensures { result ≡ format_in keyword.now (words text.now) }
{
    let Some(word) = given(text, keyword) else {
        return None;
    };
    format_of(word)
}

#[tactic(auto, unfolding(crate::specs::Parameters::place_of))]
fn place_of(word: &[u8]) -> Option<Option<u32>>
    ensures { result ≡ place_of word.now }
{
    if let Some(place) = number(word) {
        Some(Some(place))
    } else if word == b"*END".as_slice() {
        Some(None)
    } else {
        None
    }
}

/// RRN of WRITE: a number, or *END.
#[tactic(auto, unfolding(crate::specs::Parameters::place_in))]
pub fn place_in(text: &[u8], keyword: &[u8]) -> Option<Option<u32>>
    ensures { result ≡ place_in keyword.now (words text.now) }
{
    let Some(word) = given(text, keyword) else {
        return None;
    };
    place_of(word)
}

/// A list of values.
#[tactic(auto, unfolding(crate::specs::Parameters::values_in))]
pub fn values_in(alloc: Global, text: &[u8], keyword: &[u8]) -> Result<Option<Values>, AllocError>
    ensures { IfOk result (λ values. values ≡ values_in keyword.now (words text.now)) }
{
    let Some(inner) = given(text, keyword) else {
        return Ok(None);
    };
    values_of(alloc, inner)
}

/// A list of values of which some may not be given.
#[tactic(auto, unfolding(crate::specs::Parameters::given_values_in))]
pub fn given_values_in(
    alloc: Global,
    text: &[u8],
    keyword: &[u8],
) -> Result<Option<GivenValues>, AllocError>
    ensures { IfOk result (λ values. values ≡ given_values_in keyword.now (words text.now)) }
{
    let Some(inner) = given(text, keyword) else {
        return Ok(None);
    };
    given_values_of(alloc, inner)
}

#[tactic(auto, unfolding(crate::specs::Parameters::limit_word))]
fn limit_word(word: &[u8]) -> Option<Limit>
    ensures { result ≡ limit_word word.now }
{
    if word == b"*LOVAL".as_slice() {
        Some(Limit::LowValue)
    } else if word == b"*HIVAL".as_slice() {
        Some(Limit::HighValue)
    } else {
        None
    }
}

#[tactic(auto, unfolding(crate::specs::Parameters::key_limit))]
fn key_limit(alloc: Global, text: &[u8]) -> Result<Option<Limit>, AllocError>
    ensures { IfOk result (λ limit. limit ≡ key_limit text.now) }
{
    match values_of(alloc, text)? {
        Some(values) => Ok(Some(Limit::Key(values))),
        None => Ok(limit_word(text)),
    }
}

/// KEY or RRN of SETLL and SETGT.
#[tactic(auto, unfolding(crate::specs::Parameters::limit_in))]
pub fn limit_in(alloc: Global, text: &[u8]) -> Result<Option<Limit>, AllocError>
    ensures { IfOk result (λ limit. limit ≡ limit_in (words text.now)) }
{
    if let Some(key) = given(text, b"KEY") {
        return key_limit(alloc, key);
    }
    match number_in(text, b"RRN") {
        Some(rrn) => Ok(Some(Limit::RecordNumber(rrn))),
        None => Ok(None),
    }
}

#[tactic(auto, unfolding(crate::specs::Parameters::chain_key))]
fn chain_key(alloc: Global, text: &[u8]) -> Result<Option<ChainTo>, AllocError>
    ensures { IfOk result (λ to. to ≡ chain_key text.now) }
{
    match values_of(alloc, text)? {
        Some(values) => Ok(Some(ChainTo::Key(values))),
        None => Ok(None),
    }
}

/// KEY or RRN of CHAIN.
#[tactic(auto, unfolding(crate::specs::Parameters::chain_to_in))]
pub fn chain_to_in(alloc: Global, text: &[u8]) -> Result<Option<ChainTo>, AllocError>
    ensures { IfOk result (λ to. to ≡ chain_to_in (words text.now)) }
{
    if let Some(key) = given(text, b"KEY") {
        return chain_key(alloc, key);
    }
    match number_in(text, b"RRN") {
        Some(rrn) => Ok(Some(ChainTo::RecordNumber(rrn))),
        None => Ok(None),
    }
}
