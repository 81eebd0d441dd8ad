//! Where SETLL, SETGT and CHAIN go: KEY or RRN. By `specs/Requests.antt`.
ghost use Rattle.std.specs.Prelude.{◌≡◌, IfOk};
ghost use Rattle.statement_reader.specs.Words.{words};
ghost use Rattle.statement_reader.specs.Requests.{limit_by_word, limit_word, key_limit, limit_in, chain_to_in};

use crate::arguments::{key_in, number_at, stands, word_in};
use crate::parameters::Parameter;
use crate::variables::Variables;
use job_language::forms::{ChainToForm, LimitForm};
use std::alloc::{AllocError, Global};

fn limit_by_word(word: &[u8]) -> Option<LimitForm>
    ensures { result ≡ limit_by_word word.now }
{
    if word == b"*LOVAL".as_slice() {
        Some(LimitForm::LowValue)
    } else if word == b"*HIVAL".as_slice() {
        Some(LimitForm::HighValue)
    } else {
        None
    }
}

/// KEY(*LOVAL) and KEY(*HIVAL)
#[tactic(auto, unfolding(crate::specs::Requests::limit_word))]
fn limit_word(text: &[u8]) -> Option<LimitForm>
    ensures { result ≡ limit_word (words text.now) }
{
    let Some(word) = word_in(text, Parameter::Key) else {
        return None;
    };
    limit_by_word(word)
}

#[tactic(auto, unfolding(crate::specs::Requests::key_limit))]
fn key_limit(
    alloc: Global,
    variables: &Variables,
    text: &[u8],
) -> Result<Option<LimitForm>, AllocError>
    ensures { IfOk result (λ limit. limit ≡ key_limit variables.now (words text.now)) }
{
    if let Some(limit) = limit_word(text) {
        return Ok(Some(limit));
    }
    match key_in(alloc, variables, text)? {
        Some(key) => Ok(Some(LimitForm::Key(key))),
        None => Ok(None),
    }
}

/// KEY or RRN of SETLL and SETGT
#[tactic(auto, unfolding(crate::specs::Requests::limit_in))]
pub fn limit_in(
    alloc: Global,
    variables: &Variables,
    text: &[u8],
) -> Result<Option<LimitForm>, AllocError>
    ensures { IfOk result (λ limit. limit ≡ limit_in variables.now (words text.now)) }
{
    if !stands(text, Parameter::RecordNumber) {
        return key_limit(alloc, variables, text);
    }
    if stands(text, Parameter::Key) {
        return Ok(None);
    }
    match number_at(variables, text, Parameter::RecordNumber) {
        Some(number) => Ok(Some(LimitForm::RecordNumber(number))),
        None => Ok(None),
    }
}

/// KEY or RRN of CHAIN
#[tactic(auto, unfolding(crate::specs::Requests::chain_to_in))]
pub fn chain_to_in(
    alloc: Global,
    variables: &Variables,
    text: &[u8],
) -> Result<Option<ChainToForm>, AllocError>
    ensures { IfOk result (λ to. to ≡ chain_to_in variables.now (words text.now)) }
{
    if !stands(text, Parameter::RecordNumber) {
        return match key_in(alloc, variables, text)? {
            Some(key) => Ok(Some(ChainToForm::Key(key))),
            None => Ok(None),
        };
    }
    if stands(text, Parameter::Key) {
        return Ok(None);
    }
    match number_at(variables, text, Parameter::RecordNumber) {
        Some(number) => Ok(Some(ChainToForm::RecordNumber(number))),
        None => Ok(None),
    }
}
