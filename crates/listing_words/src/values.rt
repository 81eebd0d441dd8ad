//! Texts and values, by `specs/Values.antt`.
ghost use Rattle.std.specs.Prelude.{◌≡◌, ◌<◌, ◌≤◌, ◌∷◌, length, codes, if◌then◌else◌, MatchOption, IfOk, option_map};
ghost use Rattle.statement_reader.specs.Commands.{is_word};
ghost use Rattle.statement_reader.specs.Lists.{onto_others, with_front};
ghost use Rattle.statement_reader.specs.Literals.{quoted, hexadecimal, ended};
ghost use Rattle.statement_reader.specs.Words.{words};
ghost use Rattle.listing_words.specs.Values.{text_of, value_of, values_of, given_value_of, given_values_of};

use crate::numbers::number_of;
use crate::words::behind;
use ebc_text::to_ebcdic_byte;
use field_types::texts::Text;
use field_types::values::Value;
use library_model::value_lists::{GivenValues, Values};
use statement_reader::words::next_word;
use std::alloc::{AllocError, Global};
use text_lines::characters::hex_byte;

/// Values, each a word.
#[tactic(auto, unfolding(crate::specs::Values::values_of))]
pub fn values_of(alloc: Global, text: &[u8]) -> Result<Option<Values>, AllocError>
    ensures { IfOk result (λ values. values ≡ values_of text.now) }
{
    let mut values = Vec::new(alloc);
    let mut rest = text;
    while let Some((word, others)) = next_word(rest) {
        let Some(value) = value_of(alloc, word)? else {
            return Ok(None);
        };
        values.push(value)?;
        rest = others;
    }
    let values = Values::from_vec(values);
    Ok(Some(values))
}

/// Values of which some may not be given, each a word.
#[tactic(auto, unfolding(crate::specs::Values::given_values_of))]
pub fn given_values_of(alloc: Global, text: &[u8]) -> Result<Option<GivenValues>, AllocError>
    ensures { IfOk result (λ values. values ≡ given_values_of text.now) }
{
    let mut values = GivenValues::new(alloc);
    let mut rest = text;
    while let Some((word, others)) = next_word(rest) {
        let Some(value) = given_value_of(alloc, word)? else {
            return Ok(None);
        };
        values.push(value)?;
        rest = others;
    }
    Ok(Some(values))
}

#[tactic(auto, unfolding(crate::specs::Values::given_value_of))]
fn given_value_of(alloc: Global, word: &[u8]) -> Result<Option<Option<Value>>, AllocError>
    ensures { IfOk result (λ value. value ≡ given_value_of word.now) }
{
    match value_of(alloc, word)? {
        Some(value) => Ok(Some(Some(value))),
        None => Ok(not_given(word)),
    }
}

fn not_given(word: &[u8]) -> Option<Option<Value>>
    ensures { result ≡ (if is_word (codes "*N") word.now then Some None else None) }
{
    if word == b"*N".as_slice() {
        Some(None)
    } else {
        None
    }
}

#[tactic(auto, unfolding(crate::specs::Values::value_of))]
fn value_of(alloc: Global, word: &[u8]) -> Result<Option<Value>, AllocError>
    ensures { IfOk result (λ value. value ≡ value_of word.now) }
{
    if let Some(number) = number_of(word) {
        return Ok(Some(Value::Number(number)));
    }
    match text_of(alloc, word)? {
        Some(bytes) => Ok(Some(Value::Chars(Text::from_vec(bytes)))),
        None => Ok(None),
    }
}

/// The bytes of a text in apostrophes or in hexadecimal.
#[tactic(auto, unfolding(crate::specs::Values::text_of))]
pub fn text_of(alloc: Global, word: &[u8]) -> Result<Option<Vec<u8>>, AllocError>
    ensures { IfOk result (λ text. option_map (λ bytes. bytes.items) text ≡ text_of word.now) }
{
    if let Some(text) = behind(word, b"'") {
        quoted(alloc, text)
    } else if let Some(digits) = behind(word, b"X'") {
        hexadecimal(alloc, digits)
    } else {
        Ok(None)
    }
}

fn quoted(alloc: Global, text: &[u8]) -> Result<Option<Vec<u8>>, AllocError>
    ensures { IfOk result (λ text_read. option_map (λ bytes. bytes.items) text_read ≡ quoted text.now) }
{
    let mut bytes = Vec::new(alloc);
    let mut rest = text;
    while let Some((byte, others)) = next_character(rest) {
        bytes.push(byte)?;
        rest = others;
    }
    Ok(text_before(bytes, rest))
}

fn hexadecimal(alloc: Global, text: &[u8]) -> Result<Option<Vec<u8>>, AllocError>
    ensures { IfOk result (λ text_read. option_map (λ bytes. bytes.items) text_read ≡ hexadecimal text.now) }
{
    let mut bytes = Vec::new(alloc);
    let mut rest = text;
    while let Some((byte, others)) = next_pair(rest) {
        bytes.push(byte)?;
        rest = others;
    }
    Ok(text_before(bytes, rest))
}

/// These bytes, where nothing but the apostrophe that ends them is left.
#[tactic(auto, using(statement_reader::proofs::ListLemmas::with_front_end))]
fn text_before(bytes: Vec<u8>, rest: &[u8]) -> Option<Vec<u8>>
    ensures { option_map (λ text. text.items) result ≡ with_front bytes.items (ended rest.now) }
{
    if rest == b"'".as_slice() {
        Some(bytes)
    } else {
        None
    }
}

/// The byte of the next character, and what is behind it.
fn next_character(text: &[u8]) -> Option<(u8, &[u8])>
    ensures { MatchOption result (quoted text.now ≡ ended text.now) (λ next. (quoted text.now ≡ onto_others (Some next.0) (quoted next.1.now)) × (length next.1.now < length text.now)) }
{
    match text {
        [] => None,
        [character, rest @ ..] => {
            if *character == b'\'' {
                second_apostrophe(rest)
            } else {
                byte_before(to_ebcdic_byte(*character), rest)
            }
        }
    }
}

/// The byte of two apostrophes, by the text behind the first.
fn second_apostrophe(text: &[u8]) -> Option<(u8, &[u8])>
    ensures { MatchOption result (quoted (39 ∷ text.now) ≡ ended (39 ∷ text.now)) (λ next. (quoted (39 ∷ text.now) ≡ onto_others (Some next.0) (quoted next.1.now)) × (length next.1.now ≤ length text.now)) }
{
    match text {
        [] => None,
        [character, rest @ ..] => {
            if *character == b'\'' {
                byte_before(to_ebcdic_byte(b'\''), rest)
            } else {
                None
            }
        }
    }
}

/// The byte of the next pair of digits, and what is behind it.
fn next_pair(text: &[u8]) -> Option<(u8, &[u8])>
    ensures { MatchOption result (hexadecimal text.now ≡ ended text.now) (λ next. (hexadecimal text.now ≡ onto_others (Some next.0) (hexadecimal next.1.now)) × (length next.1.now < length text.now)) }
{
    match text {
        [high, low, rest @ ..] => byte_before(hex_byte(*high, *low), rest),
        _ => None,
    }
}

fn byte_before(byte: Option<u8>, rest: &[u8]) -> Option<(u8, &[u8])>
    ensures { MatchOption result (byte ≡ None) (λ next. (byte ≡ Some next.0) × (next.1.now ≡ rest.now)) }
{
    match byte {
        Some(byte) => Some((byte, rest)),
        None => None,
    }
}
