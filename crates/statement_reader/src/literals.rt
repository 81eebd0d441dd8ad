//! Literals, by `specs/Literals.antt`.
ghost use Rattle.std.specs.Prelude.{◌≡◌, ◌<◌, ◌≤◌, ◌∷◌, length, MatchOption, IfOk, option_map};
ghost use Rattle.statement_reader.specs.Lists.{onto_others, with_front};
ghost use Rattle.statement_reader.specs.Literals.{quoted, hexadecimal, literal_of, ended};

use crate::numbers::number_of;
use crate::parameters::behind;
use ebc_text::to_ebcdic_byte;
use field_types::texts::Text;
use field_types::values::Value;
use std::alloc::{AllocError, Global};
use text_lines::characters::hex_byte;

/// The literal that a word is.
#[tactic(auto, unfolding(crate::specs::Literals::literal_of))]
pub fn literal_of(alloc: Global, word: &[u8]) -> Result<Option<Value>, AllocError>
    ensures { IfOk result (λ value. value ≡ literal_of word.now) }
{
    if let Some(text) = behind(word, b"'") {
        quoted(alloc, text)
    } else if let Some(digits) = behind(word, b"X'") {
        hexadecimal(alloc, digits)
    } else {
        match number_of(word) {
            Some(number) => Ok(Some(Value::Number(number))),
            None => Ok(None),
        }
    }
}

fn quoted(alloc: Global, text: &[u8]) -> Result<Option<Value>, AllocError>
    ensures { IfOk result (λ value. value ≡ option_map Value.Chars (quoted text.now)) }
{
    let mut bytes = Vec::new(alloc);
    let mut rest = text;
    while let Some((byte, others)) = next_character(rest) {
        bytes.push(byte)?;
        rest = others;
    }
    Ok(text_before(bytes, rest))
}

fn hexadecimal(alloc: Global, text: &[u8]) -> Result<Option<Value>, AllocError>
    ensures { IfOk result (λ value. value ≡ option_map Value.Chars (hexadecimal text.now)) }
{
    let mut bytes = Vec::new(alloc);
    let mut rest = text;
    while let Some((byte, others)) = next_pair(rest) {
        bytes.push(byte)?;
        rest = others;
    }
    Ok(text_before(bytes, rest))
}

/// The text of these bytes, where nothing but the apostrophe that ends it is left.
#[tactic(auto, using(crate::proofs::ListLemmas::with_front_end))]
fn text_before(bytes: Vec<u8>, rest: &[u8]) -> Option<Value>
    ensures { result ≡ option_map Value.Chars (with_front bytes.items (ended rest.now)) }
{
    if rest == b"'".as_slice() {
        Some(Value::Chars(Text::from_vec(bytes)))
    } else {
        None
    }
}

/// The byte of the next character, and what is behind it.
fn next_character(text: &[u8]) -> Option<(u8, &[u8])>
    ensures { MatchOption result (quoted text.now ≡ ended text.now) (λ next. (quoted text.now ≡ onto_others (Some next.0) (quoted next.1.now)) × (length next.1.now < length text.now)) }
{
    match text {
        [] => None,
        [character, rest @ ..] => {
            if *character == b'\'' {
                second_apostrophe(rest)
            } else {
                byte_before(to_ebcdic_byte(*character), rest)
            }
        }
    }
}

/// The byte of two apostrophes, by the text behind the first.
fn second_apostrophe(text: &[u8]) -> Option<(u8, &[u8])>
    ensures { MatchOption result (quoted (39 ∷ text.now) ≡ ended (39 ∷ text.now)) (λ next. (quoted (39 ∷ text.now) ≡ onto_others (Some next.0) (quoted next.1.now)) × (length next.1.now ≤ length text.now)) }
{
    match text {
        [] => None,
        [character, rest @ ..] => {
            if *character == b'\'' {
                byte_before(to_ebcdic_byte(b'\''), rest)
            } else {
                None
            }
        }
    }
}

/// The byte of the next pair of digits, and what is behind it.
fn next_pair(text: &[u8]) -> Option<(u8, &[u8])>
    ensures { MatchOption result (hexadecimal text.now ≡ ended text.now) (λ next. (hexadecimal text.now ≡ onto_others (Some next.0) (hexadecimal next.1.now)) × (length next.1.now < length text.now)) }
{
    match text {
        [high, low, rest @ ..] => byte_before(hex_byte(*high, *low), rest),
        _ => None,
    }
}

fn byte_before(byte: Option<u8>, rest: &[u8]) -> Option<(u8, &[u8])>
    ensures { MatchOption result (byte ≡ None) (λ next. (byte ≡ Some next.0) × (next.1.now ≡ rest.now)) }
{
    match byte {
        Some(byte) => Some((byte, rest)),
        None => None,
    }
}
