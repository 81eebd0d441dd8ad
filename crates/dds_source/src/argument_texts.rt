//! Which arguments stand in the parentheses of a keyword.
ghost use Rattle.std.specs.Prelude.{◌≡◌, ℕ, ◌+◌, ◌-◌, ◌<◌, ◌≤◌, ◌==◌, Bool, false, List, [], ◌∷◌, ◌++◌, length, take, drop, map, Option, IfOk, IsTrue, is_some, Some, None, Ok};
ghost use Rattle.std.specs.List.{list_any};
ghost use Rattle.std.specs.Option.{option_map};
ghost use Rattle.dds_source.specs.ArgumentTexts.{argument_part, argument_texts, arguments_in, text_behind, quoted_text, begins_hexadecimal, hexadecimal_digits, hexadecimal_bytes, bytes_of_digits, is_quoted_behind, is_bad_hexadecimal, begins_with_asterisk, word_of, argument_of};

use crate::arguments::{Argument, Arguments, Characters};
use crate::continuation::toggled;
use crate::keyword_texts::{after_parenthesis, is_unfinished};
use crate::number_literals::number;
use std::alloc::{AllocError, Global};
use text_lines::characters::hex_byte;
use text_lines::field_types::names::Name;
use text_lines::field_types::texts::Text;
use text_lines::lines::is_blank;

/// What stands between the outermost parentheses.
fn argument_part(keyword: &[u8]) -> &[u8]
    ensures { result.now ≡ argument_part keyword.now }
{
    let inner = after_parenthesis(keyword);
    if is_unfinished(keyword) || inner.is_empty() {
        inner
    } else {
        &inner[..inner.len() - 1]
    }
}

/// The arguments of a keyword, and whether a literal `X'..'` among them has no bytes.
#[tactic(auto, unfolding(crate::specs::ArgumentTexts::arguments_in))]
pub(crate) fn arguments(alloc: Global, keyword: &[u8]) -> Result<(Arguments, bool), AllocError>
    ensures { IfOk result (λ r. (r.0 ≡ map argument_of (arguments_in keyword.now)) × (r.1 ≡ list_any is_bad_hexadecimal (arguments_in keyword.now))) }
{
    let mut arguments = Arguments::new(alloc);
    let mut is_bad = false;
    let mut rest = argument_part(keyword);
    while !rest.is_empty() {
        let len = argument_len(rest);
        if len == 0 {
            rest = &rest[1..];
        } else {
            let (word, after) = rest.split_at(len);
            let is_bad_word = is_bad_hexadecimal(word);
            is_bad = is_bad || is_bad_word;
            arguments.push(argument_of(alloc, word)?)?;
            rest = after;
        }
    }
    arguments.shrink_to_fit();
    Ok((arguments, is_bad))
}

/// How long the argument at the front is; 0 for a blank there.
fn argument_len(text: &[u8]) -> usize
    ensures within { result ≤ length text.now }
    ensures blank { result ≡ 0 → argument_texts false [] text.now ≡ argument_texts false [] (drop 1 text.now) }
    ensures argument { 0 < result → argument_texts false [] text.now ≡ take result text.now ∷ argument_texts false [] (drop result text.now) }
{
    let mut quoted = false;
    for (i, &c) in text.iter().enumerate() {
        if !quoted && is_blank(c) {
            return i;
        }
        quoted = toggled(quoted, c);
    }
    text.len()
}

#[tactic(auto, unfolding(crate::specs::ArgumentTexts::argument_of))]
fn argument_of(alloc: Global, word: &[u8]) -> Result<Argument, AllocError>
    ensures { IfOk result (λ argument. argument ≡ argument_of word.now) }
{
    if let Some(text) = quoted_text(alloc, word)? {
        return Ok(Argument::Quoted(text));
    }
    if let Some(bytes) = hexadecimal_bytes(alloc, word)? {
        return Ok(Argument::Hexadecimal(Text::from_vec(bytes)));
    }
    match number(word) {
        Some(number) => Ok(Argument::Number(number)),
        None => word_of(alloc, word),
    }
}

fn word_of(alloc: Global, word: &[u8]) -> Result<Argument, AllocError>
    ensures { IfOk result (λ argument. argument ≡ word_of word.now) }
{
    match Name::from_bytes(word) {
        Some(name) => Ok(Argument::Name(name)),
        None if begins_with_asterisk(word) => {
            Ok(Argument::Special(Characters::from_slice(alloc, word)?))
        }
        None => Ok(Argument::Word(Characters::from_slice(alloc, word)?)),
    }
}

fn begins_with_asterisk(word: &[u8]) -> bool
    ensures { result ≡ begins_with_asterisk word.now }
{
    matches!(word, [b'*', ..])
}

/// The text of a literal in apostrophes.
fn quoted_text(alloc: Global, word: &[u8]) -> Result<Option<Characters>, AllocError>
    ensures { IfOk result (λ text. text ≡ quoted_text word.now) }
{
    match word {
        [b'\'', rest @ ..] => text_behind(alloc, rest),
        _ => Ok(None),
    }
}

/// The text behind the opening apostrophe, if the closing one is the last character.
fn text_behind(alloc: Global, rest: &[u8]) -> Result<Option<Characters>, AllocError>
    ensures { IfOk result (λ text. text ≡ text_behind false rest.now) }
{
    let mut text = Vec::new(alloc);
    let mut behind_apostrophe = false;
    for &c in rest {
        if behind_apostrophe && c != b'\'' {
            return Ok(None);
        }
        behind_apostrophe = !behind_apostrophe && c == b'\'';
        if !behind_apostrophe {
            text.push(c)?;
        }
    }
    if behind_apostrophe {
        Ok(Some(Characters::from_vec(text)))
    } else {
        Ok(None)
    }
}

fn begins_hexadecimal(word: &[u8]) -> bool
    ensures { result ≡ begins_hexadecimal word.now }
{
    matches!(word, [b'X', b'\'', ..])
}

/// The bytes of a literal `X'..'`; `None` is answered whatever memory there is.
fn hexadecimal_bytes(alloc: Global, word: &[u8]) -> Result<Option<Vec<u8>>, AllocError>
    ensures value { IfOk result (λ bytes. option_map (λ v. v.items) bytes ≡ hexadecimal_bytes word.now) }
    ensures none { hexadecimal_bytes word.now ≡ None → result ≡ Ok None }
{
    match hexadecimal_digits(word) {
        Some(digits) => digit_bytes(alloc, digits),
        None => Ok(None),
    }
}

fn digit_bytes(alloc: Global, digits: &[u8]) -> Result<Option<Vec<u8>>, AllocError>
    ensures value { IfOk result (λ bytes. option_map (λ v. v.items) bytes ≡ bytes_of_digits digits.now) }
    ensures none { bytes_of_digits digits.now ≡ None → result ≡ Ok None }
{
    if are_byte_digits(digits) {
        Ok(Some(decoded(alloc, digits)?))
    } else {
        Ok(None)
    }
}

fn hexadecimal_digits(word: &[u8]) -> Option<&[u8]>
    ensures { option_map (λ digits. digits.now) result ≡ hexadecimal_digits word.now }
{
    match word {
        [b'X', b'\'', digits @ .., b'\''] => Some(digits),
        _ => None,
    }
}

/// Whether they are pairs of hexadecimal digits.
fn are_byte_digits(digits: &[u8]) -> bool
    ensures { result ≡ is_some (bytes_of_digits digits.now) }
{
    let mut rest = digits;
    while let [high, low, more @ ..] = rest {
        if hex_byte(*high, *low).is_none() {
            return false;
        }
        rest = more;
    }
    rest.is_empty()
}

fn decoded(alloc: Global, digits: &[u8]) -> Result<Vec<u8>, AllocError>
    requires { IsTrue (is_some (bytes_of_digits digits.now)) }
    ensures { IfOk result (λ bytes. Some bytes.items ≡ bytes_of_digits digits.now) }
{
    let mut bytes = Vec::with_capacity(alloc, digits.len() / 2)?;
    let mut rest = digits;
    while let [high, low, more @ ..] = rest {
        if let Some(byte) = hex_byte(*high, *low) {
            bytes.push(byte)?;
        }
        rest = more;
    }
    Ok(bytes)
}

fn is_quoted_behind(text: &[u8]) -> bool
    ensures { result ≡ is_quoted_behind false text.now }
{
    let mut quoted = false;
    for &c in text {
        quoted = toggled(quoted, c);
    }
    quoted
}

fn is_bad_hexadecimal(word: &[u8]) -> bool
    ensures { result ≡ is_bad_hexadecimal word.now }
{
    begins_hexadecimal(word) && !is_quoted_behind(word) && !is_hexadecimal(word)
}

fn is_hexadecimal(word: &[u8]) -> bool
    ensures { result ≡ is_some (hexadecimal_bytes word.now) }
{
    match hexadecimal_digits(word) {
        Some(digits) => are_byte_digits(digits),
        None => false,
    }
}
