//! Pieces of a text: words, what stands before a character, and letters in either case.
ghost use Rattle.std.specs.Prelude.{◌<◌, ◌≤◌, IfSome, length};

use text_lines::characters::folded;
use text_lines::lines::{blanks_before, is_blank};

/// What stands after the blanks at the front of a text.
pub(crate) fn unindented(text: &[u8]) -> &[u8]
    ensures { length result.now ≤ length text.now }
{
    &text[blanks_before(text)..]
}

/// A text without the blanks at its end.
pub(crate) fn without_end(text: &[u8]) -> &[u8] {
    let blanks = text
        .iter()
        .rev()
        .take_while(|&&byte| is_blank(byte))
        .count();
    &text[..text.len().saturating_sub(blanks)]
}

/// A text without the blanks around it.
pub(crate) fn trimmed(text: &[u8]) -> &[u8] {
    without_end(unindented(text))
}

/// What stands before the first of these characters, and what after it: the whole text, and nothing, where there is none.
pub(crate) fn cut_at(text: &[u8], character: u8) -> (&[u8], &[u8]) {
    match text.iter().position(|&byte| byte == character) {
        Some(at) => (&text[..at], &text[at + 1..]),
        None => text.split_at(text.len()),
    }
}

/// What stands before the first blank, and the rest.
pub(crate) fn first_word(text: &[u8]) -> (&[u8], &[u8]) {
    match text.iter().position(|&byte| is_blank(byte)) {
        Some(at) => text.split_at(at),
        None => text.split_at(text.len()),
    }
}

/// The first word of a statement, and the rest. Blanks between apostrophes or in parentheses separate nothing.
pub(crate) fn next_word(text: &[u8]) -> Option<(&[u8], &[u8])>
    ensures { IfSome result (λ found. length found.1.now < length text.now) }
{
    let text = unindented(text);
    if text.is_empty() {
        return None;
    }
    Some(text.split_at(word_length(text).max(1).min(text.len())))
}

/// How many characters stand before the first blank that separates words.
fn word_length(text: &[u8]) -> usize {
    let mut quoted = false;
    let mut depth = 0u64;
    for (i, &byte) in text.iter().enumerate() {
        if !quoted && depth == 0 && is_blank(byte) {
            return i;
        }
        match byte {
            b'\'' => quoted = !quoted,
            b'(' if !quoted => depth = depth.saturating_add(1),
            b')' if !quoted => depth = depth.saturating_sub(1),
            _ => {}
        }
    }
    text.len()
}

/// Whether a word is among those of a text.
pub(crate) fn has_word(text: &[u8], word: &[u8]) -> bool {
    let mut rest = text;
    while let Some((next, others)) = next_word(rest) {
        if next == word {
            return true;
        }
        rest = others;
    }
    false
}

/// Whether a word is this one in capital letters, but isn't written so.
pub(crate) fn is_in_small_letters(word: &[u8], capitals: &[u8]) -> bool {
    word != capitals && folds_to(word, capitals)
}

fn folds_to(word: &[u8], capitals: &[u8]) -> bool {
    word.len() == capitals.len()
        && word
            .iter()
            .zip(capitals.iter())
            .all(|(byte, capital)| folded(*byte) == *capital)
}

/// The word of a text that a word would be in capital letters.
pub(crate) fn in_capitals<'a>(text: &'a [u8], word: &[u8]) -> Option<&'a [u8]> {
    let mut rest = text;
    while let Some((next, others)) = next_word(rest) {
        if is_in_small_letters(word, next) {
            return Some(next);
        }
        rest = others;
    }
    None
}
