//! Where the keywords of a text begin and end, and their names.
ghost use Rattle.std.specs.Prelude.{◌≡◌, ℕ, ◌+◌, ◌-◌, ◌<◌, ◌≤◌, ◌^◌, ◌==◌, ◌||◌, Bool, List, [], ◌∷◌, length, take, drop, IfOk, position};
ghost use Rattle.std.specs.List.{list_any, list_all, before_first, after_first};
ghost use Rattle.dds_source.specs.Characters.{is_letter};
ghost use Rattle.text_lines.specs.Decimal.{is_digit};
ghost use Rattle.dds_source.specs.KeywordTexts.{outside, is_outside, behind, behind_all, closes, keyword_texts, keywords_in, bytes, is_keyword_name, name_part, has_parentheses, is_unfinished};

use crate::characters::{Place, SourceCharacter};
use crate::continuation::toggled;
use std::alloc::{AllocError, Global};
use text_lines::decimals::is_digit;
use text_lines::lines::is_blank;

impl Place {
    fn outside() -> Place
        ensures { result ≡ outside }
    {
        Place {
            quoted: false,
            depth: 0,
        }
    }

    fn is_outside(&self) -> bool
        ensures { result ≡ is_outside self.now }
    {
        !self.quoted && self.depth == 0
    }

    /// Behind one more character.
    fn behind(self, c: u8) -> Place
        requires { self.depth + 1 < 2 ^ 64 }
        ensures { result ≡ behind self c }
    {
        let Place { quoted, depth } = self;
        match c {
            b'(' if !quoted => Place {
                quoted,
                depth: depth + 1,
            },
            b')' if !quoted => Place {
                quoted,
                depth: depth.saturating_sub(1),
            },
            _ => Place {
                quoted: toggled(quoted, c),
                depth,
            },
        }
    }

    /// Whether a character closes the outermost parenthesis.
    fn closes(self, c: u8) -> bool
        requires { self.depth + 1 < 2 ^ 64 }
        ensures { result ≡ closes self c }
    {
        c == b')' && self.behind(c).is_outside()
    }
}

/// How long the keyword at the front is; 0 for a blank there.
pub(crate) fn keyword_len(text: &[SourceCharacter]) -> usize
    ensures within { result ≤ length text.now }
    ensures blank { result ≡ 0 → keywords_in text.now ≡ keywords_in (drop 1 text.now) }
    ensures keyword { 0 < result → keywords_in text.now ≡ take result text.now ∷ keywords_in (drop result text.now) }
{
    let mut place = Place::outside();
    for (i, c) in text.iter().enumerate() {
        if place.is_outside() && is_blank(c.byte) {
            return i;
        }
        if place.closes(c.byte) {
            return i + 1;
        }
        place = place.behind(c.byte);
    }
    text.len()
}

/// The characters without their places.
pub(crate) fn bytes(alloc: Global, text: &[SourceCharacter]) -> Result<Vec<u8>, AllocError>
    ensures { IfOk result (λ v. v.items ≡ bytes text.now) }
{
    text.iter().map(|c| c.byte).collect(alloc)
}

pub(crate) fn is_keyword_name(text: &[u8]) -> bool
    ensures { result ≡ is_keyword_name text.now }
{
    match text {
        [first, rest @ ..] => is_letter(*first) && are_letters_or_digits(rest) && rest.len() <= 9,
        [] => false,
    }
}

fn are_letters_or_digits(text: &[u8]) -> bool
    ensures { result ≡ list_all (λ d. is_letter d || is_digit d) text.now }
{
    text.iter().all(|&c| is_letter(c) || is_digit(c))
}

fn is_letter(c: u8) -> bool
    ensures { result ≡ is_letter c }
{
    matches!(c, b'A'..=b'Z')
}

/// What stands before the first parenthesis.
pub(crate) fn name_part(keyword: &[u8]) -> &[u8]
    ensures { result.now ≡ name_part keyword.now }
{
    match parenthesis(keyword) {
        Some(end) => &keyword[..end],
        None => keyword,
    }
}

/// What stands behind the first parenthesis.
pub(crate) fn after_parenthesis(keyword: &[u8]) -> &[u8]
    ensures { result.now ≡ after_first (λ c. c == 40) keyword.now }
{
    match parenthesis(keyword) {
        Some(end) => &keyword[end + 1..],
        None => &keyword[keyword.len()..],
    }
}

fn parenthesis(keyword: &[u8]) -> Option<usize>
    ensures { result ≡ position (λ c. c == 40) keyword.now }
{
    keyword.iter().position(|&c| c == b'(')
}

pub(crate) fn has_parentheses(keyword: &[u8]) -> bool
    ensures { result ≡ has_parentheses keyword.now }
{
    keyword.iter().any(|&c| c == b'(')
}

/// Whether an apostrophe or a parenthesis isn't closed.
pub(crate) fn is_unfinished(keyword: &[u8]) -> bool
    ensures { result ≡ is_unfinished keyword.now }
{
    let mut place = Place::outside();
    for &c in keyword {
        place = place.behind(c);
    }
    !place.is_outside()
}
