//! Words of a line, and the parameters among them. By `specs/Words.antt`.
ghost use Rattle.std.specs.Prelude.{◌≡◌, ◌<◌, ◌+◌, ◌^◌, ◌∷◌, [], length, option_copied, option_map, is_some, MatchOption};
ghost use Rattle.statement_reader.specs.Parameters.{behind, before};
ghost use Rattle.statement_reader.specs.Words.{words};
ghost use Rattle.listing_words.specs.Words.{is_break, inside, given, behind_given, behind_word, name_of, name_in, job_from, job_in};

use field_types::names::Name;
use statement_reader::words::next_word;

/// Whether a word stands between a request and its reply, or before an entry.
fn is_break(word: &[u8]) -> bool
    ensures { result ≡ is_break word.now }
{
    word == b"=>".as_slice() || word == b"/".as_slice()
}

/// What stands behind the front of a text, where the text has that front.
pub fn behind<'a>(text: &'a [u8], front: &[u8]) -> Option<&'a [u8]>
    ensures { option_copied result ≡ behind front.now text.now }
{
    text.strip_prefix(front)
}

fn before<'a>(text: &'a [u8], back: &[u8]) -> Option<&'a [u8]>
    ensures { option_copied result ≡ before back.now text.now }
{
    text.strip_suffix(back)
}

/// What a word has in the parentheses of this keyword.
#[tactic(auto, unfolding(crate::specs::Words::inside))]
fn inside<'a>(word: &'a [u8], keyword: &[u8]) -> Option<&'a [u8]>
    ensures { option_copied result ≡ inside keyword.now word.now }
{
    let Some(rest) = behind(word, keyword) else {
        return None;
    };
    let Some(rest) = behind(rest, b"(") else {
        return None;
    };
    before(rest, b")")
}

/// What a keyword has in its parentheses, by the first word that has it before the next break.
pub fn given<'a>(text: &'a [u8], keyword: &[u8]) -> Option<&'a [u8]>
    ensures { option_copied result ≡ given keyword.now (words text.now) }
{
    let mut rest = text;
    while let Some((word, others)) = next_word(rest) {
        if is_break(word) {
            return None;
        }
        if let Some(inner) = inside(word, keyword) {
            return Some(inner);
        }
        rest = others;
    }
    None
}

/// The text behind the first word that has the keyword.
pub fn behind_given<'a>(text: &'a [u8], keyword: &[u8]) -> Option<&'a [u8]>
    ensures { option_map (λ rest. words rest.now) result ≡ behind_given keyword.now (words text.now) }
{
    let mut rest = text;
    while let Some((word, others)) = next_word(rest) {
        if inside(word, keyword).is_some() {
            return Some(others);
        }
        rest = others;
    }
    None
}

/// The text behind the first word that is spelled so.
pub fn behind_word<'a>(text: &'a [u8], spelling: &[u8]) -> Option<&'a [u8]>
    ensures { option_map (λ rest. words rest.now) result ≡ behind_word spelling.now (words text.now) }
{
    let mut rest = text;
    while let Some((word, others)) = next_word(rest) {
        if word == spelling {
            return Some(others);
        }
        rest = others;
    }
    None
}

/// The name that a word is.
pub fn name_of(word: &[u8]) -> Option<Name>
    ensures { result ≡ name_of word.now }
{
    Name::from_bytes(word)
}

/// A name as a parameter.
#[tactic(auto, unfolding(crate::specs::Words::name_in))]
pub fn name_in(text: &[u8], keyword: &[u8]) -> Option<Name>
    ensures { result ≡ name_in keyword.now (words text.now) }
{
    let Some(word) = given(text, keyword) else {
        return None;
    };
    name_of(word)
}

/// The number of the job with this name, the first of the names being job 1's.
pub fn job_named(names: &[Name], word: &[u8]) -> Option<u32>
    requires { length names.now < 2 ^ 32 }
    ensures { result ≡ job_from 1 names.now word.now }
{
    for (i, name) in names.iter().enumerate() {
        if word == name.as_bytes() {
            return Some(i as u32 + 1);
        }
    }
    None
}

/// A job as a parameter.
#[tactic(auto, unfolding(crate::specs::Words::job_in))]
pub fn job_in(names: &[Name], text: &[u8], keyword: &[u8]) -> Option<u32>
    requires { length names.now < 2 ^ 32 }
    ensures { result ≡ job_in names.now keyword.now (words text.now) }
{
    let Some(word) = given(text, keyword) else {
        return None;
    };
    job_named(names, word)
}
