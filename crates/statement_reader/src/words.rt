//! The words of a text: blanks separate them, but not between apostrophes and not in parentheses.
ghost use Rattle.std.specs.Prelude.{◌≡◌, ◌<◌, ◌≤◌, ◌+◌, ◌^◌, ◌∷◌, [], length, MatchOption, option_copied, option_map};
ghost use Rattle.statement_reader.specs.Words.{after, is_outside, outside, piece_length, unindented, words, only, three};

use text_lines::lines::{blanks_before, is_blank};

/// Where a place of a text lies: whether between apostrophes, and in how many parentheses.
#[derive(Clone, Copy)]
struct Nesting {
    quoted: bool,
    depth: usize,
}

impl Nesting {
    /// Where the place behind this character lies.
    fn after(self, character: u8) -> Nesting
        requires { self.depth + 1 < 2 ^ 64 }
        ensures { result ≡ after self character }
    {
        if character == b'\'' {
            Nesting {
                quoted: !self.quoted,
                depth: self.depth,
            }
        } else if self.quoted {
            self
        } else if character == b'(' {
            Nesting {
                quoted: self.quoted,
                depth: self.depth + 1,
            }
        } else if character == b')' {
            Nesting {
                quoted: self.quoted,
                depth: self.depth.saturating_sub(1),
            }
        } else {
            self
        }
    }

    fn is_outside(self) -> bool
        ensures { result ≡ is_outside self }
    {
        !self.quoted && self.depth == 0
    }
}

/// The first word of a text, and what is behind it.
pub fn next_word(text: &[u8]) -> Option<(&[u8], &[u8])>
    ensures { MatchOption result (words text.now ≡ []) (λ found. (words text.now ≡ found.0.now ∷ words found.1.now) × (length found.1.now < length text.now)) }
{
    let text = unindented(text);
    if text.is_empty() {
        None
    } else {
        Some(text.split_at(piece_length(text)))
    }
}

/// What stands behind the blanks at the front of a text.
pub fn unindented(text: &[u8]) -> &[u8]
    ensures { result.now ≡ unindented text.now }
{
    &text[blanks_before(text)..]
}

/// How many characters stand before the first blank that separates words.
fn piece_length(text: &[u8]) -> usize
    ensures piece { result ≡ piece_length outside text.now }
    ensures within { result ≤ length text.now }
{
    let mut nesting = Nesting {
        quoted: false,
        depth: 0,
    };
    for (i, &character) in text.iter().enumerate() {
        if nesting.is_outside() && is_blank(character) {
            return i;
        }
        nesting = nesting.after(character);
    }
    text.len()
}

/// How many words a text has.
pub fn word_count(text: &[u8]) -> usize
    ensures { result ≡ length (words text.now) }
{
    let mut count = 0;
    let mut rest = text;
    while let Some((_, others)) = next_word(rest) {
        count += 1;
        rest = others;
    }
    count
}

/// The word of a text that has one alone.
pub fn only(text: &[u8]) -> Option<&[u8]>
    ensures { option_copied result ≡ only (words text.now) }
{
    let Some((word, rest)) = next_word(text) else {
        return None;
    };
    match next_word(rest) {
        None => Some(word),
        Some(_) => None,
    }
}

/// The words of a text that has three.
pub fn three(text: &[u8]) -> Option<(&[u8], &[u8], &[u8])>
    ensures { option_map (λ found. (found.0.now, found.1.now, found.2.now)) result ≡ three (words text.now) }
{
    let Some((first, rest)) = next_word(text) else {
        return None;
    };
    let Some((second, rest)) = next_word(rest) else {
        return None;
    };
    let Some((third, rest)) = next_word(rest) else {
        return None;
    };
    match next_word(rest) {
        None => Some((first, second, third)),
        Some(_) => None,
    }
}
