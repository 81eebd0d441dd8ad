//! Lines of a text one after another, and the name that a line holds.
ghost use Rattle.std.specs.Prelude.{◌≡◌, ◌<◌, ◌∷◌, [], length, MatchOption};
ghost use Rattle.std.specs.Prelude.{◌==◌, ◌≤◌};
ghost use Rattle.std.specs.List.{position_or_len, prefix_len};
ghost use Rattle.text_lines.specs.Lines.{is_blank, are_blanks, lines_of, name_alone, word_length};

use field_types::names::Name;

/// Whether a byte is a space or a tab.
pub fn is_blank(byte: u8) -> bool
    ensures { result ≡ is_blank byte }
{
    byte == b' ' || byte == b'\t'
}

/// How many blanks stand at the front of a text.
#[tactic(auto, using(crate::proofs::LineLemmas::counted))]
pub fn blanks_before(text: &[u8]) -> usize
    ensures blanks { result ≡ prefix_len is_blank text.now }
    ensures within { result ≤ length text.now }
{
    text.iter().take_while(|&&byte| is_blank(byte)).count()
}

/// The first line of a text without its line feed, and what is behind the line feed.
pub fn split_line(text: &[u8]) -> Option<(&[u8], &[u8])>
    ensures { MatchOption result (text.now ≡ []) (λ found. (lines_of text.now ≡ found.0.now ∷ lines_of found.1.now) × (length found.1.now < length text.now)) }
{
    if text.is_empty() {
        return None;
    }
    let end = line_length(text);
    if end < text.len() {
        Some((&text[..end], &text[end + 1..]))
    } else {
        Some((text, &text[end..]))
    }
}

#[tactic(auto, using(crate::proofs::LineLemmas::counted))]
fn line_length(text: &[u8]) -> usize
    ensures line { result ≡ position_or_len (λ b. b == 10) text.now }
    ensures within { result ≤ length text.now }
{
    text.iter().take_while(|&&byte| byte != b'\n').count()
}

/// The system name at the front of a text, where nothing but blanks is behind it.
pub fn name_alone(text: &[u8]) -> Option<Name>
    ensures { result ≡ name_alone text.now }
{
    let length = word_length(text);
    if are_blanks(&text[length..]) {
        Name::from_bytes(&text[..length])
    } else {
        None
    }
}

/// Whether a text has nothing but blanks.
pub fn are_blanks(text: &[u8]) -> bool
    ensures { result ≡ are_blanks text.now }
{
    text.iter().all(|&byte| is_blank(byte))
}

#[tactic(auto, using(crate::proofs::LineLemmas::counted))]
fn word_length(text: &[u8]) -> usize
    ensures word { result ≡ word_length text.now }
    ensures within { result ≤ length text.now }
{
    text.iter().take_while(|&&byte| !is_blank(byte)).count()
}
