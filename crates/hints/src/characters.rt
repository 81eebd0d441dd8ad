//! Bytes that are no characters of a card or a statement.
use crate::hint::Hint;
use crate::visible::is_printable;

/// Bytes that editors and word processors put in, and what they are.
const KNOWN: &[(&[u8], &[u8])] = &[
    (b"\xE2\x80\x98", b"a curly apostrophe: write '"),
    (b"\xE2\x80\x99", b"a curly apostrophe: write '"),
    (
        b"\xE2\x80\x9C",
        b"a curly quotation mark: a text stands between apostrophes",
    ),
    (
        b"\xE2\x80\x9D",
        b"a curly quotation mark: a text stands between apostrophes",
    ),
    (b"\xE2\x80\x93", b"a dash: write -"),
    (b"\xE2\x80\x94", b"a dash: write -"),
    (b"\xE2\x80\xA6", b"three points in one: write ..."),
    (b"\xC2\xA0", b"a no-break space: write a space"),
    (b"\xEF\xBB\xBF", b"a byte order mark: take it out"),
    (b"\t", b"a tab within apostrophes, where it is no blank"),
    (b"\r", b"a carriage return"),
];

const UNKNOWN: &[u8] = b"none of the 95 printable characters that there are";

/// The first bytes of a text that are no character of a card or a statement: outside the 95, but for a tab as a blank.
pub(crate) fn character_hint(text: &[u8]) -> Option<Hint<'_>> {
    let mut quoted = false;
    for (i, &byte) in text.iter().enumerate() {
        if byte == b'\'' {
            quoted = !quoted;
        }
        if !is_printable(byte) && (quoted || byte != b'\t') {
            return Some(character_at(i, &text[i..]));
        }
    }
    None
}

/// The character at the front of what stands from a place on, counted from 0.
fn character_at(place: usize, rest: &[u8]) -> Hint<'_> {
    let column = u32::try_from(place).unwrap_or(u32::MAX).saturating_add(1);
    for &(bytes, meaning) in KNOWN {
        if rest.starts_with(bytes) {
            return Hint::Character {
                column,
                bytes,
                meaning,
            };
        }
    }
    Hint::Character {
        column,
        bytes: &rest[..character_length(rest).min(rest.len())],
        meaning: UNKNOWN,
    }
}

/// How many bytes the character at the front has, if the text is in UTF-8: 1 to 4.
fn character_length(rest: &[u8]) -> usize {
    let following = rest
        .iter()
        .skip(1)
        .take(3)
        .take_while(|&&byte| matches!(byte, 0x80..=0xBF))
        .count();
    following.saturating_add(1)
}
