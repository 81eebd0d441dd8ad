//! What is wrong with a name.
use crate::hint::Hint;
use field_types::names::{NAME_LENGTH, Name};

/// Why a word is no name; `None` where it is one.
pub(crate) fn name_hint(word: &[u8]) -> Option<Hint<'_>> {
    if Name::from_bytes(word).is_some() {
        None
    } else if word.iter().any(|byte| byte.is_ascii_lowercase()) {
        Some(Hint::Word(b"the letters of a name are capital: ", word, b""))
    } else if word.len() > NAME_LENGTH {
        Some(Hint::Word(b"a name has at most 10 characters: ", word, b""))
    } else if begins_with_digit(word) {
        Some(Hint::Word(b"a name begins with a letter, $, # or @: ", word, b""))
    } else {
        Some(Hint::Word(
            b"a name has letters, digits, $, #, @, _ and . and nothing else: ",
            word,
            b"",
        ))
    }
}

fn begins_with_digit(word: &[u8]) -> bool {
    match word {
        [first, ..] => matches!(first, b'0'..=b'9' | b'_' | b'.'),
        [] => false,
    }
}
