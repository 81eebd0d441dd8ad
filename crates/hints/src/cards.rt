//! What is wrong with a card.
use crate::hint::Hint;
use crate::job_lines::JobLines;
use crate::lines::{InputLine, card_before, is_card, section};
use crate::names::name_hint;
use crate::words::{first_word, has_word, in_capitals, next_word, trimmed, unindented};
use text_lines::lines::split_line;

const CARDS: &[u8] = b"//DDS //JOB //SCHED //END";

/// The most cards of a word.
const MOST_SOURCES: usize = 1_000;

const MOST_JOBS: usize = 64;

/// What is wrong with a line that begins as cards do.
pub(crate) fn card_hint<'a>(input: &'a [u8], card: InputLine<'a>) -> Option<Hint<'a>> {
    if let Some(hint) = word_hint(card.text) {
        return Some(hint);
    }
    if let Some(hint) = earlier_hint(input, card) {
        return Some(hint);
    }
    if let Some(hint) = open_block_hint(input, card.number) {
        return Some(hint);
    }
    number_hint(card.text)
}

/// What is left to be wrong with the card of a source or a job: that there are too many.
fn number_hint(card: &[u8]) -> Option<Hint<'_>> {
    let (word, _) = first_word(card);
    if word == b"//DDS".as_slice() || word == b"//JOB".as_slice() {
        Some(Hint::Word(
            b"the card is right by itself; there may be too many ",
            word,
            b" (docs/limits.md)",
        ))
    } else {
        None
    }
}

/// What is wrong with a card by itself.
fn word_hint(card: &[u8]) -> Option<Hint<'_>> {
    let (word, rest) = first_word(card);
    if word == b"//DDS".as_slice() || word == b"//JOB".as_slice() {
        return named_hint(word, rest);
    }
    if word == b"//SCHED".as_slice() {
        return turns_hint(unindented(rest));
    }
    if word == b"//END".as_slice() {
        return if rest.is_empty() {
            None
        } else {
            Some(Hint::Plain(b"//END stands alone: not even a blank is after it"))
        };
    }
    Some(unknown_card(word))
}

fn unknown_card(word: &[u8]) -> Hint<'_> {
    if let Some(card) = in_capitals(CARDS, word) {
        return Hint::Word(b"cards have capital letters: ", card, b"");
    }
    let mut rest = CARDS;
    while let Some((card, others)) = next_word(rest) {
        if word.starts_with(card) {
            return glued_card(card);
        }
        rest = others;
    }
    Hint::Word(
        b"there is no card ",
        word,
        b"; the cards are //DDS, //JOB, //SCHED and //END",
    )
}

/// A card with something right after its word.
fn glued_card(card: &[u8]) -> Hint<'_> {
    if card == b"//END".as_slice() {
        Hint::Plain(b"//END stands alone: not even a blank is after it")
    } else {
        Hint::Word(b"a blank is missing after ", card, b"")
    }
}

/// What is wrong with the name of a source or a job.
fn named_hint<'a>(word: &'a [u8], rest: &'a [u8]) -> Option<Hint<'a>> {
    let (name, others) = first_word(unindented(rest));
    if name.is_empty() {
        return Some(Hint::Word(b"a name is missing after ", word, b""));
    }
    if let Some(hint) = name_hint(name) {
        return Some(hint);
    }
    let more = trimmed(others);
    if more.is_empty() {
        None
    } else {
        Some(Hint::Word(b"a card has one name alone; after it stands ", more, b""))
    }
}

/// What is wrong with the names of //SCHED.
fn turns_hint(turns: &[u8]) -> Option<Hint<'_>> {
    if turns.is_empty() {
        return Some(Hint::Plain(b"//SCHED has names of jobs, or *RR alone"));
    }
    if trimmed(turns) == b"*RR".as_slice() {
        return None;
    }
    let mut rest = turns;
    while let Some((name, others)) = next_word(rest) {
        if let Some(hint) = name_hint(name) {
            return Some(hint);
        }
        rest = others;
    }
    None
}

/// What is wrong with a card beside others.
fn earlier_hint<'a>(input: &'a [u8], card: InputLine<'a>) -> Option<Hint<'a>> {
    let (word, rest) = first_word(card.text);
    if word == b"//SCHED".as_slice() {
        return schedule_hint(input, card, rest);
    }
    match same_card(input, card.number, word, trimmed(rest)) {
        Some(number) => Some(Hint::Number(b"line ", number, b" has a card of the same name")),
        None => None,
    }
}

fn schedule_hint<'a>(input: &'a [u8], card: InputLine<'a>, turns: &'a [u8]) -> Option<Hint<'a>> {
    if has_word_before(input, card.number, b"//SCHED") {
        return Some(Hint::Plain(b"an input has one //SCHED alone"));
    }
    let mut rest = turns;
    while let Some((name, others)) = next_word(rest) {
        if name != b"*RR".as_slice() && same_card(input, u32::MAX, b"//JOB", name).is_none() {
            return Some(Hint::Word(b"no job is called ", name, b""));
        }
        rest = others;
    }
    None
}

/// Whether a line before one begins with a word.
fn has_word_before(input: &[u8], line: u32, word: &[u8]) -> bool {
    let mut rest = input;
    for _ in 1..line {
        let Some((text, after)) = split_line(rest) else {
            return false;
        };
        if first_word(text).0 == word {
            return true;
        }
        rest = after;
    }
    false
}

/// The line of the first card of this word and name before a line.
pub(crate) fn same_card(input: &[u8], line: u32, word: &[u8], name: &[u8]) -> Option<u32> {
    let mut rest = input;
    for current in 1..line {
        let Some((text, after)) = split_line(rest) else {
            return None;
        };
        let (other, others_name) = first_word(text);
        if other == word && trimmed(others_name) == name {
            return Some(current);
        }
        rest = after;
    }
    None
}

/// A block of the job before a card that is open at its end.
fn open_block_hint(input: &[u8], line: u32) -> Option<Hint<'_>> {
    let Some(card) = card_before(input, line) else {
        return None;
    };
    if first_word(card.text).0 != b"//JOB".as_slice() {
        return None;
    }
    let job = JobLines {
        lines: section(card.after),
        least_after: 0,
    };
    if job.open_blocks() > 0 {
        Some(Hint::Number(
            b"the job of line ",
            card.number,
            b" ends without an ENDDO for each of its DO",
        ))
    } else {
        None
    }
}

/// What is wrong with a first line that is no card.
pub(crate) fn first_line_hint(line: &[u8]) -> Hint<'_> {
    if line.starts_with(b"\xEF\xBB\xBF") {
        Hint::Plain(b"the input begins with a byte order mark (\\xEF\\xBB\\xBF): take it out")
    } else if is_card(unindented(line)) {
        Hint::Plain(b"a card begins in the first column")
    } else {
        Hint::Plain(b"an input begins with a card, //DDS or //JOB, and a name")
    }
}
