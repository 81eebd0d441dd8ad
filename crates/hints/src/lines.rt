//! The lines of an input: a line by its number, the card before it, the statements of a job.
ghost use Rattle.std.specs.Prelude.{◌≡◌, ◌<◌, ◌≤◌, IfSome, length, option_map};
ghost use Rattle.text_lines.specs.Lines.{lines_of};
ghost use Rattle.hints.specs.Shown.{line_of};

use crate::words::{unindented, without_end};
use std::alloc::{AllocError, Global};
use text_lines::lines::{are_blanks, split_line};

/// A line of an input.
#[derive(Clone, Copy)]
pub(crate) struct InputLine<'a> {
    /// Counted from 1.
    pub(crate) number: u32,
    pub(crate) text: &'a [u8],
    /// All lines after it.
    pub(crate) after: &'a [u8],
}

/// The line of this number.
pub(crate) fn line_at(input: &[u8], number: u32) -> Option<InputLine<'_>>
    ensures { option_map (λ line. line.text.now) result ≡ line_of (lines_of input.now) number }
{
    let mut rest = input;
    let mut left = number;
    while left > 1 {
        let Some((_, after)) = split_line(rest) else {
            return None;
        };
        rest = after;
        left -= 1;
    }
    match split_line(rest) {
        Some((text, after)) => Some(InputLine {
            number,
            text,
            after,
        }),
        None => None,
    }
}

/// Whether a line begins as cards do.
pub(crate) fn is_card(line: &[u8]) -> bool {
    line.starts_with(b"//")
}

/// The last card before the line of this number.
pub(crate) fn card_before(input: &[u8], number: u32) -> Option<InputLine<'_>> {
    let mut card = None;
    let mut rest = input;
    for current in 1..number {
        let Some((text, after)) = split_line(rest) else {
            return card;
        };
        if is_card(text) {
            card = Some(InputLine {
                number: current,
                text,
                after,
            });
        }
        rest = after;
    }
    card
}

/// The lines at the front of a text, up to the next card.
pub(crate) fn section(lines: &[u8]) -> &[u8] {
    let mut rest = lines;
    while let Some((line, after)) = split_line(rest) {
        if is_card(line) {
            break;
        }
        rest = after;
    }
    &lines[..lines.len().saturating_sub(rest.len())]
}

/// The first statement of a job's lines: its first line, and what is after its last one.
pub(crate) fn next_statement(lines: &[u8]) -> Option<(&[u8], &[u8])>
    ensures { IfSome result (λ found. length found.1.now < length lines.now) }
{
    let mut rest = lines;
    while let Some((line, after)) = split_line(rest) {
        if is_card(line) {
            return None;
        }
        if !is_skipped(line) {
            return Some((line, after_statement(line, after)));
        }
        rest = after;
    }
    None
}

/// Whether a line between statements says nothing.
fn is_skipped(line: &[u8]) -> bool {
    are_blanks(line) || unindented(line).starts_with(b"/*")
}

/// What is after a statement whose first line this is.
fn after_statement<'a>(line: &[u8], after: &'a [u8]) -> &'a [u8]
    ensures { length result.now ≤ length after.now }
{
    if before_sign(line).is_none() {
        return after;
    }
    let mut rest = after;
    while let Some((next, others)) = split_line(rest) {
        if is_card(next) {
            break;
        }
        rest = others;
        if before_sign(next).is_none() {
            break;
        }
    }
    rest
}

/// What stands before the sign of a line that goes on with the next one.
fn before_sign(line: &[u8]) -> Option<&[u8]> {
    without_end(line).strip_suffix(b"+")
}

/// A statement with its lines joined.
#[derive(Drop)]
pub(crate) struct StatementText {
    pub(crate) text: Vec<u8>,
    /// Whether the line that it goes on with is there.
    pub(crate) is_whole: bool,
}

/// The statement that begins on a line.
pub(crate) fn joined(alloc: Global, line: InputLine<'_>) -> Result<StatementText, AllocError> {
    let mut text = Vec::new(alloc);
    let mut piece = line.text;
    let mut rest = line.after;
    while let Some((next, after)) = split_line(rest) {
        let Some(front) = before_sign(piece) else {
            break;
        };
        text.extend_from_slice(front)?;
        if is_card(next) {
            return Ok(StatementText {
                text,
                is_whole: false,
            });
        }
        piece = unindented(next);
        rest = after;
    }
    text.extend_from_slice(piece)?;
    Ok(StatementText {
        text,
        is_whole: before_sign(piece).is_none(),
    })
}
