//! Help beside the status of an input at fault.
ghost use Rattle.std.specs.Prelude.{◌≡◌, ◌≤◌, ◌+◌, IfOk, length};
ghost use Rattle.text_lines.specs.Lines.{lines_of};
ghost use Rattle.hints.specs.Shown.{line_of, shown_line};

use crate::cards::{card_hint, first_line_hint};
use crate::characters::character_hint;
use crate::columns::{RULER, column_hint, fault_in};
use crate::help_text::HelpText;
use crate::hint::Hint;
use crate::job_lines::JobLines;
use crate::lines::{InputLine, card_before, is_card, joined, line_at};
use crate::statements::statement_hint;
use crate::visible::MOST_SHOWN;
use crate::words::{first_word, trimmed};
use std::alloc::{AllocError, Global};
use text_lines::lines::split_line;

/// What a line is, by the card before it.
#[derive(Clone, Copy)]
enum Part<'a> {
    First,
    AfterEnd,
    Card,
    AfterSchedule,
    Source(InputLine<'a>),
    Statement(InputLine<'a>),
}

/// The line of this number, as far as it is shown; nothing where there is none.
pub fn line_help(alloc: Global, input: &[u8], number: u32) -> Result<HelpText, AllocError>
    ensures shown { IfOk result (λ help. help ≡ shown_line (line_of (lines_of input.now) number)) }
    ensures short { IfOk result (λ help. length help ≤ MOST_SHOWN + 1) }
{
    let mut help = HelpText::new(alloc);
    match line_at(input, number) {
        Some(line) => {
            help.push_cut(line.text)?;
            help.end_line()?;
            Ok(help)
        }
        None => Ok(help),
    }
}

/// What is known to be wrong with the line of this number, if it is the first at fault.
pub fn script_help(alloc: Global, input: &[u8], number: u32) -> Result<HelpText, AllocError> {
    let mut help = HelpText::new(alloc);
    let Some(line) = line_at(input, number) else {
        help.push_hint(&end_hint(input))?;
        return Ok(help);
    };
    if let Some(part) = part_of(input, line) {
        push_part(alloc, &mut help, input, line, part)?;
    }
    Ok(help)
}

/// What is wrong with an input whose last line isn't //END.
fn end_hint(input: &[u8]) -> Hint<'_> {
    if trimmed(last_line(input)) == b"//END".as_slice() {
        Hint::Plain(b"a card begins in the first column: //END")
    } else {
        Hint::Plain(b"//END is missing: it is the last line of an input")
    }
}

fn last_line(input: &[u8]) -> &[u8] {
    let mut last = input;
    let mut rest = input;
    while let Some((line, after)) = split_line(rest) {
        last = line;
        rest = after;
    }
    last
}

fn part_of<'a>(input: &'a [u8], line: InputLine<'a>) -> Option<Part<'a>> {
    let Some(card) = card_before(input, line.number) else {
        return Some(if is_card(line.text) {
            Part::Card
        } else {
            Part::First
        });
    };
    let (word, _) = first_word(card.text);
    if word == b"//END".as_slice() {
        Some(Part::AfterEnd)
    } else if is_card(line.text) {
        Some(Part::Card)
    } else if word == b"//SCHED".as_slice() {
        Some(Part::AfterSchedule)
    } else if word == b"//DDS".as_slice() {
        Some(Part::Source(card))
    } else if word == b"//JOB".as_slice() {
        Some(Part::Statement(card))
    } else {
        None
    }
}

fn push_part(
    alloc: Global,
    help: &mut HelpText,
    input: &[u8],
    line: InputLine<'_>,
    part: Part<'_>,
) -> Result<(), AllocError> {
    match part {
        Part::First => help.push_hint(&first_line_hint(line.text)),
        Part::AfterEnd => help.push_hint(&Hint::Plain(
            b"//END is the last line: nothing is after it, not even an empty line",
        )),
        Part::AfterSchedule => help.push_hint(&Hint::Plain(b"the line after //SCHED is a card")),
        Part::Card => push_card(help, input, line),
        Part::Source(card) => push_source(alloc, help, card, line),
        Part::Statement(card) => push_statement(alloc, help, card, line),
    }
}

/// What is wrong with any line of cards or statements.
fn line_hint(line: &[u8]) -> Option<Hint<'_>> {
    if line.ends_with(b"\r") {
        Some(Hint::Plain(
            b"the line ends with a carriage return (\\x0D), and a line feed alone ends a line",
        ))
    } else {
        character_hint(line)
    }
}

fn push_card(help: &mut HelpText, input: &[u8], line: InputLine<'_>) -> Result<(), AllocError> {
    if let Some(hint) = line_hint(line.text) {
        return help.push_hint(&hint);
    }
    match card_hint(input, line) {
        Some(hint) => help.push_hint(&hint),
        None => Ok(()),
    }
}

/// The columns under a line of a source, and what is wrong with it.
fn push_source(
    alloc: Global,
    help: &mut HelpText,
    card: InputLine<'_>,
    line: InputLine<'_>,
) -> Result<(), AllocError> {
    let Some(fault) = fault_in(alloc, card, line.number)? else {
        return Ok(());
    };
    help.push(RULER)?;
    help.end_line()?;
    match column_hint(fault) {
        Some(hint) => help.push_hint(&hint),
        None => Ok(()),
    }
}

fn push_statement(
    alloc: Global,
    help: &mut HelpText,
    card: InputLine<'_>,
    line: InputLine<'_>,
) -> Result<(), AllocError> {
    if let Some(hint) = line_hint(line.text) {
        return help.push_hint(&hint);
    }
    let statement = joined(alloc, line)?;
    let job = JobLines {
        lines: card.after,
        least_after: line.after.len().saturating_add(1),
    };
    if !statement.is_whole {
        return help.push_hint(&Hint::Plain(
            b"a line that ends with + goes on with the next one, and there is none",
        ));
    }
    if character_hint(statement.text.as_slice()).is_some() {
        return help.push_hint(&Hint::Plain(
            b"a line that this one goes on with has a byte that is none of the 95 printable characters",
        ));
    }
    match statement_hint(statement.text.as_slice(), job) {
        Some(hint) => help.push_hint(&hint),
        None => Ok(()),
    }
}
