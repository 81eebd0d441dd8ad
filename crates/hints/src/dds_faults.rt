//! The line of the input that a reply DdsFault blames.
use crate::cards::same_card;
use crate::columns::{RULER, column_hint, fault_in};
use crate::help_text::HelpText;
use crate::lines::line_at;
use crate::words::cut_at;
use std::alloc::{AllocError, Global};
use text_lines::decimals::decimal;

/// Adds the line of the input where the source of a request is at fault, with the columns under it and what is wrong there.
pub(crate) fn push_fault_line(
    alloc: Global,
    help: &mut HelpText,
    input: &[u8],
    request: &[u8],
    reply: &[u8],
) -> Result<(), AllocError> {
    let Some(number) = fault_line(reply) else {
        return Ok(());
    };
    let Some(card) = same_card(input, u32::MAX, b"//DDS", source_of(request)) else {
        return Ok(());
    };
    let Some(line) = line_at(input, card.saturating_add(number)) else {
        return Ok(());
    };
    help.push(b"line ")?;
    help.push_number(line.number)?;
    help.push(b" of the input:")?;
    help.end_line()?;
    help.push_cut(line.text)?;
    help.end_line()?;
    help.push(RULER)?;
    help.end_line()?;
    push_column_hint(alloc, help, input, card, line.number)
}

/// Adds what stands at the columns where a line isn't in order, if it is the first at fault of its card's source as a text.
fn push_column_hint(
    alloc: Global,
    help: &mut HelpText,
    input: &[u8],
    card: u32,
    number: u32,
) -> Result<(), AllocError> {
    let Some(card) = line_at(input, card) else {
        return Ok(());
    };
    let Some(fault) = fault_in(alloc, card, number)? else {
        return Ok(());
    };
    match column_hint(fault) {
        Some(hint) => help.push_hint(&hint),
        None => Ok(()),
    }
}

/// The line of the source that a reply blames.
fn fault_line(reply: &[u8]) -> Option<u32> {
    let Some(rest) = reply.strip_prefix(b"DdsFault LINE(") else {
        return None;
    };
    let (digits, _) = cut_at(rest, b')');
    decimal(digits, u32::MAX)
}

/// The source that a request names, in its second parameter.
fn source_of(request: &[u8]) -> &[u8] {
    let (_, rest) = cut_at(request, b'(');
    let (_, rest) = cut_at(rest, b'(');
    let (source, _) = cut_at(rest, b')');
    source
}
