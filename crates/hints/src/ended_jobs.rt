//! Jobs that ended otherwise than by the end of their script, as a listing tells of them.
use crate::dds_faults::push_fault_line;
use crate::help_text::HelpText;
use crate::hint::Hint;
use crate::lines::line_at;
use crate::words::{cut_at, unindented};
use std::alloc::{AllocError, Global};
use text_lines::decimals::decimal;
use text_lines::lines::split_line;

/// The line of a call in a listing: its job, and its request with the reply.
#[derive(Clone, Copy)]
pub(crate) struct CallLine<'a> {
    job: &'a [u8],
    pub(crate) answered: &'a [u8],
}

/// How a job ended early.
#[derive(Clone, Copy)]
struct EarlyEnd<'a> {
    job: &'a [u8],
    reason: &'a [u8],
    /// 0 where no line is to blame.
    line: u32,
}

/// Which jobs of a run ended early, where, and at which request and reply. The input is that of the run.
pub fn jobs_help(alloc: Global, input: &[u8], listing: &[u8]) -> Result<HelpText, AllocError> {
    let mut help = HelpText::new(alloc);
    let mut rest = listing;
    while let Some((line, after)) = split_line(rest) {
        if let Some(end) = early_end(call_line(line)) {
            push_end(&mut help, end)?;
            let before = &listing[..listing.len().saturating_sub(rest.len())];
            push_cause(alloc, &mut help, input, before, end)?;
        }
        rest = after;
    }
    Ok(help)
}

/// The parts of a line: number, job, timestamp, and the rest.
pub(crate) fn call_line(line: &[u8]) -> CallLine<'_> {
    let (_, rest) = cut_at(line, b' ');
    let (job, rest) = cut_at(rest, b' ');
    let (_, answered) = cut_at(rest, b' ');
    CallLine { job, answered }
}

fn early_end(call: CallLine<'_>) -> Option<EarlyEnd<'_>> {
    let Some(rest) = call.answered.strip_prefix(b"ENDJOB REASON(") else {
        return None;
    };
    let (reason, rest) = cut_at(rest, b')');
    let Some(rest) = rest.strip_prefix(b" LINE(") else {
        return None;
    };
    let (digits, _) = cut_at(rest, b')');
    if reason == b"*NORMAL".as_slice() {
        return None;
    }
    Some(EarlyEnd {
        job: call.job,
        reason,
        line: decimal(digits, u32::MAX).unwrap_or(0),
    })
}

fn push_end(help: &mut HelpText, end: EarlyEnd<'_>) -> Result<(), AllocError> {
    help.push(b"job ")?;
    help.push_cut(end.job)?;
    help.push(b" ended with ")?;
    help.push_cut(end.reason)?;
    if end.line > 0 {
        help.push(b" at line ")?;
        help.push_number(end.line)?;
    }
    help.end_line()
}

/// What a job ended by: after a refusal its last request and the reply, with the line of a source at fault, else the line that is to blame, or its reason alone.
fn push_cause(
    alloc: Global,
    help: &mut HelpText,
    input: &[u8],
    before: &[u8],
    end: EarlyEnd<'_>,
) -> Result<(), AllocError> {
    if end.reason == b"*ESCAPE".as_slice() {
        return push_last_call(alloc, help, input, before, end.job);
    }
    if let Some(hint) = reason_hint(end.reason) {
        help.push_hint(&hint)?;
    }
    if end.line == 0 {
        return Ok(());
    }
    push_input_line(help, input, end.line)
}

fn reason_hint(reason: &[u8]) -> Option<Hint<'_>> {
    if reason == b"*EXPR".as_slice() {
        Some(Hint::Plain(
            b"an expression has no value, or TO has more variables than the record fields",
        ))
    } else if reason == b"*STMT".as_slice() {
        Some(Hint::Plain(b"100,000 statements were run, as a rule by a loop that doesn't end"))
    } else if reason == b"*HISTORY".as_slice() {
        Some(Hint::Plain(b"the run has as many calls as it may have: split it"))
    } else {
        None
    }
}

fn push_input_line(help: &mut HelpText, input: &[u8], number: u32) -> Result<(), AllocError> {
    let Some(line) = line_at(input, number) else {
        return Ok(());
    };
    help.push(b"line: ")?;
    help.push_cut(unindented(line.text))?;
    help.end_line()
}

/// The last call of a job in the front of a listing.
fn push_last_call(
    alloc: Global,
    help: &mut HelpText,
    input: &[u8],
    before: &[u8],
    job: &[u8],
) -> Result<(), AllocError> {
    let Some(call) = last_call(before, job) else {
        return Ok(());
    };
    let (request, reply) = request_and_reply(call.answered);
    help.push(b"request: ")?;
    help.push_cut(request)?;
    help.end_line()?;
    help.push(b"reply: ")?;
    help.push_cut(reply)?;
    help.end_line()?;
    push_fault_line(alloc, help, input, request, reply)
}

fn last_call<'a>(before: &'a [u8], job: &[u8]) -> Option<CallLine<'a>> {
    let mut last = None;
    let mut rest = before;
    while let Some((line, after)) = split_line(rest) {
        let call = call_line(line);
        if call.job == job {
            last = Some(call);
        }
        rest = after;
    }
    last
}

/// What stands before the last arrow, and after it.
fn request_and_reply(answered: &[u8]) -> (&[u8], &[u8]) {
    let mut last = answered.len();
    for i in 0..answered.len() {
        if answered[i..].starts_with(b" => ") {
            last = i;
        }
    }
    let (request, rest) = answered.split_at(last);
    (request, rest.strip_prefix(b" => ").unwrap_or(rest))
}
