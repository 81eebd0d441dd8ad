//! Files that a run made, opened for changes and never journaled: what their members have ends with the run.
use crate::ended_jobs::call_line;
use crate::help_text::HelpText;
use crate::hint::Hint;
use crate::words::cut_at;
use std::alloc::{AllocError, Global};
use text_lines::lines::split_line;

/// How many of the files that a run made are looked for.
const MOST_FILES: u32 = 8;

/// Which files of a run aren't journaled, as its listing tells.
pub fn unjournaled_help(alloc: Global, listing: &[u8]) -> Result<HelpText, AllocError> {
    let mut help = HelpText::new(alloc);
    let mut left = MOST_FILES;
    let mut rest = listing;
    while let Some((line, after)) = split_line(rest) {
        if let Some(file) = file_of(line, b"CRTPF FILE(") {
            if left == 0 {
                return Ok(help);
            }
            left = left.saturating_sub(1);
            if is_lost(after, file) {
                help.push_hint(&Hint::Word(
                    b"file ",
                    file,
                    b" isn't journaled: its records end with the run; STRJRNPF before the first of them keeps them",
                ))?;
            }
        }
        rest = after;
    }
    Ok(help)
}

/// Whether the calls open a file for changes, and neither journal nor delete it.
fn is_lost(calls: &[u8], file: &[u8]) -> bool {
    is_changed(calls, file)
        && !is_done(calls, b"STRJRNPF FILE(", file)
        && !is_done(calls, b"DLTF FILE(", file)
}

/// Whether a command names the file and was done.
fn is_done(calls: &[u8], command: &[u8], file: &[u8]) -> bool {
    let mut rest = calls;
    while let Some((line, after)) = split_line(rest) {
        if file_of(line, command) == Some(file) {
            return true;
        }
        rest = after;
    }
    false
}

/// Whether the file is opened otherwise than for input.
fn is_changed(calls: &[u8], file: &[u8]) -> bool {
    let mut rest = calls;
    while let Some((line, after)) = split_line(rest) {
        if file_of(line, b"OPNDBF FILE(") == Some(file) && !is_for_input(line) {
            return true;
        }
        rest = after;
    }
    false
}

fn is_for_input(line: &[u8]) -> bool {
    let (_, rest) = cut_at(call_line(line).answered, b')');
    rest.starts_with(b" OPTION(*INP)")
}

/// The file that a call names which begins so and was done.
fn file_of<'a>(line: &'a [u8], beginning: &[u8]) -> Option<&'a [u8]> {
    let answered = call_line(line).answered;
    let rest = answered.strip_prefix(beginning)?;
    if !answered.ends_with(b" => OK") {
        return None;
    }
    let (file, _) = cut_at(rest, b')');
    Some(file)
}
