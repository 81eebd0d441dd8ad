//! The texts of statements: which lines are skipped, which go on with the next, and the text of one that does.
ghost use Rattle.std.specs.Prelude.{◌≡◌, true, false, None, Some, MatchOption, OnOk};
ghost use Rattle.std.specs.Option.{is_some};
ghost use Rattle.std.specs.List.{prefix_len};
ghost use Rattle.statement_reader.specs.Words.{unindented};
ghost use Rattle.job_statements.specs.Texts.{is_remark, is_skipped, skips, end_blanks, goes_on, before_sign, begun_at, begun_with};

use std::alloc::{AllocError, Global};
use std::marker::Model;
use text_lines::lines::{are_blanks, blanks_before, is_blank};

/// What stands behind the blanks at the front of a text.
pub(crate) fn unindented(text: &[u8]) -> &[u8]
    ensures { result.now ≡ unindented text.now }
{
    &text[blanks_before(text)..]
}

fn is_remark(line: &[u8]) -> bool
    ensures { result ≡ is_remark line.now }
{
    match line {
        [first, second, ..] => *first == b'/' && *second == b'*',
        _ => false,
    }
}

fn is_skipped(line: &[u8]) -> bool
    ensures { result ≡ is_skipped line.now }
{
    are_blanks(line) || is_remark(line)
}

/// How many blanks stand at the end of a line.
fn end_blanks(line: &[u8]) -> usize
    ensures { result ≡ end_blanks line.now }
{
    line.iter()
        .rev()
        .take_while(|&&character| is_blank(character))
        .count()
}

/// What stands before the sign by which a line goes on with the next.
pub(crate) fn before_sign(line: &[u8]) -> Option<&[u8]>
    ensures { MatchOption result (goes_on line.now ≡ false) (λ piece. (goes_on line.now ≡ true) × (piece.now ≡ before_sign line.now)) }
{
    let blanks = end_blanks(line);
    if blanks < line.len() && line[line.len() - 1 - blanks] == b'+' {
        Some(&line[..line.len() - 1 - blanks])
    } else {
        None
    }
}

/// The text so far of a statement that goes on with the next line. All such texts are put together in one buffer.
#[derive(Drop)]
pub(crate) struct Continued {
    line: Option<u32>,
    text: Vec<u8>,
}

impl Model for Continued {
    ghost use Rattle.std.specs.Prelude.{Option, option_map};
    ghost use Rattle.job_statements.specs.Texts.{Begun, begun_at};

    ghost Value = { Option Begun };

    ghost view = { λ c. option_map (begun_at c.text.items) c.line };
}

impl Continued {
    /// No statement goes on.
    pub(crate) fn new(alloc: Global) -> Continued
        ensures { result ≡ None }
    {
        Continued {
            line: None,
            text: Vec::new(alloc),
        }
    }

    /// Whether the line is no part of a statement.
    pub(crate) fn skips(&self, line: &[u8]) -> bool
        ensures { result ≡ skips self.now line.now }
    {
        self.line.is_none() && is_skipped(line)
    }

    /// The statement that goes on.
    pub(crate) fn begun(&self) -> Option<(u32, &[u8])>
        ensures { MatchOption result (self.now ≡ None) (λ begun. self.now ≡ Some (begun_at begun.1.now begun.0)) }
    {
        match self.line {
            None => None,
            Some(line) => Some((line, self.text.as_slice())),
        }
    }

    /// The text of a line more.
    pub(crate) fn add(&mut self, number: u32, piece: &[u8]) -> Result<(), AllocError>
        ensures { OnOk result (self.new ≡ Some (begun_with self.old number piece.now)) }
    {
        match self.line {
            None => {
                self.text.clear();
                self.text.extend_from_slice(piece)?;
                self.line = Some(number);
                Ok(())
            }
            Some(_) => {
                self.text.extend_from_slice(unindented(piece))?;
                Ok(())
            }
        }
    }

    /// No statement goes on any more.
    pub(crate) fn end(&mut self)
        ensures { self.new ≡ None }
    {
        self.line = None;
    }
}
