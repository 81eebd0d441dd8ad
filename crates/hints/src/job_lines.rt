//! What stands elsewhere in the job of a statement: declarations, labels, blocks.
use crate::lines::next_statement;
use crate::parameters::given;
use crate::words::{cut_at, next_word, unindented};

/// The lines of a job, and how far they go before a statement.
#[derive(Clone, Copy)]
pub(crate) struct JobLines<'a> {
    /// All lines after the job's card.
    pub(crate) lines: &'a [u8],
    /// The least number of bytes after a statement that is before that one.
    pub(crate) least_after: usize,
}

impl<'a> JobLines<'a> {
    /// Whether a statement is before that one, by what is after its last line.
    fn is_before(self, after: &[u8]) -> bool {
        after.len() >= self.least_after
    }

    /// The command of the statement right before that one.
    pub(crate) fn command_before(self) -> Option<&'a [u8]> {
        let mut last = None;
        let mut rest = self.lines;
        while let Some((statement, after)) = next_statement(rest) {
            if !self.is_before(after) {
                return last;
            }
            last = command_of(statement);
            rest = after;
        }
        last
    }

    /// Whether each statement before that one is a DCL.
    pub(crate) fn has_declarations_alone(self) -> bool {
        let mut rest = self.lines;
        while let Some((statement, after)) = next_statement(rest) {
            if !self.is_before(after) {
                return true;
            }
            if !is_command(statement, b"DCL") {
                return false;
            }
            rest = after;
        }
        true
    }

    /// Whether a variable, with its &, is declared before that statement.
    pub(crate) fn declares(self, variable: &[u8]) -> bool {
        let mut rest = self.lines;
        while let Some((statement, after)) = next_statement(rest) {
            if self.is_before(after)
                && is_command(statement, b"DCL")
                && declared(statement) == Some(variable)
            {
                return true;
            }
            rest = after;
        }
        false
    }

    /// Whether a statement of the job has this label.
    pub(crate) fn has_label(self, label: &[u8]) -> bool {
        let mut rest = self.lines;
        while let Some((statement, after)) = next_statement(rest) {
            if label_and_body(statement).0 == Some(label) {
                return true;
            }
            rest = after;
        }
        false
    }

    /// How many blocks are open before that statement.
    pub(crate) fn open_blocks(self) -> u64 {
        let mut open = 0u64;
        let mut rest = self.lines;
        while let Some((statement, after)) = next_statement(rest) {
            if !self.is_before(after) {
                return open;
            }
            if is_command(statement, b"ENDDO") {
                open = open.saturating_sub(1);
            } else if opens_block(statement) {
                open = open.saturating_add(1);
            }
            rest = after;
        }
        open
    }
}

/// The label of a statement, and what is after its colon; no label where there is none.
pub(crate) fn label_and_body(statement: &[u8]) -> (Option<&[u8]>, &[u8]) {
    let text = unindented(statement);
    let (label, body) = cut_at(text, b':');
    if label.len() < text.len() && !label.iter().any(|&byte| matches!(byte, b' ' | b'\t')) {
        (Some(label), body)
    } else {
        (None, text)
    }
}

fn command_of(statement: &[u8]) -> Option<&[u8]> {
    match next_word(label_and_body(statement).1) {
        Some((command, _)) => Some(command),
        None => None,
    }
}

fn is_command(statement: &[u8], command: &[u8]) -> bool {
    command_of(statement) == Some(command)
}

/// The variable of a DCL.
fn declared(statement: &[u8]) -> Option<&[u8]> {
    match next_word(label_and_body(statement).1) {
        Some((_, parameters)) => given(parameters, b"VAR"),
        None => None,
    }
}

fn opens_block(statement: &[u8]) -> bool {
    match next_word(label_and_body(statement).1) {
        Some((command, parameters)) => {
            command == b"DOWHILE".as_slice()
                || given(parameters, b"THEN") == Some(b"DO".as_slice())
                || given(parameters, b"CMD") == Some(b"DO".as_slice())
        }
        None => false,
    }
}
