//! What is known of a mistake, and how it is said.
use crate::commands::Parameter;
use crate::help_text::HelpText;
use std::alloc::AllocError;

/// A sentence on a line, with a word or a number of that line in it.
#[derive(Clone, Copy)]
pub(crate) enum Hint<'a> {
    Plain(&'static [u8]),
    /// A word of the line between two parts of the sentence.
    Word(&'static [u8], &'a [u8], &'static [u8]),
    Number(&'static [u8], u32, &'static [u8]),
    /// A parameter that the command doesn't have.
    NoParameter {
        command: &'static [u8],
        word: &'a [u8],
        parameters: &'static [Parameter],
    },
    /// Bytes that are no character of a statement, at a column from 1.
    Character {
        column: u32,
        bytes: &'a [u8],
        meaning: &'static [u8],
    },
}

impl HelpText {
    /// Adds a hint as a line of its own.
    pub(crate) fn push_hint(&mut self, hint: &Hint<'_>) -> Result<(), AllocError> {
        self.push(b"hint: ")?;
        match hint {
            Hint::Plain(text) => self.push(text)?,
            Hint::Word(before, word, after) => {
                self.push(before)?;
                self.push_cut(word)?;
                self.push(after)?;
            }
            Hint::Number(before, number, after) => {
                self.push(before)?;
                self.push_number(*number)?;
                self.push(after)?;
            }
            Hint::NoParameter {
                command,
                word,
                parameters,
            } => self.push_no_parameter(command, word, parameters)?,
            Hint::Character {
                column,
                bytes,
                meaning,
            } => self.push_character(*column, bytes, meaning)?,
        }
        self.end_line()
    }

    fn push_no_parameter(
        &mut self,
        command: &[u8],
        word: &[u8],
        parameters: &[Parameter],
    ) -> Result<(), AllocError> {
        self.push(command)?;
        self.push(b" has no parameter ")?;
        self.push_cut(word)?;
        if parameters.is_empty() {
            return self.push(b"; it has none");
        }
        self.push(b"; it has")?;
        for parameter in parameters {
            self.push(b" ")?;
            self.push(parameter.name)?;
        }
        Ok(())
    }

    fn push_character(
        &mut self,
        column: u32,
        bytes: &[u8],
        meaning: &[u8],
    ) -> Result<(), AllocError> {
        self.push(b"column ")?;
        self.push_number(column)?;
        self.push(b" has ")?;
        self.push_cut(bytes)?;
        self.push(b", ")?;
        self.push(meaning)
    }
}
