//! The script of a job's lines, or the least line at fault.
ghost use Rattle.std.specs.Prelude.{◌≡◌, ◌<◌, ◌+◌, ◌^◌, ℕ, List, [], ◌∷◌, length, None, Some, IfOk, OnOk, IsErrOf, IsTrue};
ghost use Rattle.script_builder.specs.Least.{least};
ghost use Rattle.script_builder.specs.declared.BuildError.TheVariants as BuildError;
ghost use Rattle.text_lines.specs.Lines.{lines_of};
ghost use Rattle.input_scripts.specs.Askable.{is_askable_script};
ghost use Rattle.job_statements.specs.Texts.{StatementText, texts_from, unfinished, whole_text, begun_with};
ghost use Rattle.job_statements.specs.Reading.{statements_of, unread_from, statements_ahead, unread_ahead, job_faults, job_script, earlier};

use crate::statements::{StatementsRead, lesser};
use crate::texts::{Continued, before_sign};
use job_language::statements::Script;
use script_builder::{BuildError, build};
use statement_syntax::WrittenStatements;
use std::alloc::{AllocError, Global};
use text_lines::lines::split_line;

/// How far a job was read: its statements so far, and the text of one that goes on.
#[derive(Drop)]
struct Reading {
    continued: Continued,
    statements: StatementsRead,
}

impl Reading {
    /// A line that ends its statement.
    fn finish(&mut self, alloc: Global, number: u32, line: &[u8]) -> Result<(), AllocError>
        ensures continued { OnOk result (self.new.continued ≡ None) }
        ensures statements { OnOk result ((texts : List StatementText) →
            statements_ahead self.new.statements.written.items self.new.statements.variables texts
            ≡ statements_ahead self.old.statements.written.items self.old.statements.variables (whole_text (begun_with self.old.continued number line.now) ∷ texts)) }
        ensures unread { OnOk result ((texts : List StatementText) →
            unread_ahead self.new.statements.unread self.new.statements.variables texts
            ≡ unread_ahead self.old.statements.unread self.old.statements.variables (whole_text (begun_with self.old.continued number line.now) ∷ texts)) }
    {
        if self.continued.begun().is_none() {
            return self.statements.read(alloc, number, line, true);
        }
        self.continued.add(number, line)?;
        if let Some((first, text)) = self.continued.begun() {
            self.statements.read(alloc, first, text, true)?;
        }
        self.continued.end();
        Ok(())
    }

    /// One line more.
    fn take_line(&mut self, alloc: Global, number: u32, line: &[u8]) -> Result<(), AllocError>
        ensures statements { OnOk result ((lines : List (List ℕ)) →
            statements_ahead self.new.statements.written.items self.new.statements.variables (texts_from self.new.continued (number + 1) lines)
            ≡ statements_ahead self.old.statements.written.items self.old.statements.variables (texts_from self.old.continued number (line.now ∷ lines))) }
        ensures unread { OnOk result ((lines : List (List ℕ)) →
            unread_ahead self.new.statements.unread self.new.statements.variables (texts_from self.new.continued (number + 1) lines)
            ≡ unread_ahead self.old.statements.unread self.old.statements.variables (texts_from self.old.continued number (line.now ∷ lines))) }
    {
        if self.continued.skips(line) {
            return Ok(());
        }
        match before_sign(line) {
            Some(piece) => self.continued.add(number, piece),
            None => self.finish(alloc, number, line),
        }
    }

    /// The end of the job: a statement that goes on has no next line.
    fn end(self, alloc: Global) -> Result<StatementsRead, AllocError>
        ensures statements { IfOk result (λ read. statements_ahead read.written.items read.variables []
            ≡ statements_ahead self.statements.written.items self.statements.variables (unfinished self.continued)) }
        ensures unread { IfOk result (λ read. unread_ahead read.unread read.variables []
            ≡ unread_ahead self.statements.unread self.statements.variables (unfinished self.continued)) }
    {
        let mut statements = self.statements;
        match self.continued.begun() {
            None => Ok(statements),
            Some((line, text)) => {
                statements.read(alloc, line, text, false)?;
                Ok(statements)
            }
        }
    }
}

/// The statements of a job's lines.
fn read_lines(alloc: Global, text: &[u8], first: u32) -> Result<(StatementsRead, u32), AllocError>
    requires { first + length (lines_of text.now) < 2 ^ 32 }
    ensures statements { IfOk result (λ read. read.0.written.items ≡ statements_of first (lines_of text.now)) }
    ensures unread { IfOk result (λ read. read.0.unread ≡ least (unread_from [] (texts_from None first (lines_of text.now)))) }
    ensures end { IfOk result (λ read. read.1 ≡ first + length (lines_of text.now)) }
{
    let mut reading = Reading {
        continued: Continued::new(alloc),
        statements: StatementsRead::new(alloc),
    };
    let mut rest = text;
    let mut number = first;
    while let Some((line, behind)) = split_line(rest) {
        reading.take_line(alloc, number, line)?;
        number += 1;
        rest = behind;
    }
    Ok((reading.end(alloc)?, number))
}

/// The fault on the lesser line of two, where memory was enough to build.
fn earlier(unread: Option<u32>, error: BuildError) -> BuildError
    ensures { result ≡ earlier unread error }
{
    match error {
        BuildError::NoMemory => BuildError::NoMemory,
        BuildError::Fault { line } => BuildError::Fault {
            line: unread.map_or(line, |other| other.min(line)),
        },
    }
}

/// The script of the lines of a job, of which the first has this number.
pub fn read_script(alloc: Global, text: &[u8], first: u32) -> Result<Script, BuildError>
    requires { first + length (lines_of text.now) < 2 ^ 32 }
    ensures sound { IfOk result (λ _. job_faults first (lines_of text.now) ≡ []) }
    ensures script { IfOk result (λ script. script ≡ job_script first (lines_of text.now)) }
    ensures fault { (line : ℕ) → IsErrOf result (BuildError.Fault line) → least (job_faults first (lines_of text.now)) ≡ Some line }
    ensures askable { IfOk result (λ script. IsTrue (is_askable_script script)) }
{
    let (read, end_line) = read_lines(alloc, text, first)?;
    let unread = read.unread;
    match build(alloc, WrittenStatements::from_vec(read.written), end_line) {
        Ok(script) => match unread {
            None => Ok(script),
            Some(line) => Err(BuildError::Fault { line }),
        },
        Err(error) => Err(earlier(unread, error)),
    }
}
