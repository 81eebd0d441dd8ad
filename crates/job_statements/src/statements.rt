//! Statements read one after another: the variables declared so far, and the first line that is no statement.
ghost use Rattle.std.specs.Prelude.{◌≡◌, ◌≤◌, ℕ, Bool, not, None, List, [], ◌∷◌, length, IfOk, OnOk};
ghost use Rattle.script_builder.specs.Least.{least, lesser};
ghost use Rattle.script_builder.specs.Faults.{noted};
ghost use Rattle.script_builder.specs.Phrases.{variable_of};
ghost use Rattle.statement_reader.specs.Statements.{label_length};
ghost use Rattle.job_statements.specs.Texts.{StatementText, text_at};
ghost use Rattle.job_statements.specs.Reading.{said_in, declared_after, is_runnable, is_read, label_of, written_as, statements_ahead, unread_ahead};

use crate::askable::is_runnable;
use crate::texts::unindented;
use field_types::names::Name;
use statement_reader::reading::{Said, read_statement};
use statement_reader::variables::Variables;
use statement_syntax::{Phrase, Written};
use std::alloc::{AllocError, Global};
use text_lines::lines::is_blank;

/// The less of two lines.
pub(crate) fn lesser(first: Option<u32>, second: Option<u32>) -> Option<u32>
    ensures { result ≡ lesser first second }
{
    match (first, second) {
        (None, second) => second,
        (Some(first), None) => Some(first),
        (Some(first), Some(second)) => Some(first.min(second)),
    }
}

/// The less of a line and another, where that one is at fault.
fn noting(first: Option<u32>, at_fault: bool, line: u32) -> Option<u32>
    ensures { result ≡ lesser first (least (noted at_fault line [])) }
{
    if at_fault {
        lesser(first, Some(line))
    } else {
        first
    }
}

/// How many characters stand before the first blank or colon.
#[tactic(auto, using(crate::proofs::TextLemmas::counted))]
fn label_length(text: &[u8]) -> usize
    ensures label { result ≡ label_length text.now }
    ensures within { result ≤ length text.now }
{
    text.iter()
        .take_while(|&&character| !is_blank(character) && character != b':')
        .count()
}

/// The label before a text that may say nothing.
fn label_of(text: &[u8]) -> Option<Name>
    ensures { result ≡ label_of text.now }
{
    let body = unindented(text);
    let length = label_length(body);
    if length < body.len() && body[length] == b':' {
        Name::from_bytes(&body[..length])
    } else {
        None
    }
}

/// What a text says with these variables declared; `None` where it isn't whole, or is no statement.
fn said_in(
    alloc: Global,
    variables: &Variables,
    text: &[u8],
    whole: bool,
) -> Result<Option<Said>, AllocError>
    ensures { IfOk result (λ said. said ≡ said_in variables.now whole text.now) }
{
    if whole {
        read_statement(alloc, variables, text)
    } else {
        Ok(None)
    }
}

fn is_read(said: &Option<Said>) -> bool
    ensures { result ≡ is_read said.now }
{
    match said {
        None => false,
        Some(said) => is_runnable(&said.phrase),
    }
}

/// The variable that a DCL declares.
fn declared(phrase: &Phrase) -> Option<Name>
    ensures { result ≡ variable_of phrase.now }
{
    match phrase {
        Phrase::Declare { variable, .. } => Some(*variable),
        Phrase::ChangeVariable { .. }
        | Phrase::IfGoto { .. }
        | Phrase::IfDo(_)
        | Phrase::Else
        | Phrase::DoWhile(_)
        | Phrase::EndDo
        | Phrase::Goto(_)
        | Phrase::Monitor { .. }
        | Phrase::Return
        | Phrase::Request { .. } => None,
    }
}

/// The variables with that of a DCL, unless it is declared already.
fn declare(variables: &mut Variables, said: &Option<Said>) -> Result<(), AllocError>
    ensures { OnOk result (variables.new ≡ declared_after variables.old said.now) }
{
    let Some(said) = said else {
        return Ok(());
    };
    let Some(name) = declared(&said.phrase) else {
        return Ok(());
    };
    if variables.number(&name).is_some() {
        return Ok(());
    }
    variables.push(name)
}

/// The statement; one that says nothing keeps its label, and does nothing else.
fn written(line: u32, text: &[u8], said: Option<Said>) -> Written
    ensures { result ≡ written_as line text.now said }
{
    match said {
        Some(said) => Written {
            line,
            label: said.label,
            phrase: said.phrase,
        },
        None => Written {
            line,
            label: label_of(text),
            phrase: Phrase::Return,
        },
    }
}

/// The statements that were read so far.
#[derive(Drop)]
pub(crate) struct StatementsRead {
    pub(crate) variables: Variables,
    pub(crate) written: Vec<Written>,
    /// The first line that is no statement, or whose request the library doesn't answer yet.
    pub(crate) unread: Option<u32>,
}

impl StatementsRead {
    pub(crate) fn new(alloc: Global) -> StatementsRead
        ensures variables { result.variables ≡ [] }
        ensures written { result.written.items ≡ [] }
        ensures unread { result.unread ≡ None }
    {
        StatementsRead {
            variables: Variables::new(alloc),
            written: Vec::new(alloc),
            unread: None,
        }
    }

    /// One statement more, of which the text begins on this line.
    pub(crate) fn read(
        &mut self,
        alloc: Global,
        line: u32,
        text: &[u8],
        whole: bool,
    ) -> Result<(), AllocError>
        ensures statements { OnOk result ((texts : List StatementText) →
            statements_ahead self.new.written.items self.new.variables texts ≡ statements_ahead self.old.written.items self.old.variables (text_at line text.now whole ∷ texts)) }
        ensures unread { OnOk result ((texts : List StatementText) →
            unread_ahead self.new.unread self.new.variables texts ≡ unread_ahead self.old.unread self.old.variables (text_at line text.now whole ∷ texts)) }
    {
        let said = said_in(alloc, &self.variables, text, whole)?;
        self.unread = noting(self.unread, !is_read(&said), line);
        declare(&mut self.variables, &said)?;
        self.written.push(written(line, text, said))?;
        Ok(())
    }
}
