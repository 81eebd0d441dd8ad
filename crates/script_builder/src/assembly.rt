//! The script, from the statements, which are used up, and their ways: from the last to the first, so that a request finds its MONMSG.
ghost use Rattle.std.specs.Prelude.{◌≡◌, ◌≤◌, length, reverse, OnOk, IfOk, option_map};
ghost use Rattle.script_builder.specs.Ways.{label_place};
ghost use Rattle.script_builder.specs.Scripts.{added, literals_of, statements_of};
ghost use Rattle.script_builder.specs.Parts.{no_part, part_of, part_with};

use crate::name_table::NameTable;
use crate::ways::Way;
use field_types::names::Name;
use field_types::values::Value;
use job_language::refusals::Monitor;
use job_language::statements::{Action, RequestStatement, Script, Statement, Statements};
use library_model::value_lists::Values;
use statement_syntax::{Phrase, Written};
use std::alloc::{AllocError, Global};

/// What a statement adds to the script: a variable's literal, a statement, or the MONMSG of the request before it.
#[derive(Drop)]
pub struct Part {
    pub literal: Option<Value>,
    pub statement: Option<Statement>,
    pub monitor: Option<Monitor>,
}

fn label_place(label: Option<Name>, labels: &NameTable) -> Option<usize>
    ensures { result ≡ option_map (label_place labels.now) label }
{
    match label {
        None => None,
        Some(label) => Some(labels.number(&label).unwrap_or(0)),
    }
}

fn part_with(line: u32, next: usize, action: Action) -> Part
    ensures { result ≡ part_with line next action }
{
    Part {
        literal: None,
        statement: Some(Statement { line, action, next }),
        monitor: None,
    }
}

fn no_part() -> Part
    ensures { result ≡ no_part }
{
    Part {
        literal: None,
        statement: None,
        monitor: None,
    }
}

fn part_of(written: Written, way: Way, monitor: Option<Monitor>, labels: &NameTable) -> Part
    ensures { result ≡ part_of written way monitor labels.now }
{
    let Written {
        line,
        label: _,
        phrase,
    } = written;
    let Way { next, otherwise } = way;
    match phrase {
        Phrase::Declare { variable: _, value } => Part {
            literal: Some(value),
            statement: None,
            monitor: None,
        },
        Phrase::ChangeVariable { variable, value } => {
            part_with(line, next, Action::ChangeVariable { variable, value })
        }
        Phrase::IfGoto {
            condition,
            label: _,
        } => part_with(
            line,
            next,
            Action::If {
                condition,
                otherwise,
            },
        ),
        Phrase::IfDo(condition) => part_with(
            line,
            next,
            Action::If {
                condition,
                otherwise,
            },
        ),
        Phrase::Else => part_with(line, next, Action::Else),
        Phrase::DoWhile(condition) => part_with(
            line,
            next,
            Action::DoWhile {
                condition,
                otherwise,
            },
        ),
        Phrase::EndDo => no_part(),
        Phrase::Goto(_) => part_with(line, next, Action::Goto),
        Phrase::Monitor { takes, label } => Part {
            literal: None,
            statement: None,
            monitor: Some(Monitor {
                takes,
                target: label_place(label, labels),
            }),
        },
        Phrase::Return => part_with(line, next, Action::Return),
        Phrase::Request { form, into } => part_with(
            line,
            next,
            Action::Request(RequestStatement {
                form,
                monitor,
                into,
            }),
        ),
    }
}

fn push_value(values: &mut Vec<Value>, value: Option<Value>) -> Result<(), AllocError>
    ensures { OnOk result (reverse values.new.items ≡ added value (reverse values.old.items)) }
{
    if let Some(value) = value {
        values.push(value)?;
    }
    Ok(())
}

fn push_statement(
    statements: &mut Vec<Statement>,
    statement: Option<Statement>,
) -> Result<(), AllocError>
    ensures { OnOk result (reverse statements.new.items ≡ added statement (reverse statements.old.items)) }
{
    if let Some(statement) = statement {
        statements.push(statement)?;
    }
    Ok(())
}

/// The script of these statements.
pub(crate) fn assembled(
    alloc: Global,
    mut statements: Vec<Written>,
    ways: &[Way],
    labels: &NameTable,
) -> Result<Script, AllocError>
    requires { length statements.items ≤ length ways.now }
    ensures literals { IfOk result (λ script. script.variables ≡ literals_of statements.items) }
    ensures statements { IfOk result (λ script. script.statements ≡ statements_of statements.items ways.now labels.now) }
{
    let mut literals = Vec::new(alloc);
    let mut made = Vec::new(alloc);
    let mut monitor = None;
    while let Some(written) = statements.pop() {
        let part = part_of(written, ways[statements.len()], monitor, labels);
        push_value(&mut literals, part.literal)?;
        push_statement(&mut made, part.statement)?;
        monitor = part.monitor;
    }
    literals.reverse();
    made.reverse();
    Ok(Script {
        variables: Values::from_vec(literals),
        statements: Statements::from_vec(made),
    })
}
