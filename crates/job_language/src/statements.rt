//! The statements of a script. Blocks and labels are places: each statement knows where the script goes on, so that a
//! script is a list of the statements that count when they are run. DCL, MONMSG and ENDDO don't count and stand in
//! none of their own.
ghost use Rattle.std.specs.Prelude.{◌≡◌};

use crate::forms::RequestForm;
use crate::operands::{Condition, Expression, Targets};
use crate::refusals::Monitor;
use library_model::value_lists::Values;
use std::marker::Model;

/// A request, the MONMSG after it, and the variables of its TO.
#[derive(Drop)]
pub struct RequestStatement {
    pub form: RequestForm,
    pub monitor: Option<Monitor>,
    pub into: Targets,
}

/// What a statement does.
#[derive(Drop)]
pub enum Action {
    /// CHGVAR
    ChangeVariable {
        variable: usize,
        value: Expression,
    },
    /// IF: goes on at its THEN (the label of a GOTO, or the first statement of the block) where the condition holds,
    /// else at `otherwise`: its ELSE, or what follows the IF.
    If {
        condition: Condition,
        otherwise: usize,
    },
    /// ELSE: its block is entered. Where the condition held, the THEN block goes on after the ELSE block.
    Else,
    /// DOWHILE: goes on at its block where the condition holds, else at `otherwise`, after its ENDDO. The block goes on
    /// at the DOWHILE.
    DoWhile {
        condition: Condition,
        otherwise: usize,
    },
    /// GOTO: goes on at the label.
    Goto,
    /// RETURN
    Return,
    Request(RequestStatement),
}

/// A statement, the line of the input that it begins on, from 1, and the place in the script, from 0, where it goes on
/// unless it says otherwise. The script ends where there is no statement at a place.
#[derive(Drop)]
pub struct Statement {
    pub line: u32,
    pub action: Action,
    pub next: usize,
}

/// Statements by their places.
#[derive(Drop)]
pub struct Statements {
    statements: Vec<Statement>,
}

impl Model for Statements {
    ghost use Rattle.std.specs.Prelude.{List};
    ghost use Rattle.job_language.specs.declared.statements.Statement.{Statement};

    ghost Value = { List Statement };

    ghost view = { λ s. s.statements.items };
}

impl Statements {
    /// These statements.
    pub fn from_vec(statements: Vec<Statement>) -> Statements
        ensures { result ≡ statements.items }
    {
        Statements { statements }
    }

    /// The statements in order.
    pub fn as_slice(&self) -> &[Statement]
        ensures { result.now ≡ self.now }
    {
        self.statements.as_slice()
    }
}

/// The script of a job: the literal of each DCL, in order, and the statements.
#[derive(Drop)]
pub struct Script {
    pub variables: Values,
    pub statements: Statements,
}
