//! The statements of a job as they are written, one by one: no block and no label is resolved. Variables have the numbers of
//! their DCL.
#![tactic(auto)]

ghost use Rattle.std.specs.Prelude.{◌≡◌};

use field_types::names::Name;
use field_types::values::Value;
use job_language::forms::RequestForm;
use job_language::operands::{Condition, Expression, Targets};
use job_language::refusals::Monitored;
use std::marker::Model;

/// What a statement says.
#[derive(Drop)]
pub enum Phrase {
    /// DCL VAR(&v) VALUE(x)
    Declare {
        variable: Name,
        value: Value,
    },
    /// CHGVAR VAR(&v) VALUE(e)
    ChangeVariable {
        variable: usize,
        value: Expression,
    },
    /// IF COND(c) THEN(GOTO CMDLBL(l))
    IfGoto {
        condition: Condition,
        label: Name,
    },
    /// IF COND(c) THEN(DO)
    IfDo(Condition),
    /// ELSE CMD(DO)
    Else,
    /// DOWHILE COND(c)
    DoWhile(Condition),
    /// ENDDO
    EndDo,
    /// GOTO CMDLBL(l)
    Goto(Name),
    /// MONMSG MSGID(names), with the label of its EXEC(GOTO CMDLBL(l))
    Monitor {
        takes: Monitored,
        label: Option<Name>,
    },
    /// RETURN
    Return,
    /// A request, and the variables of its TO.
    Request {
        form: RequestForm,
        into: Targets,
    },
}

/// A statement of a job.
#[derive(Drop)]
pub struct Written {
    /// The line of the input that it begins on, from 1.
    pub line: u32,
    /// The label before it.
    pub label: Option<Name>,
    pub phrase: Phrase,
}

/// Statements in the order of their lines.
#[derive(Drop)]
pub struct WrittenStatements {
    statements: Vec<Written>,
}

impl Model for WrittenStatements {
    ghost use Rattle.std.specs.Prelude.{List};
    ghost use Rattle.statement_syntax.specs.declared.Written.{Written};

    ghost Value = { List Written };

    ghost view = { λ w. w.statements.items };
}

impl WrittenStatements {
    /// These statements.
    pub fn from_vec(statements: Vec<Written>) -> WrittenStatements
        ensures { result ≡ statements.items }
    {
        WrittenStatements { statements }
    }

    /// The statements in order.
    pub fn as_slice(&self) -> &[Written]
        ensures { result.now ≡ self.now }
    {
        self.statements.as_slice()
    }

    /// The statements in order, to be taken apart.
    pub fn into_vec(self) -> Vec<Written>
        ensures { result.items ≡ self }
    {
        self.statements
    }
}
