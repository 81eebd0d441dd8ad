use field_types::names::Name;
use field_types::values::{Dec, Value};
use job_language::forms::RequestForm;
use job_language::operands::{
    Condition, Expression, NumberOperand, Operand, Operator, Relation, Targets,
};
use job_language::progress::Progress;
use job_language::refusals::Monitored;
use job_language::statements::Script;
use library_model::replies::Reply;
use library_model::requests::{EndReason, Request};
use script_builder::{BuildError, build};
use statement_syntax::{Phrase, Written, WrittenStatements};
use std::alloc::Global;
use std::process::Abort;
use std::test::Fail;

/// A statement of a test.
#[derive(Clone, Copy)]
enum Kind {
    /// DCL with this name and 0
    Declare(&'static str),
    /// CHGVAR VAR(&I) VALUE(&I + 1), where &I is the first variable
    Count,
    /// IF COND(0 *EQ n) THEN(DO)
    If(i128),
    /// IF COND(&I *LT n) THEN(GOTO CMDLBL(l))
    IfGoto(i128, &'static str),
    Else,
    /// DOWHILE COND(&I *LT n)
    While(i128),
    End,
    Goto(&'static str),
    /// DLTJRNRCV RCV(n), which is refused from 50 on
    Ask(u32),
    /// MONMSG MSGID(*ANY), with EXEC where the label isn't empty
    Monitor(&'static str),
    Return,
}

use Kind::{Ask, Count, Declare, Else, End, Goto, If, IfGoto, Monitor, Return, While};

/// Labels, empty where there is none, and statements, one a line.
type Rows = &'static [(&'static str, Kind)];

fn number(units: i128) -> Operand {
    Operand::Literal(Value::Number(Dec { units, scale: 0 }))
}

fn is_less(left: Operand, relation: Relation, right: i128) -> Condition {
    Condition {
        left,
        relation,
        right: number(right),
    }
}

fn label(text: &str) -> Result<Name, Fail> {
    Ok(Name::from_bytes(text.as_bytes()).ok_or("a name")?)
}

fn count() -> Phrase {
    Phrase::ChangeVariable {
        variable: 0,
        value: Expression::Calculation {
            left: Operand::Variable(0),
            operator: Operator::Plus,
            right: number(1),
        },
    }
}

fn phrase(alloc: Global, kind: Kind) -> Result<Phrase, Fail> {
    Ok(match kind {
        Declare(name) => Phrase::Declare {
            variable: label(name)?,
            value: Value::Number(Dec { units: 0, scale: 0 }),
        },
        Count => count(),
        If(right) => Phrase::IfDo(is_less(number(0), Relation::Equal, right)),
        IfGoto(right, name) => Phrase::IfGoto {
            condition: is_less(Operand::Variable(0), Relation::Less, right),
            label: label(name)?,
        },
        Else => Phrase::Else,
        While(right) => Phrase::DoWhile(is_less(Operand::Variable(0), Relation::Less, right)),
        End => Phrase::EndDo,
        Goto(name) => Phrase::Goto(label(name)?),
        Ask(receiver) => Phrase::Request {
            form: RequestForm::DeleteReceiver(NumberOperand::Literal(receiver)),
            into: Targets::from_vec(Vec::new(alloc)),
        },
        Monitor(name) => Phrase::Monitor {
            takes: Monitored::Any,
            label: Name::from_bytes(name.as_bytes()),
        },
        Return => Phrase::Return,
    })
}

/// The statements, from line 1 on, and the line of the card after them.
fn written(alloc: Global, rows: Rows) -> Result<(WrittenStatements, u32), Fail> {
    let mut statements = Vec::new(alloc);
    let mut line = 1u32;
    for (label, kind) in rows {
        let phrase = phrase(alloc, *kind)?;
        statements.push(Written {
            line,
            label: Name::from_bytes(label.as_bytes()),
            phrase,
        })?;
        line = line.saturating_add(1);
    }
    Ok((WrittenStatements::from_vec(statements), line))
}

/// The line at fault; 0 where there is none.
fn fault(alloc: Global, rows: Rows) -> Result<u32, Fail> {
    let (statements, end_line) = written(alloc, rows)?;
    match build(alloc, statements, end_line) {
        Ok(_) => Ok(0),
        Err(BuildError::Fault { line }) => Ok(line),
        Err(BuildError::NoMemory) => Err("out of memory")?,
    }
}

const FAULTS: [(Rows, u32); 28] = [
    // Nothing is at fault.
    (&[], 0),
    (
        &[
            ("", Declare("I")),
            ("", While(3)),
            ("", Count),
            ("", Ask(1)),
            ("", End),
        ],
        0,
    ),
    (
        &[
            ("", If(0)),
            ("", End),
            ("L", Else),
            ("", End),
            ("", Goto("L")),
        ],
        0,
    ),
    // DCL
    (&[("", Ask(1)), ("", Declare("A"))], 2),
    (
        &[("", Declare("A")), ("", Declare("B")), ("", Declare("A"))],
        3,
    ),
    // labels
    (&[("L", Ask(1)), ("", Ask(2)), ("L", Ask(3))], 3),
    (&[("", If(0)), ("L", Ask(1)), ("", End)], 2),
    (&[("", If(0)), ("", Ask(1)), ("L", End)], 3),
    (&[("", Ask(1)), ("", Goto("L"))], 2),
    (&[("", Declare("I")), ("", IfGoto(1, "L"))], 2),
    (&[("", Ask(1)), ("", Monitor("L"))], 2),
    (&[("", Goto("L")), ("", If(0)), ("L", Ask(1)), ("", End)], 1),
    (&[("", If(0)), ("L", Ask(1)), ("", End), ("", Goto("L"))], 2),
    // MONMSG
    (&[("", Monitor(""))], 1),
    (&[("", Ask(1)), ("", Return), ("", Monitor(""))], 3),
    (&[("", Ask(1)), ("", Monitor("")), ("", Monitor(""))], 3),
    // ELSE
    (&[("", Else), ("", End)], 1),
    (
        &[("", If(0)), ("", End), ("", Ask(1)), ("", Else), ("", End)],
        4,
    ),
    (
        &[
            ("", Declare("I")),
            ("", While(1)),
            ("", End),
            ("", Else),
            ("", End),
        ],
        4,
    ),
    (&[("", If(0)), ("", Else), ("", End), ("", End)], 2),
    (
        &[
            ("", If(0)),
            ("", End),
            ("", Else),
            ("", End),
            ("", Else),
            ("", End),
        ],
        5,
    ),
    // ENDDO
    (&[("", Ask(1)), ("", End)], 2),
    (&[("", If(0)), ("", End), ("", End), ("", If(0))], 3),
    // open at the end
    (&[("", If(0)), ("", Ask(1))], 3),
    (&[("", If(0)), ("", If(0)), ("", End)], 4),
    // two lines
    (&[("", Ask(1)), ("", End), ("", Declare("A"))], 2),
    (&[("", Goto("L")), ("", Declare("A"))], 1),
    (&[("", If(0)), ("", Ask(1)), ("", Goto("L"))], 3),
];

fn judge(rt: &impl Abort, alloc: Global, rows: &[(Rows, u32)]) -> Result<(), Fail> {
    for (row, (statements, line)) in rows.iter().enumerate() {
        assert_eq!(rt; fault(alloc, statements)?, *line, "row {row}");
    }
    Ok(())
}

#[test]
fn names_first_line_at_fault(rt: HostRuntime) -> Result<(), Fail> {
    judge(&rt, rt.alloc(), &FAULTS)
}

/// At most twelve requests' numbers, and at the end 0 for *NORMAL, 1000 and the line for *ESCAPE.
fn trace(alloc: Global, script: &Script) -> Result<Vec<u32>, Fail> {
    let mut trace = Vec::new(alloc);
    let mut progress = Progress::new(alloc, script)?;
    let mut last: Option<Reply> = None;
    for _ in 0..12 {
        let request = progress.next(script, last.as_ref(), false)?;
        let number = asked(&request);
        trace.push(number)?;
        if number == 0 || number >= 1000 {
            break;
        }
        last = Some(if number < 50 {
            Reply::Done
        } else {
            Reply::NotFound
        });
    }
    Ok(trace)
}

fn asked(request: &Request) -> u32 {
    match request {
        Request::DeleteReceiver(args) => args.number,
        Request::EndJob(args) if args.reason == EndReason::Normal => 0,
        Request::EndJob(args) => 1000u32.saturating_add(args.line),
        _ => 9999,
    }
}

const RUNS: [(Rows, &[u32]); 12] = [
    (&[], &[0]),
    (
        &[
            ("", Declare("I")),
            ("", While(3)),
            ("", Count),
            ("", Ask(7)),
            ("", End),
        ],
        &[7, 7, 7, 0],
    ),
    (
        &[
            ("", If(0)),
            ("", Ask(1)),
            ("", End),
            ("", Else),
            ("", Ask(2)),
            ("", End),
            ("", Ask(3)),
        ],
        &[1, 3, 0],
    ),
    (
        &[
            ("", If(1)),
            ("", Ask(1)),
            ("", End),
            ("", Else),
            ("", Ask(2)),
            ("", End),
            ("", Ask(3)),
        ],
        &[2, 3, 0],
    ),
    (
        &[("", If(1)), ("", Ask(1)), ("", End), ("", Ask(3))],
        &[3, 0],
    ),
    (
        &[
            ("", Declare("I")),
            ("", While(2)),
            ("", Count),
            ("", If(1)),
            ("", Ask(1)),
            ("", End),
            ("", Else),
            ("", If(0)),
            ("", Ask(2)),
            ("", End),
            ("", End),
            ("", End),
            ("", Ask(3)),
        ],
        &[2, 2, 3, 0],
    ),
    (
        &[
            ("", Declare("I")),
            ("", While(2)),
            ("", Count),
            ("", If(0)),
            ("", If(0)),
            ("", Ask(1)),
            ("", End),
            ("", Else),
            ("", Ask(2)),
            ("", End),
            ("", End),
            ("", Else),
            ("", Ask(4)),
            ("", End),
            ("", End),
        ],
        &[1, 1, 0],
    ),
    (&[("", Goto("L")), ("", Ask(1)), ("L", Ask(2))], &[2, 0]),
    (
        &[
            ("", Declare("I")),
            ("L", Count),
            ("", Ask(1)),
            ("", IfGoto(3, "L")),
            ("", Return),
            ("", Ask(2)),
        ],
        &[1, 1, 1, 0],
    ),
    (
        &[
            ("", Ask(50)),
            ("", Monitor("L")),
            ("", Ask(1)),
            ("L", Ask(2)),
        ],
        &[50, 2, 0],
    ),
    (
        &[
            ("", If(0)),
            ("", Ask(50)),
            ("", Monitor("")),
            ("", End),
            ("", Else),
            ("", Ask(1)),
            ("", End),
            ("", Ask(2)),
        ],
        &[50, 2, 0],
    ),
    (
        &[("", Ask(1)), ("", Monitor("")), ("", Ask(50)), ("", Return)],
        &[1, 50, 1003],
    ),
];

fn run(rt: &impl Abort, alloc: Global, rows: &[(Rows, &[u32])]) -> Result<(), Fail> {
    for (row, (statements, wanted)) in rows.iter().enumerate() {
        let (statements, end_line) = written(alloc, statements)?;
        let script = build(alloc, statements, end_line)?;
        let trace = trace(alloc, &script)?;
        assert_eq!(rt; trace.as_slice(), *wanted, "row {row}");
    }
    Ok(())
}

#[test]
fn scripts_run_as_written(rt: HostRuntime) -> Result<(), Fail> {
    run(&rt, rt.alloc(), &RUNS)
}
