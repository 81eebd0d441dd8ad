use field_types::names::Name;
use field_types::values::{Dec, Value};
use job_language::forms::{RequestForm, WriteForm};
use job_language::operands::{
    Condition, Expression, GivenOperands, NumberOperand, Operand, Operator, Relation,
    SequenceOperand, Targets,
};
use job_language::progress::Progress;
use job_language::statements::{Action, RequestStatement, Script, Statement, Statements};
use library_model::replies::Reply;
use library_model::requests::{EndReason, Request};
use library_model::value_lists::Values;
use std::alloc::{AllocError, Global};
use std::process::Abort;
use std::test::Fail;

fn whole(units: i128) -> Value {
    Value::Number(Dec { units, scale: 0 })
}

/// `DOWHILE COND(&I *LT 3)` at line 2
fn repeat() -> Statement {
    Statement {
        line: 2,
        action: Action::DoWhile {
            condition: Condition {
                left: Operand::Variable(0),
                relation: Relation::Less,
                right: Operand::Literal(whole(3)),
            },
            otherwise: 3,
        },
        next: 1,
    }
}

/// `CHGVAR VAR(&I) VALUE(&I + 1)` at line 3
fn count() -> Statement {
    Statement {
        line: 3,
        action: Action::ChangeVariable {
            variable: 0,
            value: Expression::Calculation {
                left: Operand::Variable(0),
                operator: Operator::Plus,
                right: Operand::Literal(whole(1)),
            },
        },
        next: 2,
    }
}

/// `WRITE OPNID(NUM) VAL(&I)` at line 4, before the ENDDO
fn write(alloc: Global, open_id: Name) -> Result<Statement, AllocError> {
    let mut values = Vec::new(alloc);
    values.push(Some(Operand::Variable(0)))?;
    Ok(Statement {
        line: 4,
        action: Action::Request(RequestStatement {
            form: RequestForm::Write(WriteForm {
                open_id,
                format: None,
                record_number: None,
                values: GivenOperands::from_vec(values),
            }),
            monitor: None,
            into: Targets::from_vec(Vec::new(alloc)),
        }),
        next: 0,
    })
}

fn statements(alloc: Global, open_id: Name) -> Result<Statements, AllocError> {
    let mut statements = Vec::new(alloc);
    statements.push(repeat())?;
    statements.push(count())?;
    statements.push(write(alloc, open_id)?)?;
    Ok(Statements::from_vec(statements))
}

fn variables(alloc: Global) -> Result<Values, AllocError> {
    let mut variables = Vec::new(alloc);
    variables.push(whole(0))?;
    Ok(Values::from_vec(variables))
}

/// The one value that a WRITE gives; -1 for the normal end.
fn shown(request: &Request) -> Option<i128> {
    match request {
        Request::Write(args) => match args.values.as_slice() {
            [Some(Value::Number(number))] => Some(number.units),
            _ => None,
        },
        Request::EndJob(args) if args.reason == EndReason::Normal && args.line == 0 => Some(-1),
        _ => None,
    }
}

fn asked(
    progress: &mut Progress,
    script: &Script,
    last: Option<&Reply>,
) -> Result<Option<i128>, AllocError> {
    let request = progress.next(script, last, false)?;
    Ok(shown(&request))
}

#[test]
fn loop_writes_three_records(rt: HostRuntime) -> Result<(), Fail> {
    let open_id = Name::from_bytes(b"NUM").ok_or("a name")?;
    let variables = variables(rt.alloc())?;
    let script = Script {
        variables,
        statements: statements(rt.alloc(), open_id)?,
    };
    let mut progress = Progress::new(rt.alloc(), &script)?;
    let added = Reply::Added { rrn: 1 };
    assert_eq!(rt; asked(&mut progress, &script, None)?, Some(1));
    assert_eq!(rt; asked(&mut progress, &script, Some(&added))?, Some(2));
    assert_eq!(rt; asked(&mut progress, &script, Some(&added))?, Some(3));
    assert_eq!(rt; asked(&mut progress, &script, Some(&added))?, Some(-1));
    Ok(())
}

/// `DSPJRN FROMENT(&V) TOENT(9)` at line 7
fn display() -> RequestForm {
    RequestForm::DisplayJournal {
        from: SequenceOperand::Variable(0),
        to: SequenceOperand::Literal(9),
    }
}

/// `DLTJRNRCV RCV(&V)` at line 7
fn delete() -> RequestForm {
    RequestForm::DeleteReceiver(NumberOperand::Variable(0))
}

fn alone(alloc: Global, form: RequestForm) -> Statement {
    Statement {
        line: 7,
        action: Action::Request(RequestStatement {
            form,
            monitor: None,
            into: Targets::from_vec(Vec::new(alloc)),
        }),
        next: 1,
    }
}

/// Whether the request at line 7 has no value with a variable of these units and this scale.
fn is_refused(
    alloc: Global,
    units: i128,
    scale: u8,
    form: RequestForm,
) -> Result<bool, AllocError> {
    let mut statements = Vec::new(alloc);
    statements.push(alone(alloc, form))?;
    let mut variables = Vec::new(alloc);
    variables.push(Value::Number(Dec { units, scale }))?;
    let script = Script {
        variables: Values::from_vec(variables),
        statements: Statements::from_vec(statements),
    };
    let mut progress = Progress::new(alloc, &script)?;
    ends(&mut progress, &script)
}

fn ends(progress: &mut Progress, script: &Script) -> Result<bool, AllocError> {
    Ok(match progress.next(script, None, true)? {
        Request::EndJob(args) => args.reason == EndReason::Expression && args.line == 7,
        _ => false,
    })
}

/// Units and scale of a variable, and whether RCV and FROMENT refuse it.
const EDGES: [(i128, u8, bool, bool); 6] = [
    (4_294_967_295, 0, false, false),
    (429_496_729_500, 2, false, false),
    (4_294_967_296, 0, true, false),
    (18_446_744_073_709_551_616, 0, true, true),
    (5, 1, true, true),
    (-1, 0, true, true),
];

fn judges(
    rt: &impl Abort,
    alloc: Global,
    rows: &[(i128, u8, bool, bool)],
) -> Result<(), AllocError> {
    for (row, (units, scale, number, sequence)) in rows.iter().enumerate() {
        let refused = is_refused(alloc, *units, *scale, delete())?;
        assert_eq!(rt; refused, *number, "RCV of row {row}");
        let refused = is_refused(alloc, *units, *scale, display())?;
        assert_eq!(rt; refused, *sequence, "FROMENT of row {row}");
    }
    Ok(())
}

#[test]
fn numbers_in_variables(rt: HostRuntime) -> Result<(), Fail> {
    judges(&rt, rt.alloc(), &EDGES)?;
    Ok(())
}
