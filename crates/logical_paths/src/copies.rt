//! Copies of what a view shows and selects, in memory of their own.
ghost use Rattle.std.specs.Prelude.{◌≡◌, IfOk};

use field_types::lists::ListOf;
use field_types::values::Value;
use file_model::rules::{Condition, Rules, Statement, Test};
use file_model::views::{FieldSource, Piece, ViewField};
use std::alloc::{AllocError, Global};

/// A copy of a field.
pub(crate) fn copied_field(alloc: Global, field: &ViewField) -> Result<ViewField, AllocError>
    ensures { IfOk result (λ copy. copy ≡ field.now) }
{
    let source = copied_source(alloc, &field.source)?;
    Ok(ViewField {
        ty: field.ty,
        source,
    })
}

/// A copy of what a field shows.
fn copied_source(alloc: Global, source: &FieldSource) -> Result<FieldSource, AllocError>
    ensures { IfOk result (λ copy. copy ≡ source.now) }
{
    match source {
        FieldSource::Copied { offset } => Ok(FieldSource::Copied { offset: *offset }),
        FieldSource::Converted { from, offset } => Ok(FieldSource::Converted {
            from: *from,
            offset: *offset,
        }),
        FieldSource::Concatenated(pieces) => {
            Ok(FieldSource::Concatenated(copied_pieces(alloc, pieces)?))
        }
        FieldSource::Substring(piece) => Ok(FieldSource::Substring(*piece)),
    }
}

fn copied_pieces(alloc: Global, pieces: &ListOf<Piece>) -> Result<ListOf<Piece>, AllocError>
    ensures { IfOk result (λ copy. copy ≡ pieces.now) }
{
    Ok(ListOf::from_vec(Vec::from_slice(alloc, pieces.as_slice())?))
}

/// A copy of the select and omit statements of a format.
pub(crate) fn copied_rules(alloc: Global, rules: &Rules) -> Result<Rules, AllocError>
    ensures { IfOk result (λ copy. copy ≡ rules.now) }
{
    let statements = copied_statements(alloc, rules.statements.as_slice())?;
    Ok(Rules {
        statements,
        all: rules.all,
    })
}

fn copied_statements(
    alloc: Global,
    statements: &[Statement],
) -> Result<ListOf<Statement>, AllocError>
    ensures { IfOk result (λ copies. copies ≡ statements.now) }
{
    let mut copies = ListOf::new(alloc);
    for statement in statements {
        copies.push(copied_statement(alloc, statement)?)?;
    }
    Ok(copies)
}

fn copied_statement(alloc: Global, statement: &Statement) -> Result<Statement, AllocError>
    ensures { IfOk result (λ copy. copy ≡ statement.now) }
{
    let conditions = copied_conditions(alloc, statement.conditions.as_slice())?;
    Ok(Statement {
        choice: statement.choice,
        conditions,
    })
}

fn copied_conditions(
    alloc: Global,
    conditions: &[Condition],
) -> Result<ListOf<Condition>, AllocError>
    ensures { IfOk result (λ copies. copies ≡ conditions.now) }
{
    let mut copies = ListOf::new(alloc);
    for condition in conditions {
        copies.push(copied_condition(alloc, condition)?)?;
    }
    Ok(copies)
}

fn copied_condition(alloc: Global, condition: &Condition) -> Result<Condition, AllocError>
    ensures { IfOk result (λ copy. copy ≡ condition.now) }
{
    let field = copied_field(alloc, &condition.field)?;
    let test = copied_test(alloc, &condition.test)?;
    Ok(Condition { field, test })
}

fn copied_test(alloc: Global, test: &Test) -> Result<Test, AllocError>
    ensures { IfOk result (λ copy. copy ≡ test.now) }
{
    match test {
        Test::Literal(relation, literal) => { Ok(Test::Literal(*relation, literal.copied(alloc)?)) }
        Test::Field(relation, field) => Ok(Test::Field(*relation, copied_field(alloc, field)?)),
        Test::Range(low, high) => copied_range(alloc, low, high),
        Test::Values(values) => Ok(Test::Values(copied_values(alloc, values.as_slice())?)),
    }
}

fn copied_range(alloc: Global, low: &Value, high: &Value) -> Result<Test, AllocError>
    ensures { IfOk result (λ copy. copy ≡ Test.Range low.now high.now) }
{
    let least = low.copied(alloc)?;
    let most = high.copied(alloc)?;
    Ok(Test::Range(least, most))
}

fn copied_values(alloc: Global, values: &[Value]) -> Result<ListOf<Value>, AllocError>
    ensures { IfOk result (λ copies. copies ≡ values.now) }
{
    let mut copies = ListOf::new(alloc);
    for value in values {
        copies.push(value.copied(alloc)?)?;
    }
    Ok(copies)
}
