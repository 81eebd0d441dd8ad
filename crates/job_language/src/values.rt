//! What operands, expressions and conditions give, by `specs/Values.antt`.
ghost use Rattle.std.specs.Prelude.{◌≡◌, IfOk, option_copied};
ghost use Rattle.job_language.specs.Values.{value_of, number_of_operand, calculated, result_of, holds, truth_of};

use crate::operands::{Condition, Expression, Operand, Operator, Relation};
use field_types::values::{Dec, Value};
use script_numbers::order::order;
use script_numbers::products::product;
use script_numbers::sums::{difference, sum};
use std::alloc::{AllocError, Global};
use std::cmp::Ordering;

impl Operand {
    /// The literal, or the variable's value.
    pub(crate) fn value<'a>(&'a self, values: &'a [Value]) -> Option<&'a Value>
        ensures { option_copied result ≡ value_of values.now self.now }
    {
        match self {
            Operand::Literal(value) => Some(value),
            Operand::Variable(number) => values.get(*number),
        }
    }

    fn number(&self, values: &[Value]) -> Option<Dec>
        ensures { result ≡ number_of_operand values.now self.now }
    {
        match self.value(values) {
            Some(Value::Number(number)) => Some(*number),
            Some(Value::Chars(_)) => None,
            None => None,
        }
    }
}

fn calculated(operator: Operator, left: Dec, right: Dec) -> Option<Dec>
    ensures { result ≡ calculated operator left right }
{
    match operator {
        Operator::Plus => sum(left, right),
        Operator::Minus => difference(left, right),
        Operator::Times => product(left, right),
    }
}

impl Expression {
    /// Its value, in memory of its own.
    pub(crate) fn result(
        &self,
        alloc: Global,
        values: &[Value],
    ) -> Result<Option<Value>, AllocError>
        ensures { IfOk result (λ value. value ≡ result_of values.now self.now) }
    {
        match self {
            Expression::Single(operand) => copied(alloc, operand.value(values)),
            Expression::Calculation {
                left,
                operator,
                right,
            } => Ok(calculation(values, left, *operator, right)),
        }
    }
}

fn copied(alloc: Global, value: Option<&Value>) -> Result<Option<Value>, AllocError>
    ensures { IfOk result (λ copy. copy ≡ option_copied value.entry) }
{
    match value {
        None => Ok(None),
        Some(value) => Ok(Some(value.copied(alloc)?)),
    }
}

fn calculation(
    values: &[Value],
    left: &Operand,
    operator: Operator,
    right: &Operand,
) -> Option<Value>
    ensures { result ≡ result_of values.now (Expression.Calculation left.now operator right.now) }
{
    let left = left.number(values)?;
    let right = right.number(values)?;
    match calculated(operator, left, right) {
        None => None,
        Some(number) => Some(Value::Number(number)),
    }
}

impl Condition {
    /// Whether it holds; `None` for a number and a text.
    pub(crate) fn truth(&self, values: &[Value]) -> Option<bool>
        ensures { result ≡ truth_of values.now self.now }
    {
        let left = self.left.value(values)?;
        let right = self.right.value(values)?;
        match order(left, right) {
            None => None,
            Some(order) => Some(self.relation.holds(order)),
        }
    }
}

impl Relation {
    fn holds(self, order: Ordering) -> bool
        ensures { result ≡ holds self order }
    {
        match self {
            Relation::Equal => order.is_eq(),
            Relation::NotEqual => order.is_ne(),
            Relation::Less => order.is_lt(),
            Relation::LessOrEqual => order.is_le(),
            Relation::Greater => order.is_gt(),
            Relation::GreaterOrEqual => order.is_ge(),
        }
    }
}
