//! Which records rules select.
ghost use Rattle.std.specs.Prelude.{◌≡◌, Some};
ghost use Rattle.std.specs.List.{list_all, list_any, AllByRecursion};
ghost use Rattle.file_model.specs.Selection.{selects, selected_by, rest_is_selected, holds, passes, stands_in, is_related, is_chosen};
ghost use Rattle.view_rules.specs.Shown.{HasCompared, HasConditions, HasCondition, HasTested};
ghost use Rattle.view_rules.specs.Operands.{value_of, IsOperand};

use crate::operands::{self, Operand};
use field_types::values::Value;
use file_model::rules::{Choice, Condition, Relation, Rules, Statement, Test};
use std::cmp::Ordering;

/// Whether the rules select the record. It takes no memory.
pub fn selects(rules: &Rules, image: &[u8]) -> bool
    requires { HasCompared rules.now image.now }
    ensures { result ≡ selects rules.now image.now }
{
    let mut last = Choice::Omit;
    for statement in rules.statements.as_slice() {
        if all_hold(statement.conditions.as_slice(), image) {
            return is_chosen(statement.choice);
        }
        last = statement.choice;
    }
    rest_is_selected(rules.all, last)
}

/// What is chosen for the records that no statement holds of.
fn rest_is_selected(all: Option<Choice>, last: Choice) -> bool
    ensures { result ≡ rest_is_selected all last }
{
    match all {
        Some(all) => is_chosen(all),
        None => !is_chosen(last),
    }
}

fn is_chosen(choice: Choice) -> bool
    ensures { result ≡ is_chosen choice }
{
    match choice {
        Choice::Select => true,
        Choice::Omit => false,
    }
}

/// Whether each condition holds.
fn all_hold(conditions: &[Condition], image: &[u8]) -> bool
    requires { AllByRecursion (HasCondition image.now) conditions.now }
    ensures { result ≡ list_all (holds image.now) conditions.now }
{
    for condition in conditions {
        if !holds(condition, image) {
            return false;
        }
    }
    true
}

fn holds(condition: &Condition, image: &[u8]) -> bool
    requires { HasCondition image.now condition.now }
    ensures { result ≡ holds image.now condition.now }
{
    passes(
        operands::of_field(&condition.field, image),
        &condition.test,
        image,
    )
}

/// Whether a value passes a test in this record.
fn passes(value: Operand, test: &Test, image: &[u8]) -> bool
    requires value { IsOperand value }
    requires tested { HasTested image.now test.now }
    ensures { result ≡ passes image.now (Some (value_of value.entry)) test.now }
{
    match test {
        Test::Literal(relation, literal) => {
            is_related(*relation, value, operands::of_literal(literal))
        }
        Test::Field(relation, other) => {
            is_related(*relation, value, operands::of_field(other, image))
        }
        Test::Range(low, high) => {
            is_related(Relation::AtLeast, value, operands::of_literal(low))
                && is_related(Relation::AtMost, value, operands::of_literal(high))
        }
        Test::Values(values) => is_one_of(value, values.as_slice()),
    }
}

/// Whether a value is equal to one of the literals.
fn is_one_of(value: Operand, literals: &[Value]) -> bool
    requires { IsOperand value }
    ensures { result ≡ list_any (λ literal. is_related Relation.Equals (Some (value_of value.entry)) (Some literal)) literals.now }
{
    for literal in literals {
        if is_related(Relation::Equals, value, operands::of_literal(literal)) {
            return true;
        }
    }
    false
}

fn is_related(relation: Relation, a: Operand, b: Operand) -> bool
    requires first { IsOperand a }
    requires second { IsOperand b }
    ensures { result ≡ is_related relation (Some (value_of a.entry)) (Some (value_of b.entry)) }
{
    stands_in(relation, operands::compare(a, b))
}

/// Whether the relation is that of two values in this order.
fn stands_in(relation: Relation, order: Ordering) -> bool
    ensures { result ≡ stands_in relation order }
{
    match relation {
        Relation::Equals => order.is_eq(),
        Relation::Differs => order.is_ne(),
        Relation::Below => order.is_lt(),
        Relation::AtMost => order.is_le(),
        Relation::Above => order.is_gt(),
        Relation::AtLeast => order.is_ge(),
    }
}
