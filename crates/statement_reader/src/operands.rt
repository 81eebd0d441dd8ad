//! Literals and variables: alone, in lists, in expressions and in conditions. By `specs/Operands.antt`.
ghost use Rattle.std.specs.Prelude.{◌≡◌, option_map, IfOk};
ghost use Rattle.statement_reader.specs.Words.{words};
ghost use Rattle.statement_reader.specs.Operands.{declared, variable_of, operand_of, operands_of, given_operand, given_operands, targets_of, operator_of, calculation_of, expression_of, relation_of, comparison_of, condition_of, number_operand, sequence_operand};

use crate::literals::literal_of;
use crate::numbers::whole_up_to;
use crate::parameters::behind;
use crate::variables::Variables;
use crate::words::{next_word, only, three};
use field_types::names::Name;
use job_language::operands::{
    Condition, Expression, GivenOperands, NumberOperand, Operand, Operands, Operator, Relation,
    SequenceOperand, Targets,
};
use std::alloc::{AllocError, Global};

#[tactic(auto, unfolding(crate::specs::Operands::declared))]
fn declared(variables: &Variables, name: &[u8]) -> Option<usize>
    ensures { result ≡ declared variables.now name.now }
{
    let Some(name) = Name::from_bytes(name) else {
        return None;
    };
    variables.number(&name)
}

/// The number of the variable that a word names.
pub fn variable_of(variables: &Variables, word: &[u8]) -> Option<usize>
    ensures { result ≡ variable_of variables.now word.now }
{
    let Some(name) = behind(word, b"&") else {
        return None;
    };
    declared(variables, name)
}

#[tactic(auto, unfolding(crate::specs::Operands::operand_of))]
fn operand_of(
    alloc: Global,
    variables: &Variables,
    word: &[u8],
) -> Result<Option<Operand>, AllocError>
    ensures { IfOk result (λ operand. operand ≡ operand_of variables.now word.now) }
{
    if let Some(name) = behind(word, b"&") {
        return match declared(variables, name) {
            Some(number) => Ok(Some(Operand::Variable(number))),
            None => Ok(None),
        };
    }
    match literal_of(alloc, word)? {
        Some(value) => Ok(Some(Operand::Literal(value))),
        None => Ok(None),
    }
}

/// The values of KEY.
pub fn operands_of(
    alloc: Global,
    variables: &Variables,
    text: &[u8],
) -> Result<Option<Operands>, AllocError>
    ensures { IfOk result (λ operands. operands ≡ operands_of variables.now (words text.now)) }
{
    let mut operands = Vec::new(alloc);
    let mut rest = text;
    while let Some((word, others)) = next_word(rest) {
        let Some(next) = operand_of(alloc, variables, word)? else {
            return Ok(None);
        };
        operands.push(next)?;
        rest = others;
    }
    let operands = Operands::from_vec(operands);
    if operands.as_slice().is_empty() {
        Ok(None)
    } else {
        Ok(Some(operands))
    }
}

#[tactic(auto, unfolding(crate::specs::Operands::given_operand))]
fn given_operand(
    alloc: Global,
    variables: &Variables,
    word: &[u8],
) -> Result<Option<Option<Operand>>, AllocError>
    ensures { IfOk result (λ operand. operand ≡ given_operand variables.now word.now) }
{
    if word == b"*N".as_slice() {
        return Ok(Some(None));
    }
    match operand_of(alloc, variables, word)? {
        Some(operand) => Ok(Some(Some(operand))),
        None => Ok(None),
    }
}

/// The values of VAL.
pub fn given_operands(
    alloc: Global,
    variables: &Variables,
    text: &[u8],
) -> Result<Option<GivenOperands>, AllocError>
    ensures { IfOk result (λ operands. operands ≡ given_operands variables.now (words text.now)) }
{
    let mut operands = Vec::new(alloc);
    let mut rest = text;
    while let Some((word, others)) = next_word(rest) {
        let Some(next) = given_operand(alloc, variables, word)? else {
            return Ok(None);
        };
        operands.push(next)?;
        rest = others;
    }
    let operands = GivenOperands::from_vec(operands);
    if operands.as_slice().is_empty() {
        Ok(None)
    } else {
        Ok(Some(operands))
    }
}

/// The variables of TO.
pub fn targets_of(
    alloc: Global,
    variables: &Variables,
    text: &[u8],
) -> Result<Option<Targets>, AllocError>
    ensures { IfOk result (λ targets. targets ≡ targets_of variables.now (words text.now)) }
{
    let mut targets = Vec::new(alloc);
    let mut rest = text;
    while let Some((word, others)) = next_word(rest) {
        let Some(next) = variable_of(variables, word) else {
            return Ok(None);
        };
        targets.push(next)?;
        rest = others;
    }
    let targets = Targets::from_vec(targets);
    if targets.as_slice().is_empty() {
        Ok(None)
    } else {
        Ok(Some(targets))
    }
}

fn operator_of(word: &[u8]) -> Option<Operator>
    ensures { result ≡ operator_of word.now }
{
    if word == b"+".as_slice() {
        Some(Operator::Plus)
    } else if word == b"-".as_slice() {
        Some(Operator::Minus)
    } else if word == b"*".as_slice() {
        Some(Operator::Times)
    } else {
        None
    }
}

/// The value that CHGVAR gives.
#[tactic(auto, unfolding(crate::specs::Operands::expression_of))]
pub fn expression_of(
    alloc: Global,
    variables: &Variables,
    text: &[u8],
) -> Result<Option<Expression>, AllocError>
    ensures { IfOk result (λ value. value ≡ expression_of variables.now (words text.now)) }
{
    if let Some((left, operator, right)) = three(text) {
        return calculation_of(alloc, variables, left, operator, right);
    }
    let Some(word) = only(text) else {
        return Ok(None);
    };
    match operand_of(alloc, variables, word)? {
        Some(operand) => Ok(Some(Expression::Single(operand))),
        None => Ok(None),
    }
}

fn calculation_of(
    alloc: Global,
    variables: &Variables,
    left: &[u8],
    sign: &[u8],
    right: &[u8],
) -> Result<Option<Expression>, AllocError>
    ensures { IfOk result (λ value. value ≡ calculation_of variables.now left.now sign.now right.now) }
{
    let Some(operator) = operator_of(sign) else {
        return Ok(None);
    };
    let Some(left) = operand_of(alloc, variables, left)? else {
        return Ok(None);
    };
    let Some(right) = operand_of(alloc, variables, right)? else {
        return Ok(None);
    };
    Ok(Some(Expression::Calculation {
        left,
        operator,
        right,
    }))
}

fn relation_of(word: &[u8]) -> Option<Relation>
    ensures { result ≡ relation_of word.now }
{
    if word == b"*EQ".as_slice() {
        Some(Relation::Equal)
    } else if word == b"*NE".as_slice() {
        Some(Relation::NotEqual)
    } else if word == b"*LT".as_slice() {
        Some(Relation::Less)
    } else if word == b"*LE".as_slice() {
        Some(Relation::LessOrEqual)
    } else if word == b"*GT".as_slice() {
        Some(Relation::Greater)
    } else if word == b"*GE".as_slice() {
        Some(Relation::GreaterOrEqual)
    } else {
        None
    }
}

/// What IF and DOWHILE compare.
#[tactic(auto, unfolding(crate::specs::Operands::condition_of))]
pub fn condition_of(
    alloc: Global,
    variables: &Variables,
    text: &[u8],
) -> Result<Option<Condition>, AllocError>
    ensures { IfOk result (λ condition. condition ≡ condition_of variables.now (words text.now)) }
{
    match three(text) {
        Some((left, relation, right)) => comparison_of(alloc, variables, left, relation, right),
        None => Ok(None),
    }
}

fn comparison_of(
    alloc: Global,
    variables: &Variables,
    left: &[u8],
    sign: &[u8],
    right: &[u8],
) -> Result<Option<Condition>, AllocError>
    ensures { IfOk result (λ condition. condition ≡ comparison_of variables.now left.now sign.now right.now) }
{
    let Some(relation) = relation_of(sign) else {
        return Ok(None);
    };
    let Some(left) = operand_of(alloc, variables, left)? else {
        return Ok(None);
    };
    let Some(right) = operand_of(alloc, variables, right)? else {
        return Ok(None);
    };
    Ok(Some(Condition {
        left,
        relation,
        right,
    }))
}

/// A variable, or a whole number that RRN and RCV may have.
#[tactic(auto, unfolding(crate::specs::Operands::number_operand))]
pub fn number_operand(variables: &Variables, word: &[u8]) -> Option<NumberOperand>
    ensures { result ≡ number_operand variables.now word.now }
{
    if let Some(name) = behind(word, b"&") {
        return match declared(variables, name) {
            Some(number) => Some(NumberOperand::Variable(number)),
            None => None,
        };
    }
    match whole_up_to(word, u128::from(u32::MAX)) {
        Some(whole) => Some(NumberOperand::Literal(whole as u32)),
        None => None,
    }
}

/// A variable, or a whole number that FROMENT and TOENT may have.
#[tactic(auto, unfolding(crate::specs::Operands::sequence_operand))]
pub fn sequence_operand(variables: &Variables, word: &[u8]) -> Option<SequenceOperand>
    ensures { result ≡ sequence_operand variables.now word.now }
{
    if let Some(name) = behind(word, b"&") {
        return match declared(variables, name) {
            Some(number) => Some(SequenceOperand::Variable(number)),
            None => None,
        };
    }
    match whole_up_to(word, u128::from(u64::MAX)) {
        Some(whole) => Some(SequenceOperand::Literal(whole as u64)),
        None => None,
    }
}
