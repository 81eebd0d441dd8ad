//! What statements calculate and compare.
ghost use Rattle.std.specs.Prelude.{◌≡◌};

use field_types::values::Value;
use std::marker::Model;

/// A value that a statement names. A variable has the number of its DCL in the script, from 0.
#[derive(Drop)]
pub enum Operand {
    Literal(Value),
    Variable(usize),
}

/// The operator of an arithmetic expression.
#[derive(Clone, Copy, PartialEq)]
pub enum Operator {
    /// `+`
    Plus,
    /// `-`
    Minus,
    /// `*`
    Times,
}

/// The value that CHGVAR gives.
#[derive(Drop)]
pub enum Expression {
    Single(Operand),
    Calculation {
        left: Operand,
        operator: Operator,
        right: Operand,
    },
}

/// How a condition compares.
#[derive(Clone, Copy, PartialEq)]
pub enum Relation {
    /// *EQ
    Equal,
    /// *NE
    NotEqual,
    /// *LT
    Less,
    /// *LE
    LessOrEqual,
    /// *GT
    Greater,
    /// *GE
    GreaterOrEqual,
}

/// COND of IF and DOWHILE.
#[derive(Drop)]
pub struct Condition {
    pub left: Operand,
    pub relation: Relation,
    pub right: Operand,
}

/// The value of RRN or RCV.
#[derive(Clone, Copy)]
pub enum NumberOperand {
    Literal(u32),
    Variable(usize),
}

/// The value of FROMENT or TOENT.
#[derive(Clone, Copy)]
pub enum SequenceOperand {
    Literal(u64),
    Variable(usize),
}

/// The values of KEY, in order.
#[derive(Drop)]
pub struct Operands {
    operands: Vec<Operand>,
}

impl Model for Operands {
    ghost use Rattle.std.specs.Prelude.{List};
    ghost use Rattle.job_language.specs.declared.operands.Operand.{Operand};

    ghost Value = { List Operand };

    ghost view = { λ o. o.operands.items };
}

impl Operands {
    /// These values.
    pub fn from_vec(operands: Vec<Operand>) -> Operands
        ensures { result ≡ operands.items }
    {
        Operands { operands }
    }

    /// The values in order.
    pub fn as_slice(&self) -> &[Operand]
        ensures { result.now ≡ self.now }
    {
        self.operands.as_slice()
    }
}

/// The values of VAL, field by field, `None` for `*N`: not given.
#[derive(Drop)]
pub struct GivenOperands {
    operands: Vec<Option<Operand>>,
}

impl Model for GivenOperands {
    ghost use Rattle.std.specs.Prelude.{List, Option};
    ghost use Rattle.job_language.specs.declared.operands.Operand.{Operand};

    ghost Value = { List (Option Operand) };

    ghost view = { λ o. o.operands.items };
}

impl GivenOperands {
    /// These values.
    pub fn from_vec(operands: Vec<Option<Operand>>) -> GivenOperands
        ensures { result ≡ operands.items }
    {
        GivenOperands { operands }
    }

    /// The values in order.
    pub fn as_slice(&self) -> &[Option<Operand>]
        ensures { result.now ≡ self.now }
    {
        self.operands.as_slice()
    }
}

/// The variables of TO, by their numbers.
#[derive(Drop)]
pub struct Targets {
    variables: Vec<usize>,
}

impl Model for Targets {
    ghost use Rattle.std.specs.Prelude.{List, ℕ};

    ghost Value = { List ℕ };

    ghost view = { λ t. t.variables.items };
}

impl Targets {
    /// These variables.
    pub fn from_vec(variables: Vec<usize>) -> Targets
        ensures { result ≡ variables.items }
    {
        Targets { variables }
    }

    /// The variables in order.
    pub fn as_slice(&self) -> &[usize]
        ensures { result.now ≡ self.now }
    {
        self.variables.as_slice()
    }
}
