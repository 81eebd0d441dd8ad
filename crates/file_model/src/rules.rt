//! Select and omit statements. `specs/Selection.antt` has which records they select.
use crate::views::ViewField;
use decimal_order::field_types::lists::ListOf;
use decimal_order::field_types::values::Value;

/// The relations of COMP. NL is `AtLeast`, and NG is `AtMost`.
#[derive(Clone, Copy, PartialEq)]
pub enum Relation {
    /// EQ
    Equals,
    /// NE
    Differs,
    /// LT
    Below,
    /// LE
    AtMost,
    /// GT
    Above,
    /// GE
    AtLeast,
}

/// What a field has to be.
#[derive(Drop)]
pub enum Test {
    /// COMP with a literal.
    Literal(Relation, Value),
    /// COMP with another field.
    Field(Relation, ViewField),
    /// RANGE: from the first to the second, both included.
    Range(Value, Value),
    /// VALUES: one of them.
    Values(ListOf<Value>),
}

/// A test of a field.
#[derive(Drop)]
pub struct Condition {
    pub field: ViewField,
    pub test: Test,
}

/// What a statement does with the records that meet it.
#[derive(Clone, Copy, PartialEq)]
pub enum Choice {
    Select,
    Omit,
}

/// A select or omit statement.
#[derive(Drop)]
pub struct Statement {
    pub choice: Choice,
    /// They hold together. A statement without any holds of each record.
    pub conditions: ListOf<Condition>,
}

/// The select and omit statements of a format.
#[derive(Drop)]
pub struct Rules {
    /// Those with conditions, in order.
    pub statements: ListOf<Statement>,
    /// The one with ALL.
    pub all: Option<Choice>,
}
