//! Whether two path specifications are one. Files whose specifications are share the path.
ghost use Rattle.std.specs.Prelude.{◌≡◌, ◌↔◌, IsTrue};

use field_types::values::Value;
use key_spec::KeyPart;
use view_rules::file_model::paths::{PathFormat, PathSpec};
use view_rules::file_model::rules::{Condition, Rules, Statement, Test};
use view_rules::file_model::views::{FieldSource, Piece, ViewField};

/// Whether they are equal. It takes no memory.
pub fn is_same(a: &PathSpec, b: &PathSpec) -> bool
    ensures { IsTrue result ↔ (a.now ≡ b.now) }
{
    a.unique == b.unique && a.ties == b.ties && are_same(a.formats.as_slice(), b.formats.as_slice())
}

/// What two specifications are compared by.
trait Same {
    fn is_same(&self, other: &Self) -> bool
        ensures { IsTrue result ↔ (self.now ≡ other.now) };
}

/// Whether two lists have equal items.
fn are_same<T: Same>(a: &[T], b: &[T]) -> bool
    ensures { IsTrue result ↔ (a.now ≡ b.now) }
{
    match a {
        [] => b.is_empty(),
        [x, xs @ ..] => match b {
            [] => false,
            [y, ys @ ..] => x.is_same(y) && are_same(xs, ys),
        },
    }
}

impl Same for PathFormat {
    fn is_same(&self, other: &PathFormat) -> bool {
        self.member == other.member
            && self.rules.is_same(&other.rules)
            && are_same(self.fields.as_slice(), other.fields.as_slice())
            && are_same(self.key.as_slice(), other.key.as_slice())
    }
}

impl Same for Rules {
    fn is_same(&self, other: &Rules) -> bool {
        self.all == other.all && are_same(self.statements.as_slice(), other.statements.as_slice())
    }
}

impl Same for Statement {
    fn is_same(&self, other: &Statement) -> bool {
        self.choice == other.choice
            && are_same(self.conditions.as_slice(), other.conditions.as_slice())
    }
}

impl Same for Condition {
    fn is_same(&self, other: &Condition) -> bool {
        self.field.is_same(&other.field) && self.test.is_same(&other.test)
    }
}

impl Same for Test {
    fn is_same(&self, other: &Test) -> bool {
        match self {
            Test::Literal(relation, literal) => {
                let Test::Literal(other_relation, other_literal) = other else {
                    return false;
                };
                relation == other_relation && literal == other_literal
            }
            Test::Field(relation, field) => {
                let Test::Field(other_relation, other_field) = other else {
                    return false;
                };
                relation == other_relation && field.is_same(other_field)
            }
            Test::Range(low, high) => {
                let Test::Range(other_low, other_high) = other else {
                    return false;
                };
                low == other_low && high == other_high
            }
            Test::Values(values) => {
                let Test::Values(other_values) = other else {
                    return false;
                };
                are_same(values.as_slice(), other_values.as_slice())
            }
        }
    }
}

impl Same for ViewField {
    fn is_same(&self, other: &ViewField) -> bool {
        self.ty == other.ty && self.source.is_same(&other.source)
    }
}

impl Same for FieldSource {
    fn is_same(&self, other: &FieldSource) -> bool {
        match self {
            FieldSource::Copied { offset } => {
                let FieldSource::Copied {
                    offset: other_offset,
                } = other
                else {
                    return false;
                };
                offset == other_offset
            }
            FieldSource::Converted { from, offset } => {
                let FieldSource::Converted {
                    from: other_from,
                    offset: other_offset,
                } = other
                else {
                    return false;
                };
                from == other_from && offset == other_offset
            }
            FieldSource::Concatenated(pieces) => {
                let FieldSource::Concatenated(other_pieces) = other else {
                    return false;
                };
                are_same(pieces.as_slice(), other_pieces.as_slice())
            }
            FieldSource::Substring(piece) => {
                let FieldSource::Substring(other_piece) = other else {
                    return false;
                };
                piece == other_piece
            }
        }
    }
}

impl Same for Piece {
    fn is_same(&self, other: &Piece) -> bool {
        self == other
    }
}

impl Same for Value {
    fn is_same(&self, other: &Value) -> bool {
        self == other
    }
}

impl Same for KeyPart {
    fn is_same(&self, other: &KeyPart) -> bool {
        self == other
    }
}
