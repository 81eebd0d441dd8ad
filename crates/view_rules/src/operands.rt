//! What a test compares: the value of a field of the record, or a literal.
ghost use Rattle.std.specs.Prelude.{◌≡◌, ◌≤◌, Some, None, true, is_some, length};
ghost use Rattle.field_types.specs.declared.values.Value.{Value};
ghost use Rattle.field_values.specs.FieldTypes.{IsFieldType, width};
ghost use Rattle.field_values.specs.FieldBytes.{held, written, filled};
ghost use Rattle.file_model.specs.Views.{field_value, written_as};
ghost use Rattle.file_model.specs.Selection.{compare_filled};
ghost use Rattle.view_rules.specs.Shown.{HasValue, IsTaken};
ghost use Rattle.view_rules.specs.Operands.{bytes_of, value_of, HasBytes, IsOperand};

use crate::sources;
use crate::texts::{self, ShownText, TextBytes};
use decimal_order::order;
use field_types::kinds::{FieldType, Kind};
use field_types::values::{Dec, Value};
use field_values::fields;
use file_model::views::{FieldSource, ViewField};
use std::cmp::Ordering;

/// A value that is compared.
#[derive(Clone, Copy)]
pub(crate) enum Operand<'a> {
    Number(Dec),
    Text(ShownText<'a>),
}

/// The value that a record shows in a field.
pub(crate) fn of_field<'a>(field: &'a ViewField, image: &'a [u8]) -> Operand<'a>
    requires { HasValue image.now field.now }
    ensures value { field_value image.now field.now ≡ Some (value_of result) }
    ensures there { IsOperand result }
{
    match &field.source {
        FieldSource::Copied { offset } => copied(
            &field.ty,
            sources::bytes_at(&field.ty, *offset, image),
        ),
        FieldSource::Converted { from, offset } => {
            converted(&field.ty, from, sources::bytes_at(from, *offset, image))
        }
        FieldSource::Concatenated(pieces) => characters(
            &field.ty,
            TextBytes::Pieces(pieces.as_slice(), image),
        ),
        FieldSource::Substring(piece) => characters(
            &field.ty,
            TextBytes::Slice(sources::bytes_of(piece, image)),
        ),
    }
}

/// A literal.
pub(crate) fn of_literal(literal: &Value) -> Operand<'_>
    ensures value { value_of result ≡ literal.now }
    ensures there { IsOperand result }
{
    match literal {
        Value::Number(number) => Operand::Number(*number),
        Value::Chars(text) => whole(text.as_bytes()),
    }
}

/// Compares two values: texts by their bytes, the shorter one filled with blanks, and numbers by value.
pub(crate) fn compare(a: Operand, b: Operand) -> Ordering
    requires first { IsOperand a }
    requires second { IsOperand b }
    ensures { result ≡ compare_filled (value_of a.entry) (value_of b.entry) }
{
    match (a, b) {
        (Operand::Text(a), Operand::Text(b)) => texts::compare(a, b),
        (Operand::Number(a), Operand::Number(b)) => order::compare(a, b),
        (Operand::Text(_), Operand::Number(_)) => Ordering::Less,
        (Operand::Number(_), Operand::Text(_)) => Ordering::Greater,
    }
}

fn whole(bytes: &[u8]) -> Operand<'_>
    ensures value { value_of result ≡ Value.Chars bytes.now }
    ensures there { IsOperand result }
{
    Operand::Text(ShownText {
        width: bytes.len(),
        bytes: TextBytes::Slice(bytes),
    })
}

/// What stands in a field.
fn copied<'a>(ty: &FieldType, bytes: &'a [u8]) -> Operand<'a>
    requires allowed { IsFieldType ty.now }
    requires room { length bytes.now ≡ width ty.now }
    requires there { is_some (held ty.now bytes.now) ≡ true }
    ensures value { held ty.now bytes.now ≡ Some (value_of result) }
    ensures there { IsOperand result }
{
    if fields::is_numeric(ty.kind) {
        Operand::Number(fields::number(ty, bytes))
    } else {
        whole(bytes)
    }
}

/// What a field of another type shows of what stands there.
fn converted<'a>(ty: &FieldType, from: &FieldType, bytes: &'a [u8]) -> Operand<'a>
    requires allowed { IsFieldType ty.now }
    requires also { IsFieldType from.now }
    requires room { length bytes.now ≡ width from.now }
    requires taken { IsTaken ty.now (held from.now bytes.now) }
    requires there { is_some (held ty.now (written_as ty.now (held from.now bytes.now))) ≡ true }
    ensures value { held ty.now (written_as ty.now (held from.now bytes.now)) ≡ Some (value_of result) }
    ensures there { IsOperand result }
{
    if fields::is_numeric(from.kind) {
        Operand::Number(sources::converted(ty, fields::number(from, bytes)))
    } else {
        Operand::Text(ShownText {
            width: fields::width(ty),
            bytes: TextBytes::Slice(bytes),
        })
    }
}

/// The text of a character field.
fn characters<'a>(ty: &FieldType, bytes: TextBytes<'a>) -> Operand<'a>
    requires kind { ty.now.kind ≡ Kind.Char }
    requires there { HasBytes bytes }
    requires room { length (bytes_of bytes) ≤ width ty.now }
    ensures value { held ty.now (filled (width ty.now) (bytes_of bytes.entry)) ≡ Some (value_of result) }
    ensures there { IsOperand result }
{
    Operand::Text(ShownText {
        width: fields::width(ty),
        bytes,
    })
}
