//! What fields show of a record.
ghost use Rattle.std.specs.Prelude.{◌≡◌, ◌≤◌, ◌++◌, None, Some, true, length, replicate, IfOk, OnOk, vec_len, if◌then◌else◌};
ghost use Rattle.std.specs.Option.{option_copied};
ghost use Rattle.std.specs.List.{AllByRecursion, flat_map};
ghost use Rattle.field_types.specs.declared.values.Value.{Value};
ghost use Rattle.field_values.specs.FieldTypes.{IsFieldType, width, is_numeric};
ghost use Rattle.field_values.specs.FieldBytes.{held, written, filled, fault_of};
ghost use Rattle.file_model.specs.Views.{field_image, field_value, view_of, written_as, piece_of};
ghost use Rattle.view_rules.specs.Shown.{HasShown, HasValue, IsWithin, IsTaken};
ghost use Rattle.view_rules.specs.Operands.{bytes_of, text_of, value_of, HasBytes, IsOperand, IsText};

use crate::operands::{self, Operand};
use crate::sources;
use crate::texts::{ShownText, TextBytes};
use field_types::kinds::FieldType;
use field_types::texts::Text;
use field_types::values::{Dec, Value};
use field_values::fields::{self, BLANK};
use file_model::views::{FieldSource, Piece, ViewField};
use std::alloc::{AllocError, Global};

/// The image that some fields make of a record, one after another.
pub fn view(alloc: Global, fields: &[ViewField], image: &[u8]) -> Result<Vec<u8>, AllocError>
    requires { AllByRecursion (HasShown image.now) fields.now }
    ensures { IfOk result (λ v. v.items ≡ view_of fields.now image.now) }
{
    let mut shown = Vec::new(alloc);
    for field in fields {
        show(field, image, &mut shown)?;
    }
    Ok(shown)
}

/// The value that a record shows in a field. A number takes no memory, and a text takes it once, for its bytes.
pub fn value(alloc: Global, field: &ViewField, image: &[u8]) -> Result<Value, AllocError>
    requires { HasValue image.now field.now }
    ensures { IfOk result (λ v. field_value image.now field.now ≡ Some v) }
{
    match operands::of_field(field, image) {
        Operand::Number(number) => Ok(Value::Number(number)),
        Operand::Text(text) => Ok(Value::Chars(owned(alloc, text)?)),
    }
}

/// A text with the blanks behind it, in memory of its own.
fn owned(alloc: Global, text: ShownText) -> Result<Text, AllocError>
    requires { IsText text }
    ensures { IfOk result (λ owned. owned ≡ text_of text.entry) }
{
    let mut bytes = Vec::with_capacity(alloc, text.width)?;
    show_whole(text, &mut bytes)?;
    Ok(Text::from_vec(bytes))
}

/// A text, and blanks to its width.
fn show_whole(text: ShownText, into: &mut Vec<u8>) -> Result<(), AllocError>
    requires { IsText text }
    ensures { OnOk result (into.new.items ≡ into.old.items ++ text_of text.entry) }
{
    match text.bytes {
        TextBytes::Slice(bytes) => show_text(text.width, bytes, into),
        TextBytes::Pieces(pieces, image) => show_pieces(text.width, pieces, image, into),
    }
}

/// What a field shows, behind what was shown before.
fn show(field: &ViewField, image: &[u8], into: &mut Vec<u8>) -> Result<(), AllocError>
    requires { HasShown image.now field.now }
    ensures { OnOk result (into.new.items ≡ into.old.items ++ field_image image.now field.now) }
{
    match &field.source {
        FieldSource::Copied { offset } => {
            into.extend_from_slice(sources::bytes_at(&field.ty, *offset, image))
        }
        FieldSource::Converted { from, offset } => show_converted(
            &field.ty,
            from,
            sources::bytes_at(from, *offset, image),
            into,
        ),
        FieldSource::Concatenated(pieces) => {
            show_pieces(fields::width(&field.ty), pieces.as_slice(), image, into)
        }
        FieldSource::Substring(piece) => show_text(
            fields::width(&field.ty),
            sources::bytes_of(piece, image),
            into,
        ),
    }
}

/// What a field of another type shows.
fn show_converted(
    ty: &FieldType,
    from: &FieldType,
    bytes: &[u8],
    into: &mut Vec<u8>,
) -> Result<(), AllocError>
    requires allowed { IsFieldType ty.now }
    requires also { IsFieldType from.now }
    requires room { length bytes.now ≡ width from.now }
    requires taken { IsTaken ty.now (held from.now bytes.now) }
    ensures { OnOk result (into.new.items ≡ into.old.items ++ written_as ty.now (held from.now bytes.now)) }
{
    if fields::is_numeric(from.kind) {
        show_number(ty, fields::number(from, bytes), into)
    } else {
        show_text(fields::width(ty), bytes, into)
    }
}

/// A value that fits, as a field of the type has it.
#[tactic(auto, unfolding(field_values::specs::FieldBytes::written))]
pub(crate) fn show_value(
    ty: &FieldType,
    value: &Value,
    into: &mut Vec<u8>,
) -> Result<(), AllocError>
    requires allowed { IsFieldType ty.now }
    requires fits { fault_of ty.now value.now ≡ None }
    ensures shown { OnOk result (into.new.items ≡ into.old.items ++ written ty.now value.now) }
    ensures width { OnOk result (length (written ty.now value.now) ≡ width ty.now) }
{
    match value {
        Value::Number(number) => show_number(ty, *number, into),
        Value::Chars(text) => show_text(fields::width(ty), text.as_bytes(), into),
    }
}

/// A number as a field of the type has it.
fn show_number(ty: &FieldType, number: Dec, into: &mut Vec<u8>) -> Result<(), AllocError>
    requires allowed { IsFieldType ty.now }
    requires numeric { is_numeric ty.now.kind ≡ true }
    requires fits { fault_of ty.now (Value.Number number) ≡ None }
    ensures shown { OnOk result (into.new.items ≡ into.old.items ++ written ty.now (Value.Number number)) }
    ensures width { OnOk result (length (written ty.now (Value.Number number)) ≡ width ty.now) }
{
    let mut image = [0; sources::MOST_NUMBER_BYTES];
    let field = &mut image[..fields::width(ty)];
    match fields::put(ty, &Value::Number(number), field) {
        Ok(()) => into.extend_from_slice(field),
        Err(_) => unreachable!(),
    }
}

/// A text, and blanks to this width.
fn show_text(width: usize, text: &[u8], into: &mut Vec<u8>) -> Result<(), AllocError>
    ensures { OnOk result (into.new.items ≡ into.old.items ++ filled width text.now) }
{
    into.extend_from_slice(text)?;
    show_blanks(width.saturating_sub(text.len()), into)
}

/// Pieces of a record, and blanks to this width.
fn show_pieces(
    width: usize,
    pieces: &[Piece],
    image: &[u8],
    into: &mut Vec<u8>,
) -> Result<(), AllocError>
    requires { AllByRecursion (IsWithin image.now) pieces.now }
    ensures { OnOk result (into.new.items ≡ into.old.items ++ filled width (flat_map (piece_of image.now) pieces.now)) }
{
    let mut left = width;
    for piece in pieces {
        into.extend_from_slice(sources::bytes_of(piece, image))?;
        left = left.saturating_sub(piece.length as usize);
    }
    show_blanks(left, into)
}

/// So many blanks.
fn show_blanks(count: usize, into: &mut Vec<u8>) -> Result<(), AllocError>
    ensures { OnOk result (into.new.items ≡ into.old.items ++ replicate count 0x40) }
{
    for _i in 0..count {
        into.push(BLANK)?;
    }
    Ok(())
}
