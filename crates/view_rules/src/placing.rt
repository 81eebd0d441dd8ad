//! Values put into their places in a record of the base file.
ghost use Rattle.std.specs.Prelude.{◌≡◌, ◌+◌, ◌≤◌, None, length};
ghost use Rattle.std.specs.List.{AllByRecursion};
ghost use Rattle.field_types.specs.declared.values.Value.{Value};
ghost use Rattle.field_values.specs.FieldTypes.{IsFieldType, width};
ghost use Rattle.field_values.specs.FieldBytes.{written, filled, fault_of};
ghost use Rattle.file_model.specs.Views.{put_at, put_pieces, put_value, pieces_length, stored_type, character};
ghost use Rattle.view_rules.specs.Stored.{HasPlace, EndsWithin};

use field_types::kinds::FieldType;
use field_types::values::Value;
use field_values::fields::{self, BLANK};
use file_model::views::{FieldSource, Piece, ViewField};

/// Puts a value that fits into its place; one of a substring is stored nowhere.
pub(crate) fn put_value(field: &ViewField, value: &Value, image: &mut [u8])
    requires allowed { IsFieldType (stored_type field.now.ty field.now.source) }
    requires place { HasPlace (length image.old) field.now.ty field.now.source }
    requires fits { fault_of (stored_type field.now.ty field.now.source) value.now ≡ None }
    ensures { image.new ≡ put_value field.now.ty field.now.source value.now image.old }
{
    match &field.source {
        FieldSource::Copied { offset } => put_at(&field.ty, value, *offset, image),
        FieldSource::Converted { from, offset } => put_at(from, value, *offset, image),
        FieldSource::Concatenated(pieces) => put_pieces(pieces.as_slice(), value, image),
        FieldSource::Substring(_) => {}
    }
}

/// Puts a value into its field of the record.
fn put_at(ty: &FieldType, value: &Value, offset: u32, image: &mut [u8])
    requires allowed { IsFieldType ty.now }
    requires room { offset + width ty.now ≤ length image.old }
    requires fits { fault_of ty.now value.now ≡ None }
    ensures { image.new ≡ put_at offset (written ty.now value.now) image.old }
{
    let from = offset as usize;
    let end = from + fields::width(ty);
    match fields::put(ty, value, &mut image[from..end]) {
        Ok(()) => {}
        Err(_) => unreachable!(),
    }
}

/// Splits a text that fits over pieces of the record.
fn put_pieces(pieces: &[Piece], value: &Value, image: &mut [u8])
    requires place { AllByRecursion (EndsWithin (length image.old)) pieces.now }
    requires fits { fault_of (character (pieces_length pieces.now)) value.now ≡ None }
    ensures { image.new ≡ put_pieces pieces.now (written (character (pieces_length pieces.now)) value.now) image.old }
{
    match value {
        Value::Chars(text) => split(pieces, text.as_bytes(), image),
        Value::Number(_) => unreachable!(),
    }
}

/// Splits a text over pieces of the record, with blanks behind it.
fn split(pieces: &[Piece], text: &[u8], image: &mut [u8])
    requires place { AllByRecursion (EndsWithin (length image.old)) pieces.now }
    requires room { length text.now ≤ pieces_length pieces.now }
    ensures { image.new ≡ put_pieces pieces.now (filled (pieces_length pieces.now) text.now) image.old }
{
    let mut rest = text;
    for piece in pieces {
        let (front, back) = rest.split_at(rest.len().min(piece.length as usize));
        put_piece(piece, front, image);
        rest = back;
    }
}

/// Puts a text into a piece of the record, with blanks behind it.
fn put_piece(piece: &Piece, text: &[u8], image: &mut [u8])
    requires place { EndsWithin (length image.old) piece.now }
    requires room { length text.now ≤ piece.now.length }
    ensures { image.new ≡ put_at piece.now.offset (filled piece.now.length text.now) image.old }
{
    let from = piece.offset as usize;
    let end = from + piece.length as usize;
    fill(text, &mut image[from..end]);
}

/// A text, and blanks behind it.
fn fill(text: &[u8], into: &mut [u8])
    requires { length text.now ≤ length into.old }
    ensures { into.new ≡ filled (length into.old) text.now }
{
    let (front, blanks) = into.split_at_mut(text.len());
    front.copy_from_slice(text);
    blanks.fill(BLANK);
}
