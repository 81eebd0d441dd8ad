//! Bytes and numbers under the fields of a view.
ghost use Rattle.std.specs.Prelude.{◌≡◌, ◌+◌, ◌≤◌, None, Some, true, is_some, length};
ghost use Rattle.field_types.specs.declared.values.Value.{Value};
ghost use Rattle.field_values.specs.FieldTypes.{IsFieldType, width, is_numeric};
ghost use Rattle.field_values.specs.FieldBytes.{held, written, fault_of};
ghost use Rattle.field_values.specs.FirstBad.{part};
ghost use Rattle.file_model.specs.Views.{piece_of};
ghost use Rattle.view_rules.specs.Shown.{IsWithin};

use field_types::kinds::FieldType;
use field_types::values::{Dec, Value};
use field_values::fields;
use file_model::views::Piece;

/// The most bytes of a number's field.
pub(crate) const MOST_NUMBER_BYTES: usize = 31;

/// The bytes of a field in an image.
pub(crate) fn bytes_at<'a>(ty: &FieldType, offset: u32, image: &'a [u8]) -> &'a [u8]
    requires { offset + width ty.now ≤ length image.now }
    ensures bytes { result.now ≡ part offset (width ty.now) image.now }
    ensures length { length result.now ≡ width ty.now }
{
    let from = offset as usize;
    &image[from..from + fields::width(ty)]
}

/// The bytes of a piece of an image.
pub(crate) fn bytes_of<'a>(piece: &Piece, image: &'a [u8]) -> &'a [u8]
    requires { IsWithin image.now piece.now }
    ensures bytes { result.now ≡ piece_of image.now piece.now }
    ensures length { length result.now ≡ piece.now.length }
{
    let from = piece.offset as usize;
    &image[from..from + piece.length as usize]
}

/// The number as a field of the type holds it.
pub(crate) fn converted(ty: &FieldType, number: Dec) -> Dec
    requires allowed { IsFieldType ty.now }
    requires numeric { is_numeric ty.now.kind ≡ true }
    requires fits { fault_of ty.now (Value.Number number) ≡ None }
    requires there { is_some (held ty.now (written ty.now (Value.Number number))) ≡ true }
    ensures { held ty.now (written ty.now (Value.Number number)) ≡ Some (Value.Number result) }
{
    let mut image = [0; MOST_NUMBER_BYTES];
    let field = &mut image[..fields::width(ty)];
    match fields::put(ty, &Value::Number(number), field) {
        Ok(()) => fields::number(ty, field),
        Err(_) => unreachable!(),
    }
}
