//! The bytes of one position of a key, of an image's field or of a given value.
ghost use Rattle.std.specs.Prelude.{◌≡◌, ◌+◌, ◌<◌, ◌≤◌, ◌^◌, ◌++◌, None, Some, true, is_some, length, pos, unsigned_abs, vec_len, vec_capacity, if◌then◌else◌};
ghost use Rattle.field_types.specs.declared.values.Value.{Value};
ghost use Rattle.field_laws.specs.FieldTypes.{IsFieldType, width, is_numeric};
ghost use Rattle.field_laws.specs.FieldBytes.{held, as_held, fault_of, decimal, filled};
ghost use Rattle.field_laws.specs.FirstBad.{part};
ghost use Rattle.file_model.specs.KeyOrder.{absolute, key_value, given_value};
ghost use Rattle.key_order.specs.KeyBytes.{digits_of, position_bytes, turned};
ghost use Rattle.key_order.specs.KeyFields.{HasPosition, IsPosition, position_width};
ghost use Rattle.key_order.specs.GivenValues.{part_fault};

use crate::bytes::{put_blanks, put_number, put_text};
use field_laws::field_values::fields;
use field_types::kinds::FieldType;
use field_types::values::Value;
use key_spec::KeyPart;

/// The first byte of a position that is missing.
const MISSING: u8 = 0;

/// The first byte of a position with a value.
const PRESENT: u8 = 1;

/// The most bytes of a number's field.
const MOST_NUMBER_BYTES: usize = 31;

/// What an image has at a position, behind what stands there.
pub(crate) fn put_position(part: &KeyPart, image: &[u8], into: &mut Vec<u8>)
    requires there { HasPosition part.now image.now }
    requires room { vec_len into.old + position_width part.now ≤ vec_capacity into.old }
    ensures items { into.new.items ≡ into.old.items ++ position_bytes (digits_of part.now) (key_value part.now image.now) }
    ensures len { vec_len into.new ≡ vec_len into.old + position_width part.now }
    ensures capacity { vec_capacity into.new ≡ vec_capacity into.old }
{
    match part {
        KeyPart::Absent => into.push_reserved(MISSING),
        KeyPart::Field {
            ty,
            offset,
            descend,
            absval,
        } => {
            let field = bytes_of(ty, *offset, image);
            into.push_reserved(PRESENT);
            if fields::is_numeric(ty.kind) {
                put_number(ty.length, number_held(ty, *absval, field), *descend, into);
            } else {
                put_text(field, *descend, into);
            }
        }
    }
}

/// What a given value that fits is at a position, behind what stands there.
pub(crate) fn put_given(part: &KeyPart, value: &Value, into: &mut Vec<u8>)
    requires allowed { IsPosition part.now }
    requires fits { part_fault part.now value.now ≡ None }
    requires room { vec_len into.old + position_width part.now ≤ vec_capacity into.old }
    ensures items { into.new.items ≡ into.old.items ++ position_bytes (digits_of part.now) (given_value part.now value.now) }
    ensures len { vec_len into.new ≡ vec_len into.old + position_width part.now }
    ensures capacity { vec_capacity into.new ≡ vec_capacity into.old }
{
    match part {
        KeyPart::Absent => into.push_reserved(MISSING),
        KeyPart::Field {
            ty,
            descend,
            absval,
            ..
        } => {
            into.push_reserved(PRESENT);
            match value {
                Value::Number(_) => {
                    put_number(ty.length, number_given(ty, *absval, value), *descend, into);
                }
                Value::Chars(text) => put_filled(ty, text.as_bytes(), *descend, into),
            }
        }
    }
}

/// A text in the whole width of its field.
fn put_filled(ty: &FieldType, text: &[u8], descend: bool, into: &mut Vec<u8>)
    requires short { length text.now ≤ width ty.now }
    requires room { vec_len into.old + width ty.now ≤ vec_capacity into.old }
    ensures items { into.new.items ≡ into.old.items ++ turned descend (filled (width ty.now) text.now) }
    ensures len { vec_len into.new ≡ vec_len into.old + width ty.now }
    ensures capacity { vec_capacity into.new ≡ vec_capacity into.old }
{
    put_text(text, descend, into);
    put_blanks(fields::width(ty) - text.len(), descend, into);
}

/// The bytes of a field in an image.
pub(crate) fn bytes_of<'a>(ty: &FieldType, offset: u32, image: &'a [u8]) -> &'a [u8]
    requires { offset + width ty.now ≤ length image.now }
    ensures { result.now ≡ part offset (width ty.now) image.now }
{
    let from = offset as usize;
    &image[from..from + fields::width(ty)]
}

/// The units of the number that stands in a field, without its sign where that is ignored.
pub(crate) fn number_held(ty: &FieldType, absval: bool, field: &[u8]) -> i128
    requires allowed { IsFieldType ty.now }
    requires room { length field.now ≡ width ty.now }
    requires numeric { is_numeric ty.now.kind ≡ true }
    requires there { is_some (held ty.now field.now) ≡ true }
    ensures value { (v : Value) → held ty.now field.now ≡ Some v → (if absval then absolute v else v) ≡ decimal ty.now.decimals result }
    ensures small { unsigned_abs result < 10 ^ ty.now.length }
{
    counted(fields::number(ty, field).units, absval)
}

/// The units of a given number that fits, as its field holds it.
fn number_given(ty: &FieldType, absval: bool, value: &Value) -> i128
    requires allowed { IsFieldType ty.now }
    requires numeric { is_numeric ty.now.kind ≡ true }
    requires fits { fault_of ty.now value.now ≡ None }
    ensures value { (if absval then absolute (as_held ty.now value.now) else as_held ty.now value.now) ≡ decimal ty.now.decimals result }
    ensures small { unsigned_abs result < 10 ^ ty.now.length }
{
    let mut image = [0; MOST_NUMBER_BYTES];
    let field = &mut image[..fields::width(ty)];
    match fields::put(ty, value, field) {
        Ok(()) => number_held(ty, absval, field),
        Err(_) => unreachable!(),
    }
}

/// Without its sign where that is ignored.
fn counted(units: i128, absval: bool) -> i128
    requires { unsigned_abs units < 2 ^ 127 }
    ensures { result ≡ (if absval then pos (unsigned_abs units) else units) }
{
    if absval {
        units.unsigned_abs() as i128
    } else {
        units
    }
}
