//! The order of the keys of two images, from the images alone.
ghost use Rattle.std.specs.Prelude.{◌≡◌, Some, true, is_some, length, if◌then◌else◌};
ghost use Rattle.field_types.specs.declared.values.Value.{Value};
ghost use Rattle.field_laws.specs.FieldTypes.{IsFieldType, width};
ghost use Rattle.field_laws.specs.FieldBytes.{held};
ghost use Rattle.file_model.specs.KeyOrder.{absolute, compare_values, compare_key_values, compare_keys, key_value, key_of};
ghost use Rattle.key_order.specs.KeyFields.{HasPosition, HasKey};

use crate::positions::{bytes_of, number_held};
use field_laws::field_values::fields;
use field_types::kinds::FieldType;
use key_spec::KeyPart;
use std::cmp::Ordering;

/// Compares the keys of two images. It takes no memory.
pub fn compare(parts: &[KeyPart], a: &[u8], b: &[u8]) -> Ordering
    requires first { HasKey parts.now a.now }
    requires second { HasKey parts.now b.now }
    ensures { result ≡ compare_keys (key_of parts.now a.now) (key_of parts.now b.now) }
{
    for part in parts {
        let order = compare_positions(part, a, b);
        if order != Ordering::Equal {
            return order;
        }
    }
    Ordering::Equal
}

/// Compares what two images have at one position.
fn compare_positions(part: &KeyPart, a: &[u8], b: &[u8]) -> Ordering
    requires first { HasPosition part.now a.now }
    requires second { HasPosition part.now b.now }
    ensures { result ≡ compare_key_values (key_value part.now a.now) (key_value part.now b.now) }
{
    match part {
        KeyPart::Absent => Ordering::Equal,
        KeyPart::Field {
            ty,
            offset,
            descend,
            absval,
        } => {
            let order = compare_fields(
                ty,
                *absval,
                bytes_of(ty, *offset, a),
                bytes_of(ty, *offset, b),
            );
            if *descend { order.reverse() } else { order }
        }
    }
}

/// Compares the values of two fields.
fn compare_fields(ty: &FieldType, absval: bool, a: &[u8], b: &[u8]) -> Ordering
    requires allowed { IsFieldType ty.now }
    requires room { length a.now ≡ width ty.now }
    requires also { length b.now ≡ width ty.now }
    requires first { is_some (held ty.now a.now) ≡ true }
    requires second { is_some (held ty.now b.now) ≡ true }
    ensures { (v w : Value) → held ty.now a.now ≡ Some v → held ty.now b.now ≡ Some w
        → result ≡ compare_values (if absval then absolute v else v) (if absval then absolute w else w) }
{
    if fields::is_numeric(ty.kind) {
        number_held(ty, absval, a).cmp(&number_held(ty, absval, b))
    } else {
        a.cmp(b)
    }
}
