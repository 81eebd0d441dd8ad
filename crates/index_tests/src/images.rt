//! Whether the fields of a key lie within an image, with a value in each, as the calls that take images ask.
ghost use Rattle.std.specs.Prelude.{IsTrue};
ghost use Rattle.key_order.specs.KeyFields.{ArePositions, HasField, HasKey, HasPosition, IsPosition};

use field_types::kinds::FieldType;
use field_values::fields;
use key_spec::KeyPart;

/// Whether the field lies within the image, which stands there for a value.
pub(crate) fn has_field(ty: &FieldType, offset: u32, image: &[u8]) -> bool
    ensures { IsTrue result → HasField ty.now offset image.now }
{
    let from = offset as usize;
    if !fields::is_allowed(ty) || from > image.len() {
        return false;
    }
    let rest = &image[from..];
    let width = fields::width(ty);
    if width > rest.len() {
        return false;
    }
    match fields::first_bad(ty, &rest[..width]) {
        None => true,
        Some(_) => false,
    }
}

fn has_position(part: &KeyPart, image: &[u8]) -> bool
    ensures { IsTrue result → HasPosition part.now image.now }
{
    match part {
        KeyPart::Field { ty, offset, .. } => has_field(ty, *offset, image),
        KeyPart::Absent => true,
    }
}

/// Whether each key field lies within the image, which stands there for a value.
pub(crate) fn has_key(parts: &[KeyPart], image: &[u8]) -> bool
    ensures { IsTrue result → HasKey parts.now image.now }
{
    for part in parts {
        if !has_position(part, image) {
            return false;
        }
    }
    true
}

fn is_position(part: &KeyPart) -> bool
    ensures { IsTrue result → IsPosition part.now }
{
    match part {
        KeyPart::Field { ty, .. } => fields::is_allowed(ty),
        KeyPart::Absent => true,
    }
}

/// Whether each key field is of a type that a data description can give.
pub(crate) fn are_positions(parts: &[KeyPart]) -> bool
    ensures { IsTrue result → ArePositions parts.now }
{
    for part in parts {
        if !is_position(part) {
            return false;
        }
    }
    true
}
