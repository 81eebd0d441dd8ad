//! How many bytes a key has.
ghost use Rattle.std.specs.Prelude.{◌≡◌, ◌+◌, ◌≤◌, ◌<◌, ℕ, List, None, length};
ghost use Rattle.field_types.specs.declared.values.Value.{Value};
ghost use Rattle.field_laws.specs.FieldTypes.{packed_width};
ghost use Rattle.key_order.specs.KeyBytes.{encoded, encoded_values};
ghost use Rattle.key_order.specs.KeyFields.{HasKey, value_width, position_width, key_width};
ghost use Rattle.key_order.specs.GivenValues.{key_fault};

use field_types::kinds::{FieldType, Kind};
use key_spec::KeyPart;

/// The most positions of a key.
pub const MOST_POSITIONS: usize = 65_535;

/// The bytes of the key of an image, which no key that a request gives passes.
pub fn bound(parts: &[KeyPart]) -> usize
    requires { length parts.now ≤ MOST_POSITIONS }
    ensures width { result ≡ key_width parts.now }
    ensures images { (image : List ℕ) → HasKey parts.now image → length (encoded parts.now image) ≡ result }
    ensures values { (values : List Value) → key_fault parts.now values ≡ None → length (encoded_values parts.now values) ≤ result }
{
    let mut width = 0;
    for part in parts {
        width += position_width(part);
    }
    width
}

/// The bytes of one position.
fn position_width(part: &KeyPart) -> usize
    ensures width { result ≡ position_width part.now }
    ensures few { result ≤ 65_536 }
{
    match part {
        KeyPart::Field { ty, .. } => 1 + value_width(ty),
        KeyPart::Absent => 1,
    }
}

/// The bytes of a value behind the first byte of its position.
pub(crate) fn value_width(ty: &FieldType) -> usize
    ensures width { result ≡ value_width ty.now }
    ensures few { result ≤ 65_535 }
{
    match ty.kind {
        Kind::Zoned | Kind::Packed | Kind::Binary => number_width(ty.length),
        Kind::Char | Kind::Date | Kind::Time | Kind::Stamp => usize::from(ty.length),
    }
}

/// The bytes of a number of so many digits.
pub(crate) fn number_width(digits: u16) -> usize
    ensures width { result ≡ packed_width digits }
    ensures few { result ≤ 32_768 }
{
    usize::from(digits) / 2 + 1
}
