//! The bytes of values that a request gives for the first positions of a key, and of those that a record has.
ghost use Rattle.std.specs.Prelude.{◌≡◌, ◌≤◌, None, ◌∷◌, [], length, vec_capacity, All};
ghost use Rattle.file_model.specs.KeyOrder.{given_key, key_value};
ghost use Rattle.access_path.below.key_order.specs.declared.widths.TheConstants.{MOST_POSITIONS};
ghost use Rattle.access_path.specs.KeyFields.{AreBytes, ArePositions, HasPosition, key_width};
ghost use Rattle.access_path.specs.GivenValues.{IsOfBytes, key_fault};
ghost use Rattle.open_position.specs.KeyValues.{values_in};
ghost use Rattle.join_rows.specs.Places.{sequence_bytes};
ghost use Rattle.open_position.specs.OpenStand.{AreGivenBytes};

use access_path::key_order::encoding::encode_into;
use access_path::key_order::given::encode_values_into;
use field_types::values::Value;
use key_spec::KeyPart;

/// The bytes of given values, in place of what `into` holds. It takes no memory.
pub(crate) fn write_given(parts: &[KeyPart], values: &[Value], into: &mut Vec<u8>)
    requires few { length parts.now ≤ MOST_POSITIONS }
    requires allowed { ArePositions parts.now }
    requires room { key_width parts.now ≤ vec_capacity into.old }
    requires good { key_fault parts.now values.now ≡ None }
    ensures bytes { AreGivenBytes parts.now into.new.items }
    ensures values { values_in parts.now into.new.items ≡ given_key parts.now values.now }
    ensures capacity { vec_capacity into.new ≡ vec_capacity into.old }
{
    are_of_bytes(values);
    encode_values_into(parts, values, into).unwrap();
}

/// The bytes of the value that a record has under JDUPSEQ, in place of what `into` holds. It takes no memory.
pub(crate) fn write_sequence(part: &KeyPart, image: &[u8], into: &mut Vec<u8>)
    requires there { HasPosition part.now image.now }
    requires room { key_width (part.now ∷ []) ≤ vec_capacity into.old }
    ensures bytes { into.new.items ≡ sequence_bytes part.now (key_value part.now image.now) }
    ensures capacity { vec_capacity into.new ≡ vec_capacity into.old }
{
    match part {
        KeyPart::Absent => into.clear(),
        KeyPart::Field { .. } => encode_into(std::slice::from_ref(part), image, into),
    }
}

/// Copies the bytes of a key, in place of what `into` holds. It takes no memory.
pub(crate) fn copy_key(key: &[u8], into: &mut Vec<u8>)
    requires { length key.now ≤ vec_capacity into.old }
    ensures bytes { into.new.items ≡ key.now }
    ensures capacity { vec_capacity into.old ≤ vec_capacity into.new }
{
    into.clear();
    into.extend_from_slice(key).unwrap();
}

/// Texts are of bytes, as the types of their slices say.
fn are_of_bytes(values: &[Value])
    ensures { All IsOfBytes values.now }
{
    for value in values {
        is_of_bytes(value);
    }
}

fn is_of_bytes(value: &Value)
    ensures { IsOfBytes value.now }
{
    match value {
        Value::Chars(text) => are_bytes(text.as_bytes()),
        Value::Number(_) => {}
    }
}

fn are_bytes(bytes: &[u8])
    ensures { AreBytes bytes.now }
{}
