//! Values that are given have texts of bytes.
ghost use Rattle.std.specs.Prelude.{All};
ghost use Rattle.access_path.specs.GivenValues.{IsOfBytes};
ghost use Rattle.access_path.specs.KeyFields.{AreBytes};

use field_types::values::Value;

/// Texts are of bytes, as the types of their slices say.
pub(crate) fn are_of_bytes(values: &[Value])
    ensures { All IsOfBytes values.now }
{
    for value in values {
        is_of_bytes(value);
    }
}

fn is_of_bytes(value: &Value)
    ensures { IsOfBytes value.now }
{
    match value {
        Value::Chars(text) => are_bytes(text.as_bytes()),
        Value::Number(_) => {}
    }
}

/// A slice of bytes is of bytes.
pub(crate) fn are_bytes(bytes: &[u8])
    ensures { AreBytes bytes.now }
{}
