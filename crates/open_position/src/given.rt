//! The positions of a key, with room for the bytes of values that a request gives for the first of them.
ghost use Rattle.std.specs.Prelude.{◌≡◌, ◌≤◌, List, None, [], length, vec_capacity, All, IfOk};
ghost use Rattle.file_model.specs.KeyOrder.{given_key};
ghost use Rattle.key_spec.specs.declared.KeyPart.{KeyPart};
ghost use Rattle.access_path.below.key_order.specs.declared.widths.TheConstants.{MOST_POSITIONS};
ghost use Rattle.access_path.specs.KeyFields.{AreBytes, ArePositions, key_width};
ghost use Rattle.access_path.specs.GivenValues.{IsOfBytes, key_fault};
ghost use Rattle.key_values.specs.KeyValues.{values_in};
ghost use Rattle.open_position.specs.OpenStand.{AreGivenBytes};

use access_path::key_order::given::encode_values_into;
use access_path::key_order::widths::bound;
use field_types::values::Value;
use key_spec::{KeyPart, KeyParts};
use key_values::laws::given_keys_are_read_back;
use std::alloc::{AllocError, Global};
use std::marker::Model;

/// The positions of the key, and the bytes of the values that were given last.
#[derive(Drop)]
pub(crate) struct GivenKey {
    parts: KeyParts,
    bytes: Vec<u8>,
}

impl Model for GivenKey {
    ghost use Rattle.std.specs.Prelude.{vec_capacity};
    ghost use Rattle.open_position.specs.Kept.{KeyGiven, IsGivenKey};

    ghost Value = { KeyGiven };

    ghost view = { λ k. record { parts = k.parts; bytes = k.bytes.items } };

    ghost invariant = { λ k. IsGivenKey k.parts (vec_capacity k.bytes) };
}

impl GivenKey {
    /// With room for the bytes of any values, of which none are given yet.
    pub(crate) fn new(alloc: Global, parts: KeyParts) -> Result<GivenKey, AllocError>
        requires few { length parts ≤ MOST_POSITIONS }
        requires allowed { ArePositions parts }
        ensures { IfOk result (λ key. key ≡ record { parts = parts; bytes = [] }) }
    {
        let bytes = Vec::with_capacity(alloc, bound(parts.as_slice()))?;
        Ok(GivenKey { parts, bytes })
    }

    /// The positions of the key.
    pub(crate) fn parts(&self) -> &[KeyPart]
        ensures parts { result.now ≡ self.now.parts }
        ensures few { length self.now.parts ≤ MOST_POSITIONS }
        ensures allowed { ArePositions self.now.parts }
    {
        self.parts.as_slice()
    }

    /// Has the bytes of given values in place of those that were given before. It takes no memory.
    pub(crate) fn give(&mut self, values: &[Value])
        requires { key_fault self.old.parts values.now ≡ None }
        ensures parts { self.new.parts ≡ self.old.parts }
        ensures bytes { (parts : List KeyPart) → self.old.parts ≡ parts → AreGivenBytes parts self.new.bytes }
        ensures values { (parts : List KeyPart) → self.old.parts ≡ parts → values_in parts self.new.bytes ≡ given_key parts values.now }
    {
        write_given(self.parts.as_slice(), values, &mut self.bytes);
    }

    /// The bytes of the values that were given last.
    pub(crate) fn bytes(&self) -> &[u8]
        ensures { result.now ≡ self.now.bytes }
    {
        self.bytes.as_slice()
    }
}

/// The bytes of given values, in place of what `into` holds. It takes no memory.
fn write_given(parts: &[KeyPart], values: &[Value], into: &mut Vec<u8>)
    requires few { length parts.now ≤ MOST_POSITIONS }
    requires allowed { ArePositions parts.now }
    requires room { key_width parts.now ≤ vec_capacity into.old }
    requires good { key_fault parts.now values.now ≡ None }
    ensures bytes { AreGivenBytes parts.now into.new.items }
    ensures values { values_in parts.now into.new.items ≡ given_key parts.now values.now }
    ensures capacity { vec_capacity into.new ≡ vec_capacity into.old }
{
    given_keys_are_read_back();
    are_of_bytes(values);
    encode_values_into(parts, values, into).unwrap();
}

/// Texts are of bytes, as the types of their slices say.
fn are_of_bytes(values: &[Value])
    ensures { All IsOfBytes values.now }
{
    for value in values {
        is_of_bytes(value);
    }
}

fn is_of_bytes(value: &Value)
    ensures { IsOfBytes value.now }
{
    match value {
        Value::Chars(text) => are_bytes(text.as_bytes()),
        Value::Number(_) => {}
    }
}

fn are_bytes(bytes: &[u8])
    ensures { AreBytes bytes.now }
{}
