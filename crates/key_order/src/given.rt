//! The bytes of the values that a request gives for the first positions of a key.
ghost use Rattle.std.specs.Prelude.{◌≡◌, ◌+◌, ◌<◌, ◌≤◌, ◌↔◌, Some, None, IfOk, OnOk, OnErr, IsErrOf, length, vec_capacity};
ghost use Rattle.std.specs.Result.{result_err};
ghost use Rattle.field_types.specs.declared.faults.RecordFault.{RecordFault};
ghost use Rattle.key_order.specs.KeyBytes.{encoded_values};
ghost use Rattle.key_order.specs.KeyFields.{ArePositions, IsPosition, key_width};
ghost use Rattle.key_order.specs.GivenValues.{part_fault, key_fault};

use crate::positions::put_given;
use crate::widths::{MOST_POSITIONS, bound};
use field_laws::field_values::fields;
use field_types::faults::{RecordFault, ValueFault};
use field_types::values::Value;
use key_pages::Key;
use key_spec::KeyPart;
use std::alloc::{AllocError, Global};

/// Why there is no key.
#[derive(Clone, Copy, PartialEq)]
pub enum KeyFault {
    /// The values are none of the key.
    Refused(RecordFault),
    NoMemory,
}

impl From<AllocError> for KeyFault {
    ghost use Rattle.key_order.specs.declared.given.KeyFault.TheVariants.{NoMemory};

    ghost from_gives = { λ _ e. e ≡ NoMemory };

    fn from(_e: AllocError) -> KeyFault {
        KeyFault::NoMemory
    }
}

/// The bytes of the given values, in memory of their own.
pub fn encode_values(alloc: Global, parts: &[KeyPart], values: &[Value]) -> Result<Key, KeyFault>
    requires few { length parts.now ≤ MOST_POSITIONS }
    requires allowed { ArePositions parts.now }
    ensures key { IfOk result (λ key. key ≡ encoded_values parts.now values.now) }
    ensures refused { (fault : RecordFault) → IsErrOf result (KeyFault.Refused fault) ↔ (key_fault parts.now values.now ≡ Some fault) }
{
    if let Some(fault) = key_fault(parts, values) {
        return Err(KeyFault::Refused(fault));
    }
    let mut bytes = Vec::with_capacity(alloc, bound(parts))?;
    put_values(parts, values, &mut bytes);
    Ok(Key::from_vec(bytes))
}

/// The bytes of the given values, in place of what `into` holds. It takes no memory.
pub fn encode_values_into(
    parts: &[KeyPart],
    values: &[Value],
    into: &mut Vec<u8>,
) -> Result<(), RecordFault>
    requires few { length parts.now ≤ MOST_POSITIONS }
    requires allowed { ArePositions parts.now }
    requires room { key_width parts.now ≤ vec_capacity into.old }
    ensures key { OnOk result (into.new.items ≡ encoded_values parts.now values.now) }
    ensures refused { result_err result ≡ key_fault parts.now values.now }
    ensures unchanged { OnErr result (into.new.items ≡ into.old.items) }
    ensures capacity { vec_capacity into.new ≡ vec_capacity into.old }
{
    match key_fault(parts, values) {
        Some(fault) => Err(fault),
        None => {
            put_values(parts, values, into);
            Ok(())
        }
    }
}

/// The bytes of given values that fit, in place of what `into` holds.
fn put_values(parts: &[KeyPart], values: &[Value], into: &mut Vec<u8>)
    requires allowed { ArePositions parts.now }
    requires fit { key_fault parts.now values.now ≡ None }
    requires room { key_width parts.now ≤ vec_capacity into.old }
    ensures key { into.new.items ≡ encoded_values parts.now values.now }
    ensures capacity { vec_capacity into.new ≡ vec_capacity into.old }
{
    into.clear();
    for i in 0..values.len() {
        put_given(&parts[i], &values[i], into);
    }
}

/// Why the values are none of the key: there are too many, or one doesn't fit its position.
pub fn key_fault(parts: &[KeyPart], values: &[Value]) -> Option<RecordFault>
    requires few { length parts.now ≤ MOST_POSITIONS }
    requires allowed { ArePositions parts.now }
    ensures { result ≡ key_fault parts.now values.now }
{
    if values.len() > parts.len() {
        return Some(RecordFault::Count);
    }
    for i in 0..values.len() {
        if let Some(cause) = part_fault(&parts[i], &values[i]) {
            return Some(bad_value(i, cause));
        }
    }
    None
}

/// Why a value doesn't fit a position.
fn part_fault(part: &KeyPart, value: &Value) -> Option<ValueFault>
    requires { IsPosition part.now }
    ensures { result ≡ part_fault part.now value.now }
{
    match part {
        KeyPart::Field { ty, .. } => fields::fault(ty, value),
        KeyPart::Absent => Some(ValueFault::WrongKind),
    }
}

fn bad_value(i: usize, cause: ValueFault) -> RecordFault
    requires { i < MOST_POSITIONS }
    ensures { result ≡ RecordFault.BadField (i + 1) cause }
{
    RecordFault::BadField {
        field: i as u16 + 1,
        cause,
    }
}
