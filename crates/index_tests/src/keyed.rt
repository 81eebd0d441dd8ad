//! Key fields, and the keys of images and of given values. `keys.rt` and `heads.rt` compare them.
use crate::given_rows::Given;
use crate::images::{are_positions, has_key};
use crate::key_rows::Keywords;
use field_types::kinds::{FieldType, Kind};
use field_types::texts::Text;
use field_types::values::{Dec, Value};
use key_order::encoding::encode;
use key_order::given::{KeyFault, encode_values};
use key_order::widths::MOST_POSITIONS;
use key_pages::Key;
use key_spec::KeyPart;
use std::alloc::{AllocError, Global};
use std::process::Abort;

/// A key field at this place of the record.
pub(crate) fn part_at(
    kind: Kind,
    length: u16,
    decimals: u8,
    offset: u32,
    keywords: Keywords,
) -> KeyPart {
    KeyPart::Field {
        ty: FieldType {
            kind,
            length,
            decimals,
        },
        offset,
        descend: matches!(keywords, Keywords::Descend | Keywords::Both),
        absval: matches!(keywords, Keywords::Absval | Keywords::Both),
    }
}

/// The bytes that are written in hex.
pub(crate) fn in_hex(alloc: Global, text: &str) -> Result<Vec<u8>, AllocError> {
    hex::decode(alloc, text).map_err(|_| AllocError)
}

/// The key of an image.
pub(crate) fn key_of(
    rt: &impl Abort,
    alloc: Global,
    parts: &[KeyPart],
    image: &[u8],
) -> Result<Key, AllocError> {
    assert!(rt; parts.len() <= MOST_POSITIONS);
    assert!(rt; has_key(parts, image), "{image:?}");
    encode(alloc, parts, image)
}

fn value_of(alloc: Global, given: Given) -> Result<Value, AllocError> {
    match given {
        Given::Text(text) => Ok(Value::Chars(Text::from_vec(in_hex(alloc, text)?))),
        Given::Number(units, scale) => Ok(Value::Number(Dec { units, scale })),
    }
}

fn values_of(alloc: Global, given: &[Given]) -> Result<Vec<Value>, AllocError> {
    let mut values = Vec::new(alloc);
    for value in given {
        values.push(value_of(alloc, *value)?)?;
    }
    Ok(values)
}

/// The key of values that are given for the first positions.
pub(crate) fn given_key(
    rt: &impl Abort,
    alloc: Global,
    parts: &[KeyPart],
    given: &[Given],
) -> Result<Key, KeyFault> {
    let values = values_of(alloc, given)?;
    assert!(rt; parts.len() <= MOST_POSITIONS);
    assert!(rt; are_positions(parts));
    encode_values(alloc, parts, &values)
}
