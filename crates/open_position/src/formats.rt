//! The positions of the key in the formats of a path, each for itself and all together.
ghost use Rattle.std.specs.Prelude.{◌≡◌, map, slice_get, IfOk};
ghost use Rattle.file_model.specs.KeyOrder.{either_part, either_parts, merged_parts};
ghost use Rattle.open_position.specs.Kept.{either_at};

use file_model::paths::PathFormat;
use key_spec::{KeyPart, KeyParts};
use std::alloc::{AllocError, Global};

/// Those of each format, in memory of their own.
pub(crate) fn keys_of(alloc: Global, formats: &[PathFormat]) -> Result<Vec<KeyParts>, AllocError>
    ensures { IfOk result (λ keys. keys.items ≡ map (λ format. format.key) formats.now) }
{
    let mut keys = Vec::new(alloc);
    for format in formats {
        keys.push(format.key.copied(alloc)?)?;
    }
    Ok(keys)
}

/// All together: at each place that of the first format which has one.
pub(crate) fn merged_parts(alloc: Global, formats: &[PathFormat]) -> Result<KeyParts, AllocError>
    ensures { IfOk result (λ parts. parts ≡ merged_parts (map (λ format. format.key) formats.now)) }
{
    let mut merged = KeyParts::new(alloc);
    let mut left = formats.len();
    while left > 0 {
        left -= 1;
        let parts = formats[left].key.as_slice();
        let more = either_parts(alloc, parts, merged.as_slice())?;
        merged = more;
    }
    Ok(merged)
}

/// The positions of two formats together.
fn either_parts(
    alloc: Global,
    parts: &[KeyPart],
    others: &[KeyPart],
) -> Result<KeyParts, AllocError>
    ensures { IfOk result (λ made. made ≡ either_parts parts.now others.now) }
{
    let mut made = KeyParts::new(alloc);
    for place in 0..parts.len().max(others.len()) {
        made.push(either_at(parts, others, place))?;
    }
    Ok(made)
}

/// That at a place, counted from 0, of the first which has one.
fn either_at(parts: &[KeyPart], others: &[KeyPart], place: usize) -> KeyPart
    ensures { result ≡ either_at (slice_get parts.now place) (slice_get others.now place) }
{
    match (parts.get(place), others.get(place)) {
        (Some(part), Some(other)) => either_part(*part, *other),
        (Some(part), None) => *part,
        (None, Some(other)) => *other,
        (None, None) => KeyPart::Absent,
    }
}

/// The first, where its format has it.
fn either_part(part: KeyPart, other: KeyPart) -> KeyPart
    ensures { result ≡ either_part part other }
{
    match part {
        KeyPart::Field { .. } => part,
        KeyPart::Absent => other,
    }
}
