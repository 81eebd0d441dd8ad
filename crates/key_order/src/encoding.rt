//! The bytes of the key of an image.
ghost use Rattle.std.specs.Prelude.{◌≡◌, ◌≤◌, IfOk, length, vec_capacity};
ghost use Rattle.key_order.specs.KeyBytes.{encoded};
ghost use Rattle.key_order.specs.KeyFields.{HasKey, key_width};

use crate::positions::put_position;
use crate::widths::{MOST_POSITIONS, bound};
use key_pages::Key;
use key_spec::KeyPart;
use std::alloc::{AllocError, Global};

/// The key of an image, in memory of its own.
pub fn encode(alloc: Global, parts: &[KeyPart], image: &[u8]) -> Result<Key, AllocError>
    requires few { length parts.now ≤ MOST_POSITIONS }
    requires there { HasKey parts.now image.now }
    ensures { IfOk result (λ key. key ≡ encoded parts.now image.now) }
{
    let mut bytes = Vec::with_capacity(alloc, bound(parts))?;
    encode_into(parts, image, &mut bytes);
    Ok(Key::from_vec(bytes))
}

/// The key of an image, in place of what `into` holds. It takes no memory.
pub fn encode_into(parts: &[KeyPart], image: &[u8], into: &mut Vec<u8>)
    requires there { HasKey parts.now image.now }
    requires room { key_width parts.now ≤ vec_capacity into.old }
    ensures key { into.new.items ≡ encoded parts.now image.now }
    ensures capacity { vec_capacity into.new ≡ vec_capacity into.old }
{
    into.clear();
    for part in parts {
        put_position(part, image, into);
    }
}
