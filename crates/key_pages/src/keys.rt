//! The bytes of a key. Entries, in `entries.rt`, hold one each.

use field_types::byte_lists::ByteList;

/// The use of a [`Key`].
#[derive(Clone, Copy)]
pub struct OfKey;

/// The bytes of a key as an access path orders them.
pub type Key = ByteList<OfKey>;
