//! The records of a secondary file that a row is joined to, one after another: the entries of the file's path whose keys
//! begin with the bytes that `wanted.rt` gives. No call here needs memory, and each is one binary search.
ghost use Rattle.std.specs.Prelude.{◌≡◌, length, take};
ghost use Rattle.std.specs.Option.{option_copied};
ghost use Rattle.std.specs.Ordering.{is_eq};
ghost use Rattle.join_rows.specs.Search.{compare_part, next_match, prior_match, last_match};

use access_path::path::Path;
use key_pages::{Entry, Position};

/// The first entry after this key and number whose key begins with `part`, as `key` does. After no number but 0 comes
/// each that has the key.
pub fn next_match<'a>(path: &'a Path, part: &[u8], key: &[u8], rrn: u32) -> Option<&'a Entry>
    requires { take (length part.now) key.now ≡ part.now }
    ensures { option_copied result ≡ next_match path.now.falling part.now key.now rrn path.now.entries }
{
    let pages = path.pages();
    pages.in_order();
    let Some(entry) = pages.next_entry(&Position::On {
        key,
        format: 0,
        rrn,
    }) else {
        return None;
    };
    if begins_with(entry.key.as_bytes(), part) {
        Some(entry)
    } else {
        None
    }
}

/// The last entry before this key and number whose key begins with `part`, as `key` does.
pub fn prior_match<'a>(path: &'a Path, part: &[u8], key: &[u8], rrn: u32) -> Option<&'a Entry>
    requires { take (length part.now) key.now ≡ part.now }
    ensures { option_copied result ≡ prior_match path.now.falling part.now key.now rrn path.now.entries }
{
    let pages = path.pages();
    pages.in_order();
    let Some(entry) = pages.prior_entry(&Position::On {
        key,
        format: 0,
        rrn,
    }) else {
        return None;
    };
    if begins_with(entry.key.as_bytes(), part) {
        Some(entry)
    } else {
        None
    }
}

/// The last entry whose key begins with `part`.
pub fn last_match<'a>(path: &'a Path, part: &[u8]) -> Option<&'a Entry>
    ensures { option_copied result ≡ last_match part.now path.now.entries }
{
    let pages = path.pages();
    pages.in_order();
    let Some(entry) = pages.prior_entry(&Position::Past(part)) else {
        return None;
    };
    if begins_with(entry.key.as_bytes(), part) {
        Some(entry)
    } else {
        None
    }
}

fn begins_with(key: &[u8], part: &[u8]) -> bool
    ensures { result ≡ is_eq (compare_part part.now key.now) }
{
    let length = key.len().min(part.len());
    (&key[..length]).cmp(&part).is_eq()
}
