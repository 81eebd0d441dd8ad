//! Another record with a key.
ghost use Rattle.std.specs.Prelude.{◌≡◌, if◌then◌else◌, Some, None, nat_eq};
ghost use Rattle.std.specs.Option.{option_copied};
ghost use Rattle.key_order.specs.Position.{next_entry, IsOn};
ghost use Rattle.access_path.specs.Clash.{lesser, other_number, least_other, with_key};

use key_order::key_pages::{Entry, EntryRef, Pages, Position};

/// The least number of another record that has the key.
pub(crate) fn least_other(pages: &Pages, key: &[u8], rrn: u32) -> Option<u32>
    ensures { result ≡ least_other key.now rrn pages.now.entries }
{
    pages.in_order();
    let mut least = None;
    let mut from = Position::Before(key);
    while let Some(entry) = next_with_key(pages, &from, key) {
        least = lesser(least, entry, rrn);
        from = place_of(entry);
    }
    least
}

/// The position on an entry.
fn place_of(entry: &Entry) -> Position<'_>
    ensures { IsOn result entry.now }
{
    let EntryRef { key, format, rrn } = entry.borrowed();
    Position::On { key, format, rrn }
}

/// The next entry, where it has the key.
fn next_with_key<'a>(pages: &'a Pages, from: &Position<'_>, key: &[u8]) -> Option<&'a Entry>
    ensures { option_copied result ≡ with_key key.now (next_entry pages.now.falling from.now pages.now.entries) }
{
    let Some(entry) = pages.next_entry(from) else {
        return None;
    };
    if entry.key.as_bytes().cmp(&key).is_eq() {
        Some(entry)
    } else {
        None
    }
}

/// The lesser of a number and that of an entry with the key, unless that is this record's.
fn lesser(least: Option<u32>, entry: &Entry, rrn: u32) -> Option<u32>
    ensures { result ≡ lesser least (if nat_eq entry.now.rrn rrn then None else Some entry.now.rrn) }
{
    if entry.rrn == rrn {
        return least;
    }
    match least {
        Some(number) => Some(number.min(entry.rrn)),
        None => Some(entry.rrn),
    }
}
