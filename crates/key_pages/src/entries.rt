//! An entry of an access path, and the order of entries. Lists of them are in `list.rt`.

ghost use Rattle.std.specs.Prelude.{◌≡◌, ◌↔◌, length, IfOk, IfErr, IsTrue};
ghost use Rattle.std.specs.List.Sorted.{IsSearchInRange};
ghost use Rattle.key_pages.specs.Order.{entry_cmp, IsInOrder};
ghost use Rattle.key_pages.specs.EntryList.{entry_of};
ghost use Rattle.key_pages.specs.Search.{IsAt, IsGapFor};

use crate::keys::Key;
use std::cmp::Ordering;
use std::collections::VecDeque;

/// What an access path has of a record: its key, the number of its record format within the file, and its relative
/// record number.
#[derive(Drop)]
pub struct Entry {
    pub key: Key,
    pub format: u16,
    pub rrn: u32,
}

/// What an entry has, with a key that is kept elsewhere. It takes no memory.
#[derive(Clone, Copy)]
pub struct EntryRef<'a> {
    pub key: &'a [u8],
    pub format: u16,
    pub rrn: u32,
}

impl Entry {
    pub fn borrowed(&self) -> EntryRef<'_>
        ensures { entry_of result ≡ self.now }
    {
        EntryRef {
            key: self.key.as_bytes(),
            format: self.format,
            rrn: self.rrn,
        }
    }
}

/// By key, then by format, then by ties.
pub(crate) fn compare(entry: &Entry, key: &[u8], format: u16, rrn: u32, falling: bool) -> Ordering
    ensures { result ≡ entry_cmp falling entry.now (record { key = key.now; format = format; rrn = rrn }) }
{
    let ties = if falling {
        rrn.cmp(&entry.rrn)
    } else {
        entry.rrn.cmp(&rrn)
    };
    entry
        .key
        .as_bytes()
        .cmp(&key)
        .then(entry.format.cmp(&format).then(ties))
}

/// Whether each entry is less than the next one, as `Pages::fill` asks.
pub fn are_in_order(entries: &[Entry], falling: bool) -> bool
    ensures { IsTrue result ↔ IsInOrder falling entries.now }
{
    for later in 1..entries.len() {
        let EntryRef { key, format, rrn } = entries[later].borrowed();
        if !compare(&entries[later - 1], key, format, rrn, falling).is_lt() {
            return false;
        }
    }
    true
}

/// Where the entry is, or where it would go.
pub(crate) fn find(
    entries: &VecDeque<Entry>,
    entry: &EntryRef<'_>,
    falling: bool,
) -> Result<usize, usize>
    requires { IsInOrder falling entries.now.items }
    ensures within { IsSearchInRange result (length entries.now.items) }
    ensures found { IfOk result (IsAt falling (entry_of entry.now) entries.now.items) }
    ensures absent { IfErr result (IsGapFor falling (entry_of entry.now) entries.now.items) }
{
    let EntryRef { key, format, rrn } = *entry;
    entries.binary_search_by(|other| compare(other, key, format, rrn, falling))
}
