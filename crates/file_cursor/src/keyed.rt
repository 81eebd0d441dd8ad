//! Reading by key.
ghost use Rattle.std.specs.Prelude.{◌≡◌};
ghost use Rattle.std.specs.Option.{option_map};
ghost use Rattle.file_cursor.specs.CursorPosition.{entry_of};
ghost use Rattle.file_cursor.specs.Finding.{next_from, prior_from, where_equal, chain_key, chain_number};
ghost use Rattle.file_cursor.specs.Reading.{SuitsPath, AreNumbered};

use crate::numbered;
use crate::places::Hit;
use crate::spot::Spot;
use access_path::path::Path;
use key_pages::{Entry, Position};

/// The first entry after a position.
pub(crate) fn next<'a>(spot: &Spot, path: &'a Path) -> Option<Hit<'a>>
    requires { SuitsPath path.now spot.now.position }
    ensures { option_map entry_of result ≡ next_from path.now.falling path.now.entries spot.now.position }
{
    if spot.is_by_number() {
        return numbered::next(spot, path.pages());
    }
    let Some(entry) = path.pages().next_entry(&spot.in_path()) else {
        return None;
    };
    Some(hit_on(entry))
}

/// The last entry before a position.
pub(crate) fn prior<'a>(spot: &Spot, path: &'a Path) -> Option<Hit<'a>>
    requires { SuitsPath path.now spot.now.position }
    ensures { option_map entry_of result ≡ prior_from path.now.falling path.now.entries spot.now.position }
{
    if spot.is_by_number() {
        return numbered::prior(spot, path.pages());
    }
    let Some(entry) = path.pages().prior_entry(&spot.in_path()) else {
        return None;
    };
    Some(hit_on(entry))
}

/// The first entry whose key begins with these bytes or is greater.
pub(crate) fn first_upto<'a>(path: &'a Path, key: &[u8]) -> Option<Hit<'a>>
    ensures { where_equal key.now (option_map entry_of result) ≡ chain_key key.now path.now.entries }
{
    let pages = path.pages();
    pages.in_order();
    let Some(entry) = pages.next_entry(&Position::Before(key)) else {
        return None;
    };
    Some(hit_on(entry))
}

/// The record of this number, of one format without keys.
pub(crate) fn record<'a>(path: &'a Path, rrn: u32) -> Option<Hit<'a>>
    requires { AreNumbered path.now }
    ensures { option_map entry_of result ≡ chain_number rrn path.now.entries }
{
    numbered::record(path.pages(), rrn)
}

/// What a read gives of an entry.
pub(crate) fn hit_on(entry: &Entry) -> Hit<'_>
    ensures { entry_of result ≡ entry.now }
{
    Hit {
        format: entry.format,
        rrn: entry.rrn,
        key: entry.key.as_bytes(),
    }
}
