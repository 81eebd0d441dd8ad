//! Equal keys in a path that may have none.
ghost use Rattle.std.specs.Prelude.{◌≡◌};
ghost use Rattle.std.specs.Option.{option_copied};
ghost use Rattle.access_path.specs.Clash.{lesser};
ghost use Rattle.key_pages.specs.Order.{IsInOrder};
ghost use Rattle.key_pages.specs.Position.{next_entry, IsOn};
ghost use Rattle.path_entrants.specs.Repeated.{repeated_number, least_repeated};

use access_path::path::Path;
use key_pages::{Entry, EntryRef, Position};

/// The least number of a record whose key another record of the path has. It takes no memory, and two searches for each
/// entry.
pub fn least_repeated(path: &Path) -> Option<u32>
    ensures { result ≡ least_repeated path.now.entries path.now.entries }
{
    in_order(path);
    let mut least = None;
    let mut from = Position::Start;
    while let Some(entry) = next_entry(path, &from) {
        least = with_repeated(least, path, entry);
        from = place_of(entry);
    }
    least
}

/// What holds of each path.
fn in_order(path: &Path)
    ensures { IsInOrder path.now.falling path.now.entries }
{
    path.pages().in_order();
}

/// The first entry past a position.
fn next_entry<'a>(path: &'a Path, from: &Position<'_>) -> Option<&'a Entry>
    ensures { option_copied result ≡ next_entry path.now.falling from.now path.now.entries }
{
    path.pages().next_entry(from)
}

/// The position on an entry.
fn place_of(entry: &Entry) -> Position<'_>
    ensures { IsOn result entry.now }
{
    let EntryRef { key, format, rrn } = entry.borrowed();
    Position::On { key, format, rrn }
}

/// The lesser of a number and that of an entry, where another record has its key.
fn with_repeated(least: Option<u32>, path: &Path, entry: &Entry) -> Option<u32>
    ensures { result ≡ lesser least (repeated_number path.now.entries entry.now) }
{
    if path.clash(&entry.key, entry.rrn).is_none() {
        return least;
    }
    match least {
        Some(number) => Some(number.min(entry.rrn)),
        None => Some(entry.rrn),
    }
}
