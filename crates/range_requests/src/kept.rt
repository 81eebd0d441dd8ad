//! The entry before some others.
ghost use Rattle.std.specs.Prelude.{◌≡◌, ◌≤◌, length, take};
ghost use Rattle.std.specs.Option.{option_copied};
ghost use Rattle.journal_model.specs.Acts.{entry_before};

use entry_codec::Entry;

/// The entry before those behind the first so many.
pub(crate) fn entry_before<'a>(
    prior: Option<&'a Entry>,
    entries: &'a [Entry],
    count: usize,
) -> Option<&'a Entry>
    requires { count ≤ length entries.now }
    ensures { option_copied result ≡ entry_before (option_copied prior.entry) (take count entries.now) }
{
    if count == 0 {
        prior
    } else {
        Some(&entries[count - 1])
    }
}
