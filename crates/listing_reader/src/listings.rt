//! A listing read back. Its lines are read in `lines.rt`.
ghost use Rattle.std.specs.Prelude.{◌≡◌, ◌<◌, ◌+◌, ◌^◌, ◌==◌, ℕ, suc, List, length, if◌then◌else◌, IfOk, IsErrOf};
ghost use Rattle.std.specs.List.{All};
ghost use Rattle.listing_reader.specs.FirstBad.{IsFirstBad, shared_lines};
ghost use Rattle.listing.specs.HistoryListing.{listing};
ghost use Rattle.listing_reader.specs.Listed.{AreDifferent, HasName};
ghost use Rattle.listing_reader.specs.declared.listings.ListingFault.TheVariants.{NoMemory};

use crate::lines::read_calls;
use field_types::names::Name;
use library_model::calls::Call;
use listing::history_listing::listing;
use std::alloc::{AllocError, Global};

/// Why a listing isn't read.
#[derive(Clone, Copy, PartialEq)]
pub enum ListingFault {
    /// This line, counted from 1, is none that a listing with the lines before it can have.
    BadLine { line: u64 },
    /// Memory ran out; the bytes may be a listing.
    NoMemory,
}

impl From<AllocError> for ListingFault {
    ghost from_gives = { λ _ e. e ≡ NoMemory };

    fn from(_: AllocError) -> ListingFault {
        ListingFault::NoMemory
    }
}

/// The calls whose listing these bytes are.
pub fn read_listing(alloc: Global, names: &[Name], bytes: &[u8]) -> Result<Vec<Call>, ListingFault>
    requires few { length names.now < 2 ^ 32 }
    requires different { AreDifferent names.now }
    ensures read { IfOk result (λ calls. listing names.now calls.items ≡ bytes.now) }
    ensures calls_have_names { IfOk result (λ calls. All (λ call. HasName names.now call.job) calls.items) }
    ensures bad { (line : ℕ) → IsErrOf result (ListingFault.BadLine line) → IsFirstBad names.now bytes.now line }
{
    let calls = read_calls(alloc, names, bytes)?;
    let text = listing(alloc, names, &calls)?;
    if text.as_slice() == bytes {
        Ok(calls)
    } else {
        Err(ListingFault::BadLine {
            line: shared_lines(&text, bytes) + 1,
        })
    }
}

/// One line more behind a line feed.
fn with_feed(lines: u64, byte: u8) -> u64
    requires { lines + 1 < 2 ^ 64 }
    ensures { result ≡ (if byte == 10 then suc lines else lines) }
{
    if byte == b'\n' { lines + 1 } else { lines }
}

/// How many lines two texts begin with alike.
fn shared_lines(text: &[u8], others: &[u8]) -> u64
    ensures { result ≡ shared_lines text.now others.now }
{
    let mut lines = 0;
    let mut left = others;
    for &byte in text {
        let [other, behind @ ..] = left else {
            return lines;
        };
        if *other != byte {
            return lines;
        }
        lines = with_feed(lines, byte);
        left = behind;
    }
    lines
}
