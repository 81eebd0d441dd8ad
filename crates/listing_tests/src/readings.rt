//! Bytes that are read as a listing of the jobs J1 and J2.
ghost use Rattle.std.specs.Prelude.{IfSome};
ghost use Rattle.listing_reader.specs.Listed.{AreDifferent};

use field_types::names::Name;
use library_model::calls::Call;
use listing::history_listing::listing;
use listing_reader::listings::{ListingFault, read_listing};
use std::alloc::{AllocError, Global};
use std::process::Abort;
use std::test::Fail;

/// The names of the jobs.
fn job_names() -> Option<[Name; 2]>
    ensures { IfSome result (λ names. AreDifferent names) }
{
    let Some(first) = Name::from_bytes(b"J1") else {
        return None;
    };
    let Some(second) = Name::from_bytes(b"J2") else {
        return None;
    };
    Some([first, second])
}

/// What is read of bytes: calls, or the line at fault.
#[derive(Drop)]
pub(crate) enum Reading {
    Calls(Vec<Call>),
    BadLine(u64),
}

/// Reads bytes as a listing.
pub(crate) fn read_bytes(alloc: Global, bytes: &[u8]) -> Result<Reading, Fail> {
    let names = job_names().ok_or("not a name")?;
    match read_listing(alloc, &names, bytes) {
        Ok(calls) => Ok(Reading::Calls(calls)),
        Err(ListingFault::BadLine { line }) => Ok(Reading::BadLine(line)),
        Err(ListingFault::NoMemory) => Err(Fail::from(AllocError)),
    }
}

/// The listing of calls of the jobs.
pub(crate) fn listed(alloc: Global, calls: &[Call]) -> Result<Vec<u8>, Fail> {
    let names = job_names().ok_or("not a name")?;
    Ok(listing(alloc, &names, calls)?)
}

/// Bytes are read back, and what was read is listed as these bytes.
pub(crate) fn check_listing(
    rt: &impl Abort,
    alloc: Global,
    bytes: &[u8],
    row: &str,
) -> Result<(), Fail> {
    match read_bytes(alloc, bytes)? {
        Reading::Calls(calls) => {
            let again = listed(alloc, &calls)?;
            assert_eq!(rt; again.as_slice(), bytes, "{row}");
            Ok(())
        }
        Reading::BadLine(line) => panic!(rt; "line {line} is at fault: {row}"),
    }
}

/// The first line at fault of bytes is this one.
pub(crate) fn check_fault(
    rt: &impl Abort,
    alloc: Global,
    bytes: &[u8],
    wanted: u64,
    row: &str,
) -> Result<(), Fail> {
    let line = match read_bytes(alloc, bytes)? {
        Reading::Calls(_) => None,
        Reading::BadLine(line) => Some(line),
    };
    assert_eq!(rt; line, Some(wanted), "{row}");
    Ok(())
}
