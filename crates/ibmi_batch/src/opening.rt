//! The status at which a library was not opened, or its journal not read.
ghost use Rattle.std.specs.Prelude.{◌≡◌};
ghost use Rattle.ibmi_batch.specs.Opening.{status_of, status_unread};

use crate::status::Status;
use journal_book::BookFault;
use journal_opening::OpenFault;

/// The status for a store that was not opened.
pub(crate) fn status_of(fault: OpenFault) -> Status
    ensures { result ≡ status_of fault }
{
    match fault {
        OpenFault::NotALibrary => Status::NotALibrary,
        OpenFault::Damaged { area, at } => Status::Damaged { area, at },
        OpenFault::StoreFault => Status::StoreFault,
        OpenFault::NoMemory => Status::NoMemory,
    }
}

/// The status where entries that are there were not read.
pub(crate) fn status_unread(fault: BookFault) -> Status
    ensures { result ≡ status_unread fault }
{
    match fault {
        BookFault::NoMemory => Status::NoMemory,
        BookFault::BlockChanged { area, at, .. } => Status::Damaged { area, at },
        BookFault::StoreFault | BookFault::NoSuchEntry | BookFault::ReceiverGone { .. } => {
            Status::StoreFault
        }
    }
}
