//! By what a read finds its record.
ghost use Rattle.std.specs.Prelude.{◌≡◌};
ghost use Rattle.record_reads.specs.Asked.{AsksThe, any_in, equal_in, nothing_found};

use key_pages::Key;
use library_model::replies::Reply;
use open_position::reads::ReadBy;

/// By what a read finds its record, with memory of its own for a key.
#[derive(Drop)]
pub(crate) enum AskedBy {
    /// The first after the position.
    Next,
    /// The last before it.
    Prior,
    /// The first after the position, where it has the key.
    NextEqual(Key),
    /// The last before it, where it has the key.
    PriorEqual(Key),
    /// The first that has the key.
    FirstEqual(Key),
    /// The record of this relative record number.
    Number(u32),
}

impl AskedBy {
    /// The same, as an open is asked.
    pub(crate) fn as_read(&self) -> ReadBy<'_>
        ensures { AsksThe self.now result }
    {
        match self {
            AskedBy::Next => ReadBy::Next,
            AskedBy::Prior => ReadBy::Prior,
            AskedBy::NextEqual(key) => ReadBy::NextEqual(key.as_bytes()),
            AskedBy::PriorEqual(key) => ReadBy::PriorEqual(key.as_bytes()),
            AskedBy::FirstEqual(key) => ReadBy::FirstEqual(key.as_bytes()),
            AskedBy::Number(rrn) => ReadBy::Number(*rrn),
        }
    }

    /// The reply where nothing is found.
    pub(crate) fn nothing_found(&self) -> Reply
        ensures { result ≡ nothing_found self.now }
    {
        match self {
            AskedBy::Next | AskedBy::NextEqual(_) => Reply::EndOfFile,
            AskedBy::Prior | AskedBy::PriorEqual(_) => Reply::BeginOfFile,
            AskedBy::FirstEqual(_) | AskedBy::Number(_) => Reply::NotFound,
        }
    }
}

/// In which direction a read goes from the position.
#[derive(Clone, Copy)]
pub(crate) enum Direction {
    Next,
    Prior,
}

impl Direction {
    /// The record that lies next in it.
    pub(crate) fn any(self) -> AskedBy
        ensures { result ≡ any_in self }
    {
        match self {
            Direction::Next => AskedBy::Next,
            Direction::Prior => AskedBy::Prior,
        }
    }

    /// The same, where it has the key.
    pub(crate) fn equal(self, key: Key) -> AskedBy
        ensures { result ≡ equal_in self key }
    {
        match self {
            Direction::Next => AskedBy::NextEqual(key),
            Direction::Prior => AskedBy::PriorEqual(key),
        }
    }
}
