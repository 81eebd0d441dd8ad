//! What a reader of its entries needs.
ghost use Rattle.std.specs.Prelude.{◌≡◌, ◌≤◌};

use crate::journal::KeptJournal;
use journal_book::Book;

impl KeptJournal {
    /// The book, for those who read its entries.
    pub fn book(&self) -> &Book
        ensures { result.now ≡ self.now }
    {
        &self.book
    }

    /// The first sequence of the block that has this one, as far as the book knows it without a read; this one where it waits.
    pub fn block_of(&self, sequence: u64) -> u64
        requires { self.now.first ≤ sequence }
        ensures { result ≤ sequence }
    {
        if self.book.keeps(sequence) {
            sequence
        } else {
            self.book.block_of(sequence).first
        }
    }
}
