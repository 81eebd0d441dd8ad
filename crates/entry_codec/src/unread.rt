//! Why bytes were not read as an entry. The parts of the reader answer so among themselves.
ghost use Rattle.std.specs.Prelude.{◌≡◌};
ghost use Rattle.entry_codec.specs.declared.unread.Unread.TheVariants.{NoMemory, NotSpelled};

use std::alloc::AllocError;

/// The bytes aren't in the grammar. What takes no memory has no other fault.
#[derive(Clone, Copy)]
pub struct NotInGrammar;

/// Why bytes were not read.
#[derive(Drop)]
pub enum Unread {
    /// They are in the grammar, and there was no memory for what they hold.
    NoMemory,
    /// They aren't in the grammar.
    NotSpelled,
}

impl From<AllocError> for Unread {
    ghost from_gives = { λ _ e. e ≡ NoMemory };

    fn from(_e: AllocError) -> Unread {
        Unread::NoMemory
    }
}

impl From<NotInGrammar> for Unread {
    ghost from_gives = { λ _ e. e ≡ NotSpelled };

    fn from(_e: NotInGrammar) -> Unread {
        Unread::NotSpelled
    }
}
