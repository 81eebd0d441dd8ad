//! What stands in front of an entry's body, put together in one piece and written at once.
ghost use Rattle.std.specs.Prelude.{◌≡◌, ◌+◌, ◌≤◌, ◌++◌, [], length};
ghost use Rattle.entry_codec.specs.Spelling.{IsHead, head, number4};

use crate::entries::Entry;
use crate::fields::{job, number4, number8};
use std::marker::Model;

/// The bytes of the number in front of an entry, which counts all that follow it.
pub const LENGTH_FIELD: usize = 4;

/// The bytes from there to the body.
pub const HEAD_LENGTH: usize = 45;

/// The bytes in front of the body.
const FRONT_LENGTH: usize = 49;

/// The bytes in front of a body, as far as they are put together.
#[derive(Drop)]
pub struct Front {
    bytes: [u8; FRONT_LENGTH],
    len: usize,
}

impl Model for Front {
    ghost use Rattle.std.specs.Prelude.{List, ℕ, ◌≤◌, take};
    ghost use Rattle.entry_codec.specs.declared.fronts.TheConstants.{FRONT_LENGTH};

    ghost Value = { List ℕ };

    ghost view = { λ f. take f.len f.bytes };

    ghost invariant = { λ f. f.len ≤ FRONT_LENGTH };
}

impl Front {
    /// What stands in front of this entry, whose bytes behind the length are so many.
    pub fn of(e: &Entry, length: u32) -> Front
        ensures written { result ≡ number4 length ++ head e.now }
        ensures kept { IsHead e.now }
    {
        let mut front = Front::new();
        front.put(&number4::bytes(length));
        front.put(&number8::bytes(e.sequence));
        front.put(e.kind.letters());
        front.put(&job::bytes(&e.job));
        front.put(&number8::bytes(e.moment));
        front.put(&number8::bytes(e.group.unwrap_or(0)));
        front.put(&number4::bytes(e.member.unwrap_or(0)));
        front.put(&number4::bytes(e.rrn.unwrap_or(0)));
        front
    }

    /// The bytes in order.
    pub fn as_slice(&self) -> &[u8]
        ensures { result.now ≡ self.now }
    {
        &self.bytes[..self.len]
    }

    fn new() -> Front
        ensures { result ≡ [] }
    {
        Front {
            bytes: [0; FRONT_LENGTH],
            len: 0,
        }
    }

    fn put(&mut self, field: &[u8])
        requires { length self.old + length field.now ≤ FRONT_LENGTH }
        ensures { self.new ≡ self.old ++ field.now }
    {
        let end = self.len + field.len();
        self.bytes[self.len..end].copy_from_slice(field);
        self.len = end;
    }
}
