//! Bytes of one use, which contracts see as their list. `texts.rt` names the uses.
ghost use Rattle.std.specs.Prelude.{◌≡◌, List, ℕ, [], ◌++◌, IfOk, OnOk, OnErr, nat_eq};
ghost use Rattle.std.specs.Cmp.{partial_equiv_from_equiv};
ghost use Rattle.std.specs.Cmp.Lexicographic.{pointwise, nat_list_eq_equiv};

use std::alloc::{AllocError, Global};
use std::marker::{Model, PhantomData};

/// Bytes in memory of their own. `Use` says what they are, so that none is taken for another.
#[derive(Drop)]
pub struct ByteList<Use> {
    bytes: Vec<u8>,
    use_of: PhantomData<Use>,
}

impl<Use> Model for ByteList<Use> {
    ghost Value = { List ℕ };

    ghost view = { λ b. b.bytes.items };
}

impl<Use> ByteList<Use> {
    /// No bytes.
    pub fn new(alloc: Global) -> ByteList<Use>
        ensures { result ≡ [] }
    {
        ByteList::from_vec(Vec::new(alloc))
    }

    /// These bytes.
    pub fn from_vec(bytes: Vec<u8>) -> ByteList<Use>
        ensures { result ≡ bytes.items }
    {
        ByteList {
            bytes,
            use_of: PhantomData,
        }
    }

    /// A copy of these bytes.
    pub fn from_slice(alloc: Global, bytes: &[u8]) -> Result<ByteList<Use>, AllocError>
        ensures { IfOk result (λ b. b ≡ bytes.now) }
    {
        Ok(ByteList::from_vec(Vec::from_slice(alloc, bytes)?))
    }

    /// The bytes in order.
    pub fn as_bytes(&self) -> &[u8]
        ensures { result.now ≡ self.now }
    {
        self.bytes.as_slice()
    }

    /// More bytes at the end.
    pub fn extend_from_slice(&mut self, bytes: &[u8]) -> Result<(), AllocError>
        ensures extended { OnOk result (self.new ≡ self.old ++ bytes.now) }
        ensures unchanged { OnErr result (self.new ≡ self.old) }
    {
        self.bytes.extend_from_slice(bytes)
    }

    /// A copy in memory of its own.
    pub fn copied(&self, alloc: Global) -> Result<ByteList<Use>, AllocError>
        ensures { IfOk result (λ b. b ≡ self.now) }
    {
        ByteList::from_slice(alloc, self.as_bytes())
    }
}

impl<Use> PartialEq for ByteList<Use> {
    ghost eq = { pointwise nat_eq };

    ghost laws = { partial_equiv_from_equiv nat_list_eq_equiv };

    fn eq(&self, other: &ByteList<Use>) -> bool {
        self.as_bytes() == other.as_bytes()
    }
}
