//! Where the input comes from. `read_to_end` reads it whole; `memory_source.rt` has one over given bytes.
ghost use Rattle.std.specs.Prelude.{◌≡◌, ◌++◌, ◌<◌, ◌≤◌, [], List, ℕ, length, take, IfOk, OnErr, IsErr, IsErrOf};
ghost use Rattle.store_model.specs.Faults.{Rose};
ghost use Rattle.store_model.specs.declared.source.ReadError.TheVariants.{Fault, NoMemory};

use crate::Failed;
use std::alloc::{AllocError, Global};

/// A stream of bytes that is read once, from the front.
pub trait Source {
    /// True of a type that says what is left of it.
    ghost tells: { Type 0 };

    /// The bytes that are left.
    ghost left: { Self → List ℕ };

    /// How often it has failed.
    ghost faults: { Self → ℕ };

    /// Takes bytes from the front and answers how many. 0 into a slice that isn't empty means the end.
    fn read(&mut self, into: &mut [u8]) -> Result<usize, Failed>
        ensures within { IfOk result (λ n. n ≤ length into.new) }
        ensures taken { IfOk result (λ n. tells → left self.old ≡ take n into.new ++ left self.new) }
        ensures end { IfOk result (λ n. tells → n ≡ 0 → 0 < length into.new → left self.old ≡ []) }
        ensures unchanged { OnErr result (tells → left self.new ≡ left self.old) }
        ensures never_falls { faults self.old ≤ faults self.new }
        ensures cause { IsErr result → Rose (faults self.old) (faults self.new) };
}

/// Why a source was not read to its end.
#[derive(Clone, Copy, Debug)]
pub enum ReadError {
    /// A read failed.
    Fault,
    /// It has more bytes than the bound.
    TooLong,
    /// There was no memory for them.
    NoMemory,
}

impl From<Failed> for ReadError {
    ghost from_gives = { λ _ e. e ≡ Fault };

    fn from(_: Failed) -> Self {
        ReadError::Fault
    }
}

impl From<AllocError> for ReadError {
    ghost from_gives = { λ _ e. e ≡ NoMemory };

    fn from(_: AllocError) -> Self {
        ReadError::NoMemory
    }
}

/// How many bytes are asked for at once.
const PIECE: usize = 8192;

/// Reads the source to its end, if it has no more bytes than `bound`. After an error bytes may be lost.
pub fn read_to_end<I: Source>(
    alloc: Global,
    source: &mut I,
    bound: usize,
) -> Result<Vec<u8>, ReadError>
    ensures whole { IfOk result (λ bytes. I.tells → I.left source.old ≡ bytes.items) }
    ensures nothing_left { IfOk result (λ bytes. I.tells → I.left source.new ≡ []) }
    ensures within { IfOk result (λ bytes. length bytes.items ≤ bound) }
    ensures too_long { IsErrOf result ReadError.TooLong → I.tells → bound < length (I.left source.old) }
    ensures fault { IsErrOf result ReadError.Fault → Rose (I.faults source.old) (I.faults source.new) }
    ensures never_falls { I.faults source.old ≤ I.faults source.new }
{
    let mut bytes = Vec::new(alloc);
    let mut piece = [0; PIECE];
    loop {
        let count = source.read(&mut piece)?;
        if count == 0 {
            return Ok(bytes);
        }
        if count > bound - bytes.len() {
            return Err(ReadError::TooLong);
        }
        bytes.extend_from_slice(&piece[..count])?;
    }
}
