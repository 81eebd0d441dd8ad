//! EBCDIC code page 037: the code of a character, and the character of a code.
//! The table itself stands in `specs/CodePage.antt`, and once more for the processor in `tables.rt`.
#![tactic(auto)]

ghost use Rattle.std.specs.Prelude.{◌≡◌, ◌↔◌, ℕ, map, slice_index, IfOk, IsErrOf};
ghost use Rattle.ebc_text.specs.declared.TextError.TheVariants.{NoMemory};
ghost use Rattle.ebc_text.specs.CodePage.{ebcdic_of, ascii_of, IsEncoded, first_outside, entry};

mod tables;

use crate::tables::{CHARACTER, CODE};
use std::alloc::{AllocError, Global};

/// Why a text, or bytes, have no codes in the code page.
#[derive(Clone, Copy, PartialEq, Debug)]
pub enum TextError {
    /// The first character, or byte, that the table doesn't have. Each character before it is one byte
    /// long, so this is its place counted in characters and in bytes, from 0.
    NotInTable { at: usize },
    /// There is no memory for the bytes; try again with more.
    NoMemory,
}

impl From<AllocError> for TextError {
    ghost from_gives = { λ _ e. e ≡ NoMemory };

    fn from(_: AllocError) -> TextError {
        TextError::NoMemory
    }
}

/// The bytes of a text, one for each character.
pub fn to_ebcdic(alloc: Global, s: &str) -> Result<Vec<u8>, TextError>
    ensures encoded { IfOk result (λ v. IsEncoded s.now v.items) }
    ensures outside { (at : ℕ) → IsErrOf result (TextError.NotInTable at) ↔ (first_outside s.now ≡ Some at) }
{
    to_ebcdic_bytes(alloc, s.as_bytes())
}

/// The codes of bytes in ASCII, one for each. They may be no text: a byte from 0x80 on has no code.
pub fn to_ebcdic_bytes(alloc: Global, text: &[u8]) -> Result<Vec<u8>, TextError>
    ensures encoded { IfOk result (λ v. IsEncoded text.now v.items) }
    ensures outside { (at : ℕ) → IsErrOf result (TextError.NotInTable at) ↔ (first_outside text.now ≡ Some at) }
{
    match first_outside(text) {
        Some(at) => Err(TextError::NotInTable { at }),
        None => Ok(codes(alloc, text)?),
    }
}

fn first_outside(text: &[u8]) -> Option<usize>
    ensures { result ≡ first_outside text.now }
{
    text.iter().position(|&c| to_ebcdic_byte(c).is_none())
}

fn codes(alloc: Global, text: &[u8]) -> Result<Vec<u8>, AllocError>
    ensures { IfOk result (λ v. v.items ≡ map (λ c. slice_index CODE c) text.now) }
{
    text.iter().map(|&c| CODE[usize::from(c)]).collect(alloc)
}

/// The code of one character; `None` outside the table.
pub fn to_ebcdic_byte(c: u8) -> Option<u8>
    ensures { result ≡ ebcdic_of c }
{
    entry(CODE[usize::from(c)])
}

/// The character of a code, in ASCII; `None` outside the table.
pub fn to_ascii(b: u8) -> Option<u8>
    ensures { result ≡ ascii_of b }
{
    entry(CHARACTER[usize::from(b)])
}

/// Both directions are one table: a code stands for one character, which has that one code.
pub fn one_to_one()
    ensures { (character code : ℕ) → (ebcdic_of character ≡ Some code) ↔ (ascii_of code ≡ Some character) }
{}

fn entry(place: u8) -> Option<u8>
    ensures { result ≡ entry place }
{
    if place == 0 { None } else { Some(place) }
}
