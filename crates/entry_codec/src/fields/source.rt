//! The source of a file: its length, and its bytes.
ghost use Rattle.std.specs.Prelude.{◌≡◌, ◌<◌, ◌^◌, IfOk, length};
ghost use Rattle.entry_codec.specs.Spelling.{source_field};
ghost use Rattle.entry_codec.specs.Reading.{Reads, source_at};
ghost use Rattle.entry_codec.specs.Writing.{HasRoom, Appends};

use crate::fields::number4;
use crate::parts::{front, put_bytes};
use crate::unread::NotInGrammar;
use field_types::texts::SourceText;
use std::alloc::{AllocError, Global};

pub fn length(source: &SourceText) -> usize
    requires { length (source_field source.now) < 2 ^ 32 }
    ensures { result ≡ length (source_field source.now) }
{
    let bytes = source.as_bytes();
    number4::length(&(bytes.len() as u32)) + bytes.len()
}

pub fn put(source: &SourceText, out: &mut Vec<u8>)
    requires room { HasRoom out.old (source_field source.now) }
    requires fits { length (source_field source.now) < 2 ^ 32 }
    ensures { Appends out.old out.new (source_field source.now) }
{
    let bytes = source.as_bytes();
    number4::put(&(bytes.len() as u32), out);
    put_bytes(out, bytes);
}

#[tactic(auto, unfolding(crate::specs::Reading::source_at))]
pub fn take(bytes: &[u8]) -> Result<(&[u8], &[u8]), NotInGrammar>
    ensures { Reads (λ x. (x.0.now, x.1.now)) result (source_at bytes.now) }
{
    let (length, rest) = number4::take(bytes)?;
    front(rest, length as usize)
}

/// The bytes that were taken, in memory of their own.
pub fn owned(taken: &[u8], alloc: Global) -> Result<SourceText, AllocError>
    ensures { IfOk result (λ s. s ≡ taken.now) }
{
    SourceText::from_slice(alloc, taken)
}

pub fn copied(source: &SourceText, alloc: Global) -> Result<SourceText, AllocError>
    ensures { IfOk result (λ s. s ≡ source.now) }
{
    source.copied(alloc)
}
