//! The image of a record: all the bytes that are left.
ghost use Rattle.std.specs.Prelude.{◌≡◌, IfOk, length};
ghost use Rattle.entry_codec.specs.Reading.{Reads, image_at};
ghost use Rattle.entry_codec.specs.Writing.{HasRoom, Appends};

use crate::kinds::{MAX_RECORD_LENGTH, MIN_RECORD_LENGTH};
use crate::parts::put_bytes;
use crate::unread::NotInGrammar;
use field_types::texts::Image;
use std::alloc::{AllocError, Global};

pub fn length(image: &Image) -> usize
    ensures { result ≡ length image.now }
{
    image.as_bytes().len()
}

pub fn put(image: &Image, out: &mut Vec<u8>)
    requires { HasRoom out.old image.now }
    ensures { Appends out.old out.new image.now }
{
    put_bytes(out, image.as_bytes());
}

#[tactic(auto, unfolding(crate::specs::Reading::image_at))]
pub fn take(bytes: &[u8]) -> Result<(&[u8], &[u8]), NotInGrammar>
    ensures { Reads (λ x. (x.0.now, x.1.now)) result (image_at bytes.now) }
{
    if bytes.len() < MIN_RECORD_LENGTH || MAX_RECORD_LENGTH < bytes.len() {
        return Err(NotInGrammar);
    }
    Ok((bytes, &[]))
}

/// The bytes that were taken, in memory of their own.
pub fn owned(taken: &[u8], alloc: Global) -> Result<Image, AllocError>
    ensures { IfOk result (λ i. i ≡ taken.now) }
{
    Image::from_slice(alloc, taken)
}

pub fn copied(image: &Image, alloc: Global) -> Result<Image, AllocError>
    ensures { IfOk result (λ i. i ≡ image.now) }
{
    image.copied(alloc)
}
