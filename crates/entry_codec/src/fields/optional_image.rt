//! The image of a record where the journal keeps it, behind a flag.
ghost use Rattle.std.specs.Prelude.{◌≡◌, ◌<◌, ◌^◌, IfOk, length, option_map};
ghost use Rattle.entry_codec.specs.Spelling.{optional_image_field};
ghost use Rattle.entry_codec.specs.Reading.{Reads, optional_image_at};
ghost use Rattle.entry_codec.specs.Writing.{HasRoom, Appends};

use crate::fields::flagged_image::WITH_IMAGE;
use crate::fields::{flagged_image, image};
use crate::parts::put_bytes;
use crate::unread::NotInGrammar;
use field_types::texts::Image;
use std::alloc::{AllocError, Global};

const WITHOUT_IMAGE: u8 = 0;

pub fn length(kept: &Option<Image>) -> usize
    requires { length (optional_image_field kept.now) < 2 ^ 32 }
    ensures { result ≡ length (optional_image_field kept.now) }
{
    match kept {
        None => 1,
        Some(image) => flagged_image::length(image),
    }
}

pub fn put(kept: &Option<Image>, out: &mut Vec<u8>)
    requires { HasRoom out.old (optional_image_field kept.now) }
    ensures { Appends out.old out.new (optional_image_field kept.now) }
{
    match kept {
        None => put_bytes(out, &[WITHOUT_IMAGE]),
        Some(image) => flagged_image::put(image, out),
    }
}

#[tactic(auto, unfolding(crate::specs::Reading::optional_image_at))]
pub fn take(bytes: &[u8]) -> Result<(Option<&[u8]>, &[u8]), NotInGrammar>
    ensures { Reads (λ x. (option_map (λ i. i.now) x.0, x.1.now)) result (optional_image_at bytes.now) }
{
    match bytes {
        [WITHOUT_IMAGE, rest @ ..] => Ok((None, rest)),
        [WITH_IMAGE, rest @ ..] => {
            let (image, rest) = image::take(rest)?;
            Ok((Some(image), rest))
        }
        _ => Err(NotInGrammar),
    }
}

/// The bytes that were taken, in memory of their own.
pub fn owned(taken: Option<&[u8]>, alloc: Global) -> Result<Option<Image>, AllocError>
    ensures { IfOk result (λ k. k ≡ option_map (λ i. i.now) taken.entry) }
{
    match taken {
        None => Ok(None),
        Some(bytes) => Ok(Some(image::owned(bytes, alloc)?)),
    }
}

pub fn copied(kept: &Option<Image>, alloc: Global) -> Result<Option<Image>, AllocError>
    ensures { IfOk result (λ k. k ≡ kept.now) }
{
    match kept {
        None => Ok(None),
        Some(image) => Ok(Some(image.copied(alloc)?)),
    }
}
