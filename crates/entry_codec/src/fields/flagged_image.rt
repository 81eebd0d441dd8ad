//! The image of a record behind the flag that stands for it.
ghost use Rattle.std.specs.Prelude.{◌≡◌, ◌<◌, ◌^◌, IfOk, length};
ghost use Rattle.entry_codec.specs.Spelling.{image_field};
ghost use Rattle.entry_codec.specs.Reading.{Reads, flagged_image_at};
ghost use Rattle.entry_codec.specs.Writing.{HasRoom, Appends};

use crate::fields::image;
use crate::parts::put_bytes;
use crate::unread::NotInGrammar;
use field_types::texts::Image;
use std::alloc::{AllocError, Global};

/// An image follows.
pub const WITH_IMAGE: u8 = 1;

pub fn length(image: &Image) -> usize
    requires { length (image_field image.now) < 2 ^ 32 }
    ensures { result ≡ length (image_field image.now) }
{
    1 + image::length(image)
}

pub fn put(image: &Image, out: &mut Vec<u8>)
    requires { HasRoom out.old (image_field image.now) }
    ensures { Appends out.old out.new (image_field image.now) }
{
    put_bytes(out, &[WITH_IMAGE]);
    image::put(image, out);
}

#[tactic(auto, unfolding(crate::specs::Reading::flagged_image_at))]
pub fn take(bytes: &[u8]) -> Result<(&[u8], &[u8]), NotInGrammar>
    ensures { Reads (λ x. (x.0.now, x.1.now)) result (flagged_image_at bytes.now) }
{
    match bytes {
        [WITH_IMAGE, rest @ ..] => image::take(rest),
        _ => Err(NotInGrammar),
    }
}

pub use crate::fields::image::{copied, owned};
