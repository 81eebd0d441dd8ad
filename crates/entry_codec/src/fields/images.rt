//! Which images the journal keeps, in one byte.
ghost use Rattle.std.specs.Prelude.{◌≡◌, length};
ghost use Rattle.entry_codec.specs.Spelling.{images_field};
ghost use Rattle.entry_codec.specs.Reading.{Reads, images_at};
ghost use Rattle.entry_codec.specs.Writing.{HasRoom, Appends};

use crate::kinds::Images;
use crate::parts::put_bytes;
use crate::unread::NotInGrammar;

const AFTER: u8 = 1;

const BOTH: u8 = 2;

pub fn length(_images: &Images) -> usize
    ensures { result ≡ length (images_field _images.now) }
{
    1
}

pub fn put(images: &Images, out: &mut Vec<u8>)
    requires { HasRoom out.old (images_field images.now) }
    ensures { Appends out.old out.new (images_field images.now) }
{
    let flag = match images {
        Images::After => AFTER,
        Images::Both => BOTH,
    };
    put_bytes(out, &[flag]);
}

#[tactic(auto, unfolding(crate::specs::Reading::images_at))]
pub fn take(bytes: &[u8]) -> Result<(Images, &[u8]), NotInGrammar>
    ensures { Reads (λ x. (x.0, x.1.now)) result (images_at bytes.now) }
{
    match bytes {
        [AFTER, rest @ ..] => Ok((Images::After, rest)),
        [BOTH, rest @ ..] => Ok((Images::Both, rest)),
        _ => Err(NotInGrammar),
    }
}
