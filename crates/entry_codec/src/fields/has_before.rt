//! Whether the entry before holds the before image, in one byte.
ghost use Rattle.std.specs.Prelude.{◌≡◌, length};
ghost use Rattle.entry_codec.specs.Spelling.{before_field};
ghost use Rattle.entry_codec.specs.Reading.{Reads, before_at};
ghost use Rattle.entry_codec.specs.Writing.{HasRoom, Appends};

use crate::parts::put_bytes;
use crate::unread::NotInGrammar;

const WITHOUT: u8 = 1;

const BEHIND_BEFORE_IMAGE: u8 = 2;

pub fn length(_has_before: &bool) -> usize
    ensures { result ≡ length (before_field _has_before.now) }
{
    1
}

pub fn put(has_before: &bool, out: &mut Vec<u8>)
    requires { HasRoom out.old (before_field has_before.now) }
    ensures { Appends out.old out.new (before_field has_before.now) }
{
    let flag = match has_before {
        false => WITHOUT,
        true => BEHIND_BEFORE_IMAGE,
    };
    put_bytes(out, &[flag]);
}

#[tactic(auto, unfolding(crate::specs::Reading::before_at))]
pub fn take(bytes: &[u8]) -> Result<(bool, &[u8]), NotInGrammar>
    ensures { Reads (λ x. (x.0, x.1.now)) result (before_at bytes.now) }
{
    match bytes {
        [WITHOUT, rest @ ..] => Ok((false, rest)),
        [BEHIND_BEFORE_IMAGE, rest @ ..] => Ok((true, rest)),
        _ => Err(NotInGrammar),
    }
}
