//! A lock level, in one byte.
ghost use Rattle.std.specs.Prelude.{◌≡◌, length};
ghost use Rattle.entry_codec.specs.Spelling.{level_field};
ghost use Rattle.entry_codec.specs.Reading.{Reads, level_at};
ghost use Rattle.entry_codec.specs.Writing.{HasRoom, Appends};

use crate::parts::put_bytes;
use crate::unread::NotInGrammar;
use commit_level::Level;

const CHG: u8 = 1;

const CS: u8 = 2;

const ALL: u8 = 3;

pub fn length(_level: &Level) -> usize
    ensures { result ≡ length (level_field _level.now) }
{
    1
}

pub fn put(level: &Level, out: &mut Vec<u8>)
    requires { HasRoom out.old (level_field level.now) }
    ensures { Appends out.old out.new (level_field level.now) }
{
    let flag = match level {
        Level::Chg => CHG,
        Level::Cs => CS,
        Level::All => ALL,
    };
    put_bytes(out, &[flag]);
}

#[tactic(auto, unfolding(crate::specs::Reading::level_at))]
pub fn take(bytes: &[u8]) -> Result<(Level, &[u8]), NotInGrammar>
    ensures { Reads (λ x. (x.0, x.1.now)) result (level_at bytes.now) }
{
    match bytes {
        [CHG, rest @ ..] => Ok((Level::Chg, rest)),
        [CS, rest @ ..] => Ok((Level::Cs, rest)),
        [ALL, rest @ ..] => Ok((Level::All, rest)),
        _ => Err(NotInGrammar),
    }
}
