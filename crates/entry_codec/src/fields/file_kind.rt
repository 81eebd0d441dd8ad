//! Whether a file is physical or logical, in one byte.
ghost use Rattle.std.specs.Prelude.{◌≡◌, length};
ghost use Rattle.entry_codec.specs.Spelling.{file_kind_field};
ghost use Rattle.entry_codec.specs.Reading.{Reads, file_kind_at};
ghost use Rattle.entry_codec.specs.Writing.{HasRoom, Appends};

use crate::kinds::FileKind;
use crate::parts::put_bytes;
use crate::unread::NotInGrammar;

const PHYSICAL: u8 = 1;

const LOGICAL: u8 = 2;

pub fn length(_file_kind: &FileKind) -> usize
    ensures { result ≡ length (file_kind_field _file_kind.now) }
{
    1
}

pub fn put(file_kind: &FileKind, out: &mut Vec<u8>)
    requires { HasRoom out.old (file_kind_field file_kind.now) }
    ensures { Appends out.old out.new (file_kind_field file_kind.now) }
{
    let flag = match file_kind {
        FileKind::Physical => PHYSICAL,
        FileKind::Logical => LOGICAL,
    };
    put_bytes(out, &[flag]);
}

#[tactic(auto, unfolding(crate::specs::Reading::file_kind_at))]
pub fn take(bytes: &[u8]) -> Result<(FileKind, &[u8]), NotInGrammar>
    ensures { Reads (λ x. (x.0, x.1.now)) result (file_kind_at bytes.now) }
{
    match bytes {
        [PHYSICAL, rest @ ..] => Ok((FileKind::Physical, rest)),
        [LOGICAL, rest @ ..] => Ok((FileKind::Logical, rest)),
        _ => Err(NotInGrammar),
    }
}
