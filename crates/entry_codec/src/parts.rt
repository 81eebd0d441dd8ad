//! Bytes at the front of what is read, and at the end of what is written.
ghost use Rattle.std.specs.Prelude.{◌≡◌, IfOk, length, Some};
ghost use Rattle.entry_codec.specs.Reading.{Reads, front_at};
ghost use Rattle.entry_codec.specs.Writing.{HasRoom, Appends};

use crate::unread::NotInGrammar;

/// The first `count` bytes, and the bytes after them.
#[tactic(auto, unfolding(crate::specs::Reading::front_at))]
pub fn front(bytes: &[u8], count: usize) -> Result<(&[u8], &[u8]), NotInGrammar>
    ensures gives { Reads (λ x. (x.0.now, x.1.now)) result (front_at count bytes.now) }
    ensures length { IfOk result (λ x. length x.0.now ≡ count) }
{
    if bytes.len() < count {
        return Err(NotInGrammar);
    }
    Ok(bytes.split_at(count))
}

/// Writes the bytes, for which there is room.
pub fn put_bytes(out: &mut Vec<u8>, bytes: &[u8])
    requires { HasRoom out.old bytes.now }
    ensures { Appends out.old out.new bytes.now }
{
    match out.extend_from_slice(bytes) {
        Ok(()) => {}
        Err(_) => unreachable!(),
    }
}
