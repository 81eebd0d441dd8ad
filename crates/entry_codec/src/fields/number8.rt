//! An unsigned number in eight bytes, the highest first.
ghost use Rattle.std.specs.Prelude.{◌≡◌, ◌<◌, ◌^◌, length};
ghost use Rattle.entry_codec.specs.Spelling.{number8};
ghost use Rattle.entry_codec.specs.Reading.{Reads, number8_at, number8_of};
ghost use Rattle.entry_codec.specs.Writing.{HasRoom, Appends};

use crate::parts::{front, put_bytes};
use crate::unread::NotInGrammar;
use byteorder::{BigEndian, ByteOrder};

#[tactic(auto, unfolding(crate::specs::Spelling::number8))]
pub fn length(_number: &u64) -> usize
    ensures { result ≡ length (number8 _number.now) }
{
    8
}

#[tactic(auto, unfolding(crate::specs::Spelling::number8))]
pub fn bytes(number: u64) -> [u8; 8]
    ensures written { result ≡ number8 number }
    ensures kept { number < 2 ^ 64 }
{
    let mut bytes = [0; 8];
    BigEndian::write_u64(&mut bytes, number);
    bytes
}

#[tactic(auto, using(crate::proofs::FieldLemmas::lengths))]
pub fn put(number: &u64, out: &mut Vec<u8>)
    requires { HasRoom out.old (number8 number.now) }
    ensures written { Appends out.old out.new (number8 number.now) }
    ensures kept { number.now < 2 ^ 64 }
{
    put_bytes(out, &bytes(*number));
}

#[tactic(auto, unfolding(crate::specs::Reading::number8_at, crate::specs::Reading::number8_of))]
pub fn take(bytes: &[u8]) -> Result<(u64, &[u8]), NotInGrammar>
    ensures { Reads (λ x. (x.0, x.1.now)) result (number8_at bytes.now) }
{
    let (field, rest) = front(bytes, 8)?;
    Ok((BigEndian::read_u64(field), rest))
}
