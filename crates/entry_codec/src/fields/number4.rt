//! An unsigned number in four bytes, the highest first.
ghost use Rattle.std.specs.Prelude.{◌≡◌, ◌<◌, ◌^◌, length};
ghost use Rattle.entry_codec.specs.Spelling.{number4};
ghost use Rattle.entry_codec.specs.Reading.{Reads, number4_at, number4_of};
ghost use Rattle.entry_codec.specs.Writing.{HasRoom, Appends};

use crate::parts::{front, put_bytes};
use crate::unread::NotInGrammar;
use byteorder::{BigEndian, ByteOrder};

#[tactic(auto, unfolding(crate::specs::Spelling::number4))]
pub fn length(_number: &u32) -> usize
    ensures { result ≡ length (number4 _number.now) }
{
    4
}

#[tactic(auto, unfolding(crate::specs::Spelling::number4))]
pub fn bytes(number: u32) -> [u8; 4]
    ensures written { result ≡ number4 number }
    ensures kept { number < 2 ^ 32 }
{
    let mut bytes = [0; 4];
    BigEndian::write_u32(&mut bytes, number);
    bytes
}

#[tactic(auto, using(crate::proofs::FieldLemmas::lengths))]
pub fn put(number: &u32, out: &mut Vec<u8>)
    requires { HasRoom out.old (number4 number.now) }
    ensures written { Appends out.old out.new (number4 number.now) }
    ensures kept { number.now < 2 ^ 32 }
{
    put_bytes(out, &bytes(*number));
}

#[tactic(auto, unfolding(crate::specs::Reading::number4_at, crate::specs::Reading::number4_of))]
pub fn take(bytes: &[u8]) -> Result<(u32, &[u8]), NotInGrammar>
    ensures { Reads (λ x. (x.0, x.1.now)) result (number4_at bytes.now) }
{
    let (field, rest) = front(bytes, 4)?;
    Ok((BigEndian::read_u32(field), rest))
}
