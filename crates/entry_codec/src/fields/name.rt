//! A name in ten bytes, with blanks behind it.
ghost use Rattle.std.specs.Prelude.{◌≡◌, ◌≤◌, IsTrue, length};
ghost use Rattle.std.specs.List.{list_all};
ghost use Rattle.field_types.specs.SystemName.{is_name};
ghost use Rattle.entry_codec.specs.Spelling.{name_field};
ghost use Rattle.entry_codec.specs.Reading.{Reads, is_blank, before_blank, name_in, name_at};
ghost use Rattle.entry_codec.specs.Writing.{HasRoom, Appends};

use crate::parts::{front, put_bytes};
use crate::unread::NotInGrammar;
use field_types::names::{NAME_LENGTH, Name};

pub const BLANKS: [u8; 10] = *b"          ";

#[tactic(auto, using(crate::proofs::FieldLemmas::lengths))]
pub fn length(_name: &Name) -> usize
    ensures { result ≡ length (name_field _name.now) }
{
    NAME_LENGTH
}

pub fn bytes(name: &Name) -> [u8; 10]
    ensures written { result ≡ name_field name.now }
    ensures named { IsTrue (is_name name.now) }
{
    let text = name.as_bytes();
    let mut field = BLANKS;
    field[..text.len()].copy_from_slice(text);
    field
}

pub fn put(name: &Name, out: &mut Vec<u8>)
    requires { HasRoom out.old (name_field name.now) }
    ensures written { Appends out.old out.new (name_field name.now) }
    ensures named { IsTrue (is_name name.now) }
{
    put_bytes(out, &bytes(name));
}

#[tactic(auto, unfolding(crate::specs::Reading::name_at))]
pub fn take(bytes: &[u8]) -> Result<(Name, &[u8]), NotInGrammar>
    ensures { Reads (λ x. (x.0, x.1.now)) result (name_at bytes.now) }
{
    let (field, rest) = front(bytes, NAME_LENGTH)?;
    Ok((name_in(field)?, rest))
}

/// The name in a field.
#[tactic(auto, unfolding(crate::specs::Reading::name_in))]
pub fn name_in(field: &[u8]) -> Result<Name, NotInGrammar>
    ensures { Reads (λ x. x) result (name_in field.now) }
{
    let (name, blanks) = field.split_at(blank_at(field));
    if !are_blank(blanks) {
        return Err(NotInGrammar);
    }
    Name::from_bytes(name).ok_or(NotInGrammar)
}

/// Whether there is nothing but blanks.
pub fn are_blank(bytes: &[u8]) -> bool
    ensures { result ≡ list_all is_blank bytes.now }
{
    bytes.iter().all(|&byte| byte == b' ')
}

/// The place of the first blank, or the end.
fn blank_at(bytes: &[u8]) -> usize
    ensures place { result ≡ length (before_blank bytes.now) }
    ensures within { result ≤ length bytes.now }
{
    for (place, byte) in bytes.iter().enumerate() {
        if *byte == b' ' {
            return place;
        }
    }
    bytes.len()
}
